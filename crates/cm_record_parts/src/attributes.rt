//! The attributes of the class and of its members.
ghost use Rattle.std.specs.Prelude.{◌≡◌, ◌<◌, ◌+◌, ◌*◌, ◌^◌, ℕ, slice_get, Some};
ghost use Rattle.cm_class.specs.declared.class_file.ClassFile.{ClassFile};
ghost use Rattle.cm_class.specs.declared.class_file.Member.{Member as ClassMember};
ghost use Rattle.cm_class.specs.declared.class_file.Attribute.{Attribute as ClassAttribute};
ghost use Rattle.cm_record_layout.specs.Layout.{IsRecordOf, all_members, all_attributes};
ghost use Rattle.cm_record_layout.specs.Layout.{attributes_at};
ghost use Rattle.cm_record_parts.specs.Parts.{attributes_of as attributes_owned};
ghost use Rattle.cm_record_parts.specs.Parts.{attribute_of, count_of, AreListed, MayBeListed};
ghost use Rattle.cm_record_parts.specs.Parts.{IsAttribute, MayBeAttribute, FindsNamed};

use crate::class_parts::{field_count, method_count};
use crate::members::member_place;
use crate::places::{Place, utf8_place};
use crate::texts::is_utf8;
use crate::words::{offset_at, word_at};
use cm_record_layout::{HEAD_COUNTS, HEAD_RUNS_AT, first, fourth, upper};

/// A part of a class that has attributes.
#[derive(Clone, Copy, Debug, PartialEq, Eq)]
pub enum Owner {
    /// The class itself.
    Class,
    /// The field at an index, which counts from 0.
    Field(u16),
    /// The method at an index, which counts from 0.
    Method(u16),
}

/// An attribute (JVMS 4.7).
#[repr(C)]
#[derive(Clone, Copy, Debug, PartialEq, Eq)]
pub struct Attribute {
    pub name: Place,
    pub content: Place,
}

/// The attributes of one owner, which stand side by side.
#[derive(Clone, Copy)]
pub(crate) struct Listed {
    /// The word at which they begin, two words each.
    pub(crate) at: u32,
    /// How many there are.
    pub(crate) count: u16,
}

// The attributes of a member, by its index among the fields and then the methods.
fn attributes_of_member(words: &[u64], index: u32) -> Listed
    ensures { (c : ClassFile) (own : ClassMember) → IsRecordOf c words.now
        → slice_get (all_members c) index ≡ Some own → AreListed c result own.attributes }
{
    let place = member_place(words, index);
    Listed {
        at: offset_at(words, place + 1),
        count: fourth(word_at(words, place)),
    }
}

// The attributes of the class itself, which are the last ones before the runs.
fn attributes_of_class(words: &[u64]) -> Listed
    ensures { (c : ClassFile) → IsRecordOf c words.now → AreListed c result c.attributes }
{
    let count = fourth(word_at(words, HEAD_COUNTS));
    Listed {
        at: offset_at(words, HEAD_RUNS_AT).saturating_sub(2 * u32::from(count)),
        count,
    }
}

// The attributes of an owner; `None` if there is no such member.
fn attributes_of(words: &[u64], owner: Owner) -> Option<Listed>
    ensures { (c : ClassFile) → IsRecordOf c words.now
        → MayBeListed c result (attributes_owned c owner) }
{
    match owner {
        Owner::Class => Some(attributes_of_class(words)),
        Owner::Field(index) => {
            if index >= field_count(words) {
                return None;
            }
            Some(attributes_of_member(words, u32::from(index)))
        }
        Owner::Method(index) => {
            if index >= method_count(words) {
                return None;
            }
            let before = u32::from(field_count(words));
            Some(attributes_of_member(words, before + u32::from(index)))
        }
    }
}

// The attribute whose two words begin at a place.
fn read_attribute(words: &[u64], at: usize) -> Attribute
    requires { at < 2 ^ 33 }
    ensures { (c : ClassFile) (k : ℕ) (own : ClassAttribute) → IsRecordOf c words.now
        → slice_get (all_attributes c) k ≡ Some own → at ≡ attributes_at c + 2 * k
        → IsAttribute c words.now result own }
{
    let word = word_at(words, at);
    Attribute {
        name: utf8_place(words, first(word)),
        content: Place {
            // A record has fewer than 2^29 words.
            at: offset_at(words, at + 1) % (1 << 29) * 8,
            len: upper(word),
        },
    }
}

/// How many attributes a part of the class has; 0 if there is no such member.
pub fn attribute_count(words: &[u64], owner: Owner) -> u16
    ensures { (c : ClassFile) → IsRecordOf c words.now
        → result ≡ count_of (attributes_owned c owner) }
{
    match attributes_of(words, owner) {
        Some(those) => those.count,
        None => 0,
    }
}

/// The attribute at an index of those of a part of the class, which counts from 0; `None` past the
/// last one, and if there is no such member.
pub fn attribute_at(words: &[u64], owner: Owner, index: u16) -> Option<Attribute>
    ensures { (c : ClassFile) → IsRecordOf c words.now
        → MayBeAttribute c words.now result (attribute_of (attributes_owned c owner) index) }
{
    let Some(those) = attributes_of(words, owner) else {
        return None;
    };
    if index >= those.count {
        return None;
    }
    Some(read_attribute(words, those.at as usize + 2 * index as usize))
}

/// The first attribute of a name among those of a part of the class; `None` if none has it, and if
/// there is no such member.
pub fn attribute_named(words: &[u64], owner: Owner, name: &[u8]) -> Option<Attribute>
    ensures { (c : ClassFile) → IsRecordOf c words.now
        → FindsNamed c words.now name.now (attributes_owned c owner) result }
{
    let Some(those) = attributes_of(words, owner) else {
        return None;
    };
    for index in 0..those.count as usize {
        let at = those.at as usize + 2 * index;
        if is_utf8(words, first(word_at(words, at)), name) {
            return Some(read_attribute(words, at));
        }
    }
    None
}

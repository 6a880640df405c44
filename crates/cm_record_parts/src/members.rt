//! Fields and methods, by their index.
ghost use Rattle.std.specs.Prelude.{◌≡◌, ◌<◌, ◌+◌, ◌*◌, ◌%◌, ◌^◌, get_or, slice_get, Some};
ghost use Rattle.cm_class.specs.declared.class_file.ClassFile.{ClassFile};
ghost use Rattle.cm_class.specs.declared.class_file.Member.{Member as ClassMember};
ghost use Rattle.cm_record_layout.specs.Layout.{IsRecordOf, all_members};
ghost use Rattle.cm_record_parts.specs.Parts.{IsMember, MayBeMember};

use crate::class_parts::{field_count, method_count};
use crate::places::{Place, utf8_place};
use crate::words::{offset_at, word_at};
use cm_record_layout::{HEAD_MEMBERS_AT, first, fourth, second, third};

/// A field or a method (JVMS 4.5, 4.6).
#[repr(C)]
#[derive(Clone, Copy, Debug, PartialEq, Eq)]
pub struct Member {
    pub flags: u16,
    pub name: Place,
    pub descriptor: Place,
    /// How many attributes it has.
    pub attributes: u16,
}

/// Where the two words of a member are, by its index among the fields and then the methods.
pub(crate) fn member_place(words: &[u64], index: u32) -> usize
    ensures { result ≡ get_or words.now 5 0 % 2 ^ 32 + 2 * index }
{
    offset_at(words, HEAD_MEMBERS_AT) as usize + 2 * index as usize
}

// A member, by its index among the fields and then the methods.
fn member_at(words: &[u64], index: u32) -> Member
    ensures { (c : ClassFile) (own : ClassMember) → IsRecordOf c words.now
        → slice_get (all_members c) index ≡ Some own → IsMember c words.now result own }
{
    let word = word_at(words, member_place(words, index));
    Member {
        flags: first(word),
        name: utf8_place(words, second(word)),
        descriptor: utf8_place(words, third(word)),
        attributes: fourth(word),
    }
}

/// The field at an index, which counts from 0; `None` past the last one.
pub fn field(words: &[u64], index: u16) -> Option<Member>
    ensures { (c : ClassFile) → IsRecordOf c words.now
        → MayBeMember c words.now result (slice_get c.fields index) }
{
    if index >= field_count(words) {
        return None;
    }
    Some(member_at(words, u32::from(index)))
}

/// The method at an index, which counts from 0; `None` past the last one.
pub fn method(words: &[u64], index: u16) -> Option<Member>
    ensures { (c : ClassFile) → IsRecordOf c words.now
        → MayBeMember c words.now result (slice_get c.methods index) }
{
    if index >= method_count(words) {
        return None;
    }
    let before = u32::from(field_count(words));
    Some(member_at(words, before + u32::from(index)))
}

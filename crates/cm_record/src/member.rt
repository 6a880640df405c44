//! The fields and methods of a record, by name and descriptor.
ghost use Rattle.std.specs.Prelude.{◌≡◌, ◌≤◌, ◌<◌, ◌+◌, ◌*◌, ◌&&◌, ℕ, List, false, length};
ghost use Rattle.std.specs.Prelude.{get_or, IsNone, IfSome};
ghost use Rattle.cm_class.specs.declared.class_file.ClassFile.{ClassFile};
ghost use Rattle.cm_class.specs.declared.class_file.Member.{Member as ClassMember};
ghost use Rattle.cm_record_layout.specs.Layout.{IsRecord, IsRecordOf};
ghost use Rattle.cm_record_layout.specs.Packing.{second_of, third_of};
ghost use Rattle.cm_record.specs.Members.{leads_to, AreMembersAt, IsFirstIndex, FindsMember};

use crate::marks::Marks;
use crate::utf8::is_utf8_of;
use cm_record_layout::{first, fourth, second, third};

/// A field or a method, as a record names it (JVMS 4.5, 4.6).
#[derive(Clone, Copy, Debug, PartialEq, Eq)]
pub struct Member {
    /// A method, and not a field.
    pub is_method: bool,
    /// How many fields, or methods, come before it.
    pub index: u16,
    pub flags: u16,
    /// How many attributes it has.
    pub attributes: u16,
}

/// The fields or the methods of a record.
#[derive(Clone, Copy)]
pub(crate) struct Members {
    pub(crate) is_method: bool,
    /// The word at which their words begin, two each.
    pub(crate) at: usize,
    /// How many there are.
    pub(crate) count: u16,
}

impl Members {
    /// The first of them that has this name and this descriptor.
    pub(crate) fn find(self, words: &[u64], name: &[u8], descriptor: &[u8]) -> Option<Member>
        requires record { IsRecord words.now }
        requires within { self.at + 2 * self.count ≤ length words.now }
        ensures { (c : ClassFile) (all : List ClassMember) → IsRecordOf c words.now
            → AreMembersAt words.now self.at self.count all
            → FindsMember c all self.is_method name.now descriptor.now result }
    {
        let Some(index) = find_member(words, self.at, self.count as usize, name, descriptor) else {
            return None;
        };
        let word = words[self.at + 2 * index];
        Some(Member {
            is_method: self.is_method,
            index: index as u16,
            flags: first(word),
            attributes: fourth(word),
        })
    }
}

/// Whether the word of a member leads to this name and this descriptor; `None` as in
/// [`is_utf8_of`].
#[inline(always)]
fn is_word_of(
    words: &[u64],
    word: u64,
    name: &[u8],
    descriptor: &[u8],
    left: &mut usize,
) -> Option<bool>
    requires { IsRecord words.now }
    ensures { (c : ClassFile) → IsRecordOf c words.now → IfSome result
        (λ r. r ≡ leads_to c name.now descriptor.now (second_of word) (third_of word)) }
{
    if !is_utf8_of(words, second(word), name, left)? {
        return Some(false);
    }
    is_utf8_of(words, third(word), descriptor, left)
}

/// The same, given which indexes lead to the name and which to the descriptor.
fn is_word_marked(word: u64, names: &Marks, descriptors: &Marks) -> bool
    ensures { result ≡ (get_or names.now.leads (second_of word) false
        && get_or descriptors.now.leads (third_of word) false) }
{
    names.has(second(word)) && descriptors.has(third(word))
}

/// Like [`find_member`], with one pass over the pool for the name and one for the descriptor,
/// whatever the members' indexes are. It stays a function of its own at run time: its marks take
/// 128 KiB of the stack, which the ordinary search doesn't need.
#[inline(never)]
fn find_member_by_marks(
    words: &[u64],
    at: usize,
    count: usize,
    name: &[u8],
    descriptor: &[u8],
) -> Option<usize>
    requires record { IsRecord words.now }
    requires within { at + 2 * count ≤ length words.now }
    ensures none { (c : ClassFile) → IsRecordOf c words.now → IsNone result → (k : ℕ) → k < count
        → leads_to c name.now descriptor.now (second_of (get_or words.now (at + 2 * k) 0))
        (third_of (get_or words.now (at + 2 * k) 0)) ≡ false }
    ensures some { (c : ClassFile) → IsRecordOf c words.now → IfSome result (IsFirstIndex
        (λ k. leads_to c name.now descriptor.now (second_of (get_or words.now (at + 2 * k) 0))
        (third_of (get_or words.now (at + 2 * k) 0))) count) }
    ensures there { IfSome result (λ index. index < count) }
{
    let (names, descriptors) = (Marks::of(words, name), Marks::of(words, descriptor));
    for index in 0..count {
        if is_word_marked(words[at + 2 * index], &names, &descriptors) {
            return Some(index);
        }
    }
    None
}

/// The first of `count` members, whose words begin at `at`, that has this name and this descriptor.
/// Once it has read as many words as the record has, it searches by marks.
fn find_member(
    words: &[u64],
    at: usize,
    count: usize,
    name: &[u8],
    descriptor: &[u8],
) -> Option<usize>
    requires record { IsRecord words.now }
    requires within { at + 2 * count ≤ length words.now }
    ensures none { (c : ClassFile) → IsRecordOf c words.now → IsNone result → (k : ℕ) → k < count
        → leads_to c name.now descriptor.now (second_of (get_or words.now (at + 2 * k) 0))
        (third_of (get_or words.now (at + 2 * k) 0)) ≡ false }
    ensures some { (c : ClassFile) → IsRecordOf c words.now → IfSome result (IsFirstIndex
        (λ k. leads_to c name.now descriptor.now (second_of (get_or words.now (at + 2 * k) 0))
        (third_of (get_or words.now (at + 2 * k) 0))) count) }
    ensures there { IfSome result (λ index. index < count) }
{
    let mut left = words.len();
    for index in 0..count {
        let Some(is_found) = is_word_of(words, words[at + 2 * index], name, descriptor, &mut left)
        else {
            return find_member_by_marks(words, at, count, name, descriptor);
        };
        if is_found {
            return Some(index);
        }
    }
    None
}

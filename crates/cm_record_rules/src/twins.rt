//! Whether no two fields, or no two methods, are the same (JVMS 4.5, 4.6).
ghost use Rattle.std.specs.Prelude.{◌≡◌, ◌&&◌, ◌==◌, not, true, None, bytes_eq, map, take, get_or};
ghost use Rattle.std.specs.List.{list_all};
ghost use Rattle.cm_class.specs.Names.{utf8};
ghost use Rattle.cm_duplicates.specs.Duplicates.{is_first, first_duplicate};
ghost use Rattle.cm_record_rules.specs.Marked.{mark_of, member_mark};

use crate::laid::LaidClass;
use crate::members::{LaidMember, LaidMembers};
use std::alloc::Global;

/// With more members this isn't determined, since each is compared with all before it.
const MOST: usize = 256;

/// Whether a member has this name and this descriptor.
fn has_both(class: &LaidClass, name: &[u8], descriptor: &[u8], member: &LaidMember) -> bool
    ensures { result ≡ (bytes_eq name.now (utf8 class.now member.now.name)
        && bytes_eq descriptor.now (utf8 class.now member.now.descriptor)) }
{
    name == class.utf8(member.name()) && descriptor == class.utf8(member.descriptor())
}

/// Whether none of the members before a place is the same as this one.
fn is_first(class: &LaidClass, all: &LaidMembers, place: usize, member: &LaidMember) -> bool
    ensures { result ≡ is_first class.now all.now place member.now }
{
    let name = class.utf8(member.name());
    let descriptor = class.utf8(member.descriptor());
    let mut rest = all.iter();
    for _ in 0..place {
        match rest.next() {
            Some(other) => {
                if has_both(class, name, descriptor, &other) {
                    return false;
                }
            }
            None => return true,
        }
    }
    true
}

/// The byte at a place; 0 after the bytes.
fn byte_at(bytes: &[u8], place: usize) -> u8
    ensures { result ≡ get_or bytes.now place 0 }
{
    match bytes.get(place) {
        Some(byte) => *byte,
        None => 0,
    }
}

/// A number that a name and a descriptor determine: few others have the same.
#[tactic(auto, unfolding(crate::specs::Marked::mark_of))]
fn mark_of(name: &[u8], descriptor: &[u8]) -> u64
    ensures { result ≡ mark_of name.now descriptor.now }
{
    let middle = byte_at(name, name.len() / 2);
    let last = byte_at(name, name.len().saturating_sub(1));
    u64::from(middle)
        + (1 << 8) * u64::from(last)
        + (1 << 16) * (name.len() as u64 % (1 << 16))
        + (1 << 32) * (descriptor.len() as u64 % (1 << 16))
}

/// The mark of a member's name and descriptor.
fn member_mark(class: &LaidClass, member: &LaidMember) -> u64
    ensures { result ≡ member_mark class.now member.now }
{
    mark_of(class.utf8(member.name()), class.utf8(member.descriptor()))
}

/// Whether a mark isn't among these. It always compares all of them, so that the loop can be
/// vectorised.
fn is_new(marks: &[u64], mark: u64) -> bool
    ensures { result ≡ list_all (λ other. not (other == mark)) marks.now }
{
    let mut all = true;
    for other in marks {
        all &= *other != mark;
    }
    all
}

/// Whether none of the members before a place is the same as this one: for most members the marks
/// show that.
#[tactic(auto, using(crate::proofs::MarkedMembers::new_is_first))]
fn is_apart(
    class: &LaidClass,
    all: &LaidMembers,
    marks: &[u64],
    place: usize,
    member: &LaidMember,
    mark: u64,
) -> bool
    requires marks { marks.now ≡ map (member_mark class.now) (take place all.now) }
    requires mark { mark ≡ member_mark class.now member.now }
    ensures { result ≡ is_first class.now all.now place member.now }
{
    is_new(marks, mark) || is_first(class, all, place, member)
}

/// Whether no two of the members are found to be the same.
pub(crate) fn no_twins(alloc: Global, class: &LaidClass, all: &LaidMembers) -> bool
    ensures { result ≡ true → first_duplicate class.now all.now ≡ None }
{
    if all.len() > MOST {
        return false;
    }
    let Ok(mut marks) = Vec::with_capacity(alloc, all.len()) else {
        return false;
    };
    let mut rest = all.iter();
    let mut place = 0;
    while let Some(member) = rest.next() {
        let mark = member_mark(class, &member);
        if !is_apart(class, all, &marks, place, &member, mark) {
            return false;
        }
        if marks.push(mark).is_err() {
            return false;
        }
        place += 1;
    }
    true
}

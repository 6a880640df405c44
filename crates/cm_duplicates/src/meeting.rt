//! The first member whose fingerprint equals that of one before it: usually it is a duplicate.
ghost use Rattle.std.specs.Prelude.{◌≡◌, ◌≤◌, ◌^◌, ◌<◌, length, true, IfOk, IfSome, Some};
ghost use Rattle.std.specs.List.{list_any};
ghost use Rattle.std.specs.List.Sorted.{IsNonDecreasing};
ghost use Rattle.cm_duplicates.specs.Duplicates.{first_duplicate, same_member};
ghost use Rattle.cm_duplicates.specs.Fingerprints.{HasRepeated, AreNumbers};

use crate::pairs::same_member;
use crate::repeated::is_among;
use cm_class::{Class, Member};
use std::alloc::{AllocError, Global};
use std::collections::BTreeSet;

/// Whether a member is the same as one of those that have its fingerprint.
fn is_met(
    class: &Class,
    member: &Member,
    fingerprint: u64,
    others: &[Member],
    fingerprints: &[u64],
) -> bool
    requires { length others.now ≤ length fingerprints.now }
    ensures { result ≡ true → list_any (same_member class.now member.now) others.now ≡ true }
{
    for (place, other) in others.iter().enumerate() {
        if fingerprints[place] == fingerprint && same_member(class, member, other) {
            return true;
        }
    }
    false
}

/// The first duplicate, if it is the first member with a fingerprint that occurred before. `None`
/// if that member differs from those before it: the first duplicate is then still to be found.
pub(crate) fn first_where_they_meet(
    alloc: Global,
    class: &Class,
    members: &[Member],
    fingerprints: &[u64],
    repeated: &[u64],
) -> Result<Option<u16>, AllocError>
    requires few { length members.now < 2 ^ 16 }
    requires order { IsNonDecreasing repeated.now }
    requires of_members { AreNumbers class.now members.now fingerprints.now }
    requires repeats { HasRepeated fingerprints.now repeated.now }
    ensures { IfOk result (λ found. IfSome found (λ place.
        first_duplicate class.now members.now ≡ Some place)) }
{
    let mut seen = BTreeSet::new(alloc);
    for (place, member) in members.iter().enumerate() {
        let fingerprint = fingerprints[place];
        if !is_among(repeated, fingerprint) {
            continue;
        }
        if seen.insert(fingerprint)? {
            continue;
        }
        if is_met(class, member, fingerprint, &members[..place], fingerprints) {
            return Ok(Some(place as u16));
        }
        return Ok(None);
    }
    Ok(None)
}

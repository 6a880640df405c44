//! Fingerprints of members: numbers that depend on their names and descriptors alone.
ghost use Rattle.std.specs.Prelude.{◌≡◌, map, IfOk};
ghost use Rattle.cm_class.specs.Names.{utf8};
ghost use Rattle.cm_duplicates.specs.Fingerprints.{fingerprint, utf8_fingerprints};
ghost use Rattle.cm_duplicates.specs.Fingerprints.{joined_fingerprint};
ghost use Rattle.cm_duplicates.specs.Fingerprints.{member_fingerprint};

use cm_class::{Class, Member};
use std::alloc::{AllocError, Global};
use std::hash::{DefaultHasher, FoldHasher, Hasher};

/// How fingerprints are computed.
#[derive(Clone, Copy)]
pub(crate) enum Strength {
    /// Sixteen bytes per step. Whoever chooses the bytes can make any number of fingerprints
    /// collide.
    Quick,
    /// Slower, and hard to make collide.
    Strong,
}

/// A number that depends on the bytes alone.
#[tactic(auto, unfolding(crate::specs::Fingerprints::fingerprint))]
fn fingerprint(strength: Strength, bytes: &[u8]) -> u64
    ensures { result ≡ fingerprint strength bytes.now }
{
    match strength {
        Strength::Quick => {
            let mut hasher = FoldHasher::default();
            hasher.write(bytes);
            hasher.finish()
        }
        Strength::Strong => {
            let mut hasher = DefaultHasher::new();
            hasher.write(bytes);
            hasher.finish()
        }
    }
}

/// The fingerprint at each index of the pool, from 0 on, so that a Utf8 is read once, however many
/// members name it.
fn utf8_fingerprints(
    alloc: Global,
    class: &Class,
    strength: Strength,
) -> Result<Vec<u64>, AllocError>
    ensures { IfOk result (λ v. v.items ≡ utf8_fingerprints strength class.now) }
{
    class.invariant_holds();
    let count = class.slots().len() as u16 + 1;
    let mut fingerprints = Vec::with_capacity(alloc, usize::from(count))?;
    for index in 0..count {
        fingerprints.push(fingerprint(strength, class.utf8(index)))?;
    }
    Ok(fingerprints)
}

/// The fingerprint at an index. Past the end of the pool there are no bytes.
fn fingerprint_at(class: &Class, fingerprints: &[u64], index: u16, strength: Strength) -> u64
    requires { fingerprints.now ≡ utf8_fingerprints strength class.now }
    ensures { result ≡ fingerprint strength (utf8 class.now index) }
{
    match fingerprints.get(usize::from(index)) {
        Some(number) => *number,
        None => fingerprint(strength, class.utf8(index)),
    }
}

#[tactic(auto, unfolding(crate::specs::Fingerprints::joined_fingerprint))]
fn member_fingerprint(name: u64, descriptor: u64) -> u64
    ensures { result ≡ joined_fingerprint name descriptor }
{
    name ^ descriptor.rotate_left(32)
}

/// The fingerprint of each member, in order.
pub(crate) fn member_fingerprints(
    alloc: Global,
    class: &Class,
    members: &[Member],
    strength: Strength,
) -> Result<Vec<u64>, AllocError>
    ensures { IfOk result (λ v. v.items ≡ map (member_fingerprint strength class.now) members.now) }
{
    let of_utf8s = utf8_fingerprints(alloc, class, strength)?;
    let mut fingerprints = Vec::with_capacity(alloc, members.len())?;
    for member in members {
        let name = fingerprint_at(class, &of_utf8s, member.name, strength);
        let descriptor = fingerprint_at(class, &of_utf8s, member.descriptor, strength);
        fingerprints.push(member_fingerprint(name, descriptor))?;
    }
    Ok(fingerprints)
}

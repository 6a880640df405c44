//! Members with colliding fingerprints, compared by what represents their names and descriptors.
ghost use Rattle.std.specs.Prelude.{◌≡◌, ◌^◌, ◌<◌, length, IfOk};
ghost use Rattle.std.specs.List.Sorted.{IsNonDecreasing};
ghost use Rattle.cm_duplicates.specs.Duplicates.{first_duplicate};
ghost use Rattle.cm_duplicates.specs.Fingerprints.{HasRepeated, AreNumbers};

use crate::interner::Interner;
use crate::repeated::is_among;
use cm_class::{Class, Member};
use std::alloc::{AllocError, Global};
use std::collections::BTreeSet;

/// The first duplicate. Only members whose fingerprint is a repeated one are examined, and each of
/// their Utf8s is compared once with the others, however many members name it.
pub(crate) fn first_among_repeated(
    alloc: Global,
    class: &Class,
    members: &[Member],
    fingerprints: &[u64],
    repeated: &[u64],
) -> Result<Option<u16>, AllocError>
    requires few { length members.now < 2 ^ 16 }
    requires order { IsNonDecreasing repeated.now }
    requires of_members { AreNumbers class.now members.now fingerprints.now }
    requires repeats { HasRepeated fingerprints.now repeated.now }
    ensures { IfOk result (λ found. found ≡ first_duplicate class.now members.now) }
{
    let mut interner = Interner::new(alloc, class)?;
    let mut seen = BTreeSet::new(alloc);
    for (place, member) in members.iter().enumerate() {
        if !is_among(repeated, fingerprints[place]) {
            continue;
        }
        let key = interner.key_for(member)?;
        if !seen.insert(key)? {
            return Ok(Some(place as u16));
        }
    }
    Ok(None)
}

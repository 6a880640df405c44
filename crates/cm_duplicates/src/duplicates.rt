//! The first member with the name and the descriptor of one before it.
ghost use Rattle.std.specs.Prelude.{◌≡◌, ◌^◌, ◌<◌, map, length, IfOk};
ghost use Rattle.std.specs.List.Sorted.{IsNonDecreasing};
ghost use Rattle.cm_duplicates.specs.Duplicates.{first_duplicate};
ghost use Rattle.cm_duplicates.specs.Fingerprints.{HasRepeated, member_fingerprint};

use crate::candidates::first_among_repeated;
use crate::fingerprints::{Strength, member_fingerprints};
use crate::meeting::first_where_they_meet;
use crate::pairs::first_by_pairs;
use crate::repeated::find_repeats;
use cm_class::{Class, Member};
use std::alloc::{AllocError, Global};

/// Up to this many members, comparing pair by pair is faster than finding their fingerprints.
const FEW: usize = 32;

fn first_duplicate(
    alloc: Global,
    class: &Class,
    members: &[Member],
) -> Result<Option<u16>, AllocError>
    requires { length members.now < 2 ^ 16 }
    ensures { IfOk result (λ found. found ≡ first_duplicate class.now members.now) }
{
    if members.len() <= FEW {
        return Ok(first_by_pairs(class, members));
    }
    let fingerprints = member_fingerprints(alloc, class, members, Strength::Quick)?;
    let meeting = find_repeats(alloc, &fingerprints)?;
    if meeting.is_empty() {
        return Ok(None);
    }
    // Unless someone chose names with colliding fingerprints, a collision means a duplicate.
    let found = first_where_they_meet(alloc, class, members, &fingerprints, &meeting)?;
    match found {
        Some(place) => Ok(Some(place)),
        None => first_by_strong_fingerprints(alloc, class, members),
    }
}

/// The first duplicate, if quick fingerprints collide, by chance or by choice.
fn first_by_strong_fingerprints(
    alloc: Global,
    class: &Class,
    members: &[Member],
) -> Result<Option<u16>, AllocError>
    requires { length members.now < 2 ^ 16 }
    ensures { IfOk result (λ found. found ≡ first_duplicate class.now members.now) }
{
    let fingerprints = member_fingerprints(alloc, class, members, Strength::Strong)?;
    let repeated = find_repeats(alloc, &fingerprints)?;
    if repeated.is_empty() {
        return Ok(None);
    }
    first_among_repeated(alloc, class, members, &fingerprints, &repeated)
}

/// The first field with the name and the descriptor of one before it (JVMS 4.5); `None` if no two
/// fields have both. The time is near-linear in the size of the class, whatever names it has. `Err`
/// if an allocation failed.
pub fn first_duplicate_field(alloc: Global, class: &Class) -> Result<Option<u16>, AllocError>
    ensures { IfOk result (λ found. found ≡ first_duplicate class.now class.now.fields) }
{
    class.invariant_holds();
    first_duplicate(alloc, class, class.fields())
}

/// The first method with the name and the descriptor of one before it (JVMS 4.6), found in the same
/// way.
pub fn first_duplicate_method(alloc: Global, class: &Class) -> Result<Option<u16>, AllocError>
    ensures { IfOk result (λ found. found ≡ first_duplicate class.now class.now.methods) }
{
    class.invariant_holds();
    first_duplicate(alloc, class, class.methods())
}

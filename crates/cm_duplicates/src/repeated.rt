//! Which numbers occur more than once.
ghost use Rattle.std.specs.Prelude.{◌↔◌, IsTrue, IfOk};
ghost use Rattle.std.specs.List.{Contains};
ghost use Rattle.std.specs.List.Sorted.{IsNonDecreasing};
ghost use Rattle.cm_duplicates.specs.Fingerprints.{HasRepeated, HasRepeatedNeighbours};

use std::alloc::{AllocError, Global};

/// The numbers of a sorted list that are the same as the one before them.
fn repeats_in(alloc: Global, sorted: &[u64]) -> Result<Vec<u64>, AllocError>
    requires { IsNonDecreasing sorted.now }
    ensures all { IfOk result (λ r. HasRepeatedNeighbours sorted.now r.items) }
    ensures order { IfOk result (λ r. IsNonDecreasing r.items) }
{
    let mut repeated = Vec::new(alloc);
    for place in 1..sorted.len() {
        if sorted[place - 1] == sorted[place] {
            repeated.push(sorted[place])?;
        }
    }
    Ok(repeated)
}

/// The numbers that occur more than once, in ascending order.
pub(crate) fn find_repeats(alloc: Global, numbers: &[u64]) -> Result<Vec<u64>, AllocError>
    ensures all { IfOk result (λ r. HasRepeated numbers.now r.items) }
    ensures order { IfOk result (λ r. IsNonDecreasing r.items) }
{
    let mut sorted = numbers.to_vec(alloc)?;
    sorted.sort_unstable();
    repeats_in(alloc, &sorted)
}

/// Whether a number is among those of an ascending list.
pub(crate) fn is_among(numbers: &[u64], number: u64) -> bool
    requires { IsNonDecreasing numbers.now }
    ensures { IsTrue result ↔ Contains numbers.now number }
{
    numbers.binary_search(&number).is_ok()
}

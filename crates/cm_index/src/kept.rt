//! What is kept of a class.

ghost use Rattle.std.specs.Prelude.{◌≡◌, ◌%◌, ◌^◌, ℕ, List, []};
ghost use Rattle.std.specs.Ordering.{nat_cmp};
ghost use Rattle.std.specs.Cmp.Lexicographic.{slice_cmp};
ghost use Rattle.cm_index.specs.Index.{rank};
ghost use Rattle.cm_index.specs.Marks.{mark_of};

use cm_record::fingerprint;
use std::cmp::Ordering;

/// What live rows keep of a class; it gives the class's name.
pub trait Kept: Drop {
    /// The name of the class.
    ghost name: { Self → List ℕ };

    /// The fingerprint of a name and of the loader that has it; or of a loader's own name.
    ghost mark: { ℕ → List ℕ → ℕ };

    /// The order of the names of two classes, by their bytes.
    fn cmp_name(&self, other: &Self) -> Ordering
        ensures { result ≡ slice_cmp nat_cmp (name self.now) (name other.now) };

    /// The order of the name of the class and of these bytes.
    fn cmp_name_to(&self, bytes: &[u8]) -> Ordering
        ensures { result ≡ slice_cmp nat_cmp (name self.now) bytes.now };

    /// The fingerprint of the class's name in this loader.
    fn fingerprint(&self, owner: Option<u64>) -> u32
        ensures { result ≡ mark (rank owner) (name self.now) };

    /// The fingerprint of these bytes as a name of this loader's.
    fn fingerprint_of(owner: Option<u64>, bytes: &[u8]) -> u32
        ensures { result ≡ mark (rank owner) bytes.now };
}

/// The number that fingerprints use for an owner.
pub(crate) fn seed_of(owner: Option<u64>) -> u64
    ensures { result ≡ rank owner % 2 ^ 64 }
{
    match owner {
        None => 0,
        Some(number) => number.wrapping_add(1),
    }
}

/// The fingerprint of a name and of its owner.
#[tactic(auto, unfolding(crate::specs::Marks::mark_of))]
pub fn mark_of(owner: Option<u64>, name: &[u8]) -> u32
    ensures { result ≡ mark_of (rank owner) name.now }
{
    fingerprint(seed_of(owner), name)
}

/// Nothing is kept: all classes have no name.
impl Kept for () {
    ghost name = { λ nothing. [] };

    ghost mark = { mark_of };

    fn cmp_name(&self, _other: &()) -> Ordering {
        Ordering::Equal
    }

    fn cmp_name_to(&self, bytes: &[u8]) -> Ordering {
        if bytes.is_empty() {
            Ordering::Equal
        } else {
            Ordering::Less
        }
    }

    fn fingerprint(&self, owner: Option<u64>) -> u32 {
        mark_of(owner, &[])
    }

    fn fingerprint_of(owner: Option<u64>, bytes: &[u8]) -> u32 {
        mark_of(owner, bytes)
    }
}

//! What is kept of a class while a file is checked.

ghost use Rattle.std.specs.Prelude.{[]};

use cm_rows::Kept;
use std::cmp::Ordering;

/// The slot of the entry that defined a class, counted over both halves, so that a fault in the
/// class's record can be reported there.
#[derive(Clone, Copy, Debug, PartialEq, Eq, Drop)]
pub struct DefinedAt {
    pub slot: u32,
}

/// Classes aren't looked up by name before their records are read: none of them has a name.
impl Kept for DefinedAt {
    ghost name = { λ class. [] };

    ghost mark = { λ owner name. 0 };

    fn cmp_name(&self, _other: &DefinedAt) -> Ordering {
        Ordering::Equal
    }

    fn cmp_name_to(&self, bytes: &[u8]) -> Ordering {
        if bytes.is_empty() {
            Ordering::Equal
        } else {
            Ordering::Less
        }
    }

    fn fingerprint(&self, _owner: Option<u64>) -> u32 {
        0
    }

    fn fingerprint_of(_owner: Option<u64>, _bytes: &[u8]) -> u32 {
        0
    }
}

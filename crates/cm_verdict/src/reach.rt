//! How far a file is read to find its rows.

ghost use Rattle.std.specs.Prelude.{◌≡◌};
ghost use Rattle.cm_pool.specs.Geometry.{Sizes, IsGeometry};
ghost use Rattle.cm_layout.specs.Offsets.{roots_at as roots_at_of};
ghost use Rattle.cm_layout.specs.Superblock.{superblock_bytes};

use cm_layout::{Superblock, roots_at};

/// The bytes of a file before its roots, which say what it holds except for its records, if these
/// are its first 4,096. The result is 0 if these bytes are no superblock.
pub fn bytes_before_roots(beginning: &[u8]) -> u64
    ensures sizes { (sizes : Sizes) → IsGeometry sizes → beginning.now ≡ superblock_bytes sizes
        → result ≡ roots_at_of sizes }
    ensures none { ((sizes : Sizes) → IsGeometry sizes
        → beginning.now ≡ superblock_bytes sizes → ⊥) → result ≡ 0 }
{
    match Superblock::decode(beginning) {
        Some(Superblock { geometry }) => roots_at(geometry),
        None => 0,
    }
}

//! How long a cache's writes are.

ghost use Rattle.std.specs.Prelude.{◌≡◌, max};
ghost use Rattle.cm_pool.specs.Geometry.{Sizes, IsGeometry};
ghost use Rattle.cm_layout.specs.Offsets.{half_size, root_size};
ghost use Rattle.cm_layout.specs.Superblock.{superblock_bytes};

use cm_layout::{Superblock, half_bytes, root_bytes};

/// The most bytes that a cache writes at once, if these are the first 4,096 bytes of its file:
/// those of a root or of a half of the journal. The result is 0 if these bytes are no superblock.
pub fn most_bytes_a_write(beginning: &[u8]) -> u64
    ensures sizes { (sizes : Sizes) → IsGeometry sizes → beginning.now ≡ superblock_bytes sizes
        → result ≡ max (root_size sizes) (half_size sizes) }
    ensures none { ((sizes : Sizes) → IsGeometry sizes
        → beginning.now ≡ superblock_bytes sizes → ⊥) → result ≡ 0 }
{
    match Superblock::decode(beginning) {
        Some(Superblock { geometry }) => root_bytes(geometry).max(half_bytes(geometry)),
        None => 0,
    }
}

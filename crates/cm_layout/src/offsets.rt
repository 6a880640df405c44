//! Where the parts of a region file are.

ghost use Rattle.std.specs.Prelude.{◌≡◌};
ghost use Rattle.cm_layout.specs.Offsets.{half_at as half_at_of, slot_at as slot_at_of};
ghost use Rattle.cm_layout.specs.Offsets.{half_size, roots_at as roots_at_of, root_size};
ghost use Rattle.cm_layout.specs.Offsets.{root_at as root_at_of, record_at as record_at_of};
ghost use Rattle.cm_layout.specs.Rules.{row_limit as row_limit_of};

use crate::half::Half;
use crate::slot::{SLOT_BYTES, SUPERBLOCK_BYTES};
use cm_pool::{Geometry, Place};

/// How many bytes a half of the journal has.
pub fn half_bytes(geometry: Geometry) -> u64
    ensures { result ≡ half_size geometry }
{
    SLOT_BYTES as u64 * u64::from(geometry.slots())
}

/// Where a half of the journal begins, as a byte offset in the file.
pub fn half_at(geometry: Geometry, half: Half) -> u64
    ensures { result ≡ half_at_of geometry half }
{
    match half {
        Half::Zero => SUPERBLOCK_BYTES as u64,
        Half::One => SUPERBLOCK_BYTES as u64 + half_bytes(geometry),
    }
}

/// Where a slot of a half begins, as a byte offset in the file. A half's head is slot 0.
pub fn slot_at(geometry: Geometry, half: Half, slot: u32) -> u64
    ensures { result ≡ slot_at_of geometry half slot }
{
    half_at(geometry, half) + SLOT_BYTES as u64 * u64::from(slot)
}

/// How many slots live rows may take: half of a half's.
pub fn row_limit(geometry: Geometry) -> usize
    ensures { result ≡ row_limit_of geometry }
{
    geometry.slots() as usize / 2
}

/// Where the roots begin, as a byte offset in the file.
pub fn roots_at(geometry: Geometry) -> u64
    ensures { result ≡ roots_at_of geometry }
{
    SUPERBLOCK_BYTES as u64 + 2 * half_bytes(geometry)
}

/// How many bytes a root has.
pub fn root_bytes(geometry: Geometry) -> u64
    ensures { result ≡ root_size geometry }
{
    1024 << geometry.top()
}

/// Where a root begins, as a byte offset in the file.
pub fn root_at(geometry: Geometry, root: u32) -> u64
    ensures { result ≡ root_at_of geometry root }
{
    roots_at(geometry) + u64::from(root) * root_bytes(geometry)
}

/// Where the record at a place begins, as a byte offset in the file.
pub fn record_at(geometry: Geometry, place: Place) -> u64
    ensures { result ≡ record_at_of geometry place }
{
    let words = u64::from(place.chunk.at) + u64::from(place.offset);
    root_at(geometry, place.chunk.root) + 8 * words
}

//! The superblock: what a region file begins with, and which sizes it has.

ghost use Rattle.std.specs.Prelude.{◌≡◌, ◌↔◌, ◌++◌, ◌∷◌, [], List, IfOk, IfSome, IsSomeAnd, IsTrue};
ghost use Rattle.std.specs.List.{All};
ghost use Rattle.cm_pool.specs.Geometry.{Sizes, IsGeometry};
ghost use Rattle.cm_layout.specs.Slots.{open_gate};
ghost use Rattle.cm_layout.specs.Superblock.{superblock_front, superblock_bytes};
ghost use Rattle.cm_layout.specs.Zeros.{blank};
ghost use Rattle.cm_layout.specs.Superblock.{superblock_zeros};

use crate::slot::{OPEN_GATE, SUPERBLOCK_BYTES};
use byteorder::{ByteOrder, LittleEndian};
use cm_pool::Geometry;
use std::alloc::{AllocError, Global};

/// How many bytes a superblock has before its zeros.
pub const FRONT_BYTES: usize = 24;

/// The version of region files.
const VERSION: u32 = 1;

// Where a superblock has its version and its sizes, after its text.
const VERSION_AT: usize = 8;

const TOP_AT: usize = 12;

const ROOTS_AT: usize = 16;

const SLOTS_AT: usize = 20;

/// What the first 4,096 bytes of a region file say: the sizes of the region. Its gate, the last of
/// them, is open.
#[derive(Clone, Copy, Debug, PartialEq, Eq)]
pub struct Superblock {
    /// The sizes of the region.
    pub geometry: Geometry,
}

impl Superblock {
    /// The 4,096 bytes of this superblock.
    pub fn encode(&self, alloc: Global) -> Result<Vec<u8>, AllocError>
        ensures { IfOk result (λ bytes. bytes.items ≡ superblock_bytes self.now.geometry) }
    {
        let mut bytes = Vec::with_capacity(alloc, SUPERBLOCK_BYTES)?;
        bytes.extend_from_slice(&encode_front(self.geometry))?;
        bytes.resize(SUPERBLOCK_BYTES - 1, 0)?;
        bytes.push(OPEN_GATE)?;
        Ok(bytes)
    }

    /// The superblock that these bytes spell, if they spell one: 4,096 bytes, with sizes within
    /// their limits.
    pub fn decode(block: &[u8]) -> Option<Superblock>
        ensures found { IfSome result (λ s. block.now ≡ superblock_bytes s.geometry) }
        ensures only { (sizes : Sizes) → IsGeometry sizes → block.now ≡ superblock_bytes sizes
            → IsSomeAnd result (λ s. s.geometry ≡ sizes) }
    {
        let (front, rest) = block.split_first_chunk::<FRONT_BYTES>()?;
        let geometry = sizes_at_their_places(front)?;
        if is_front(front, geometry) && is_closing(rest) {
            Some(Superblock { geometry })
        } else {
            None
        }
    }
}

// The sizes found in a superblock, if they are within their limits. Only encoding it again shows
// whether it is one.
fn sizes_at_their_places(front: &[u8; FRONT_BYTES]) -> Option<Geometry>
    ensures { (sizes : Sizes) → IsGeometry sizes → front.now ≡ superblock_front sizes
        → IsSomeAnd result (λ g. g ≡ sizes) }
{
    Geometry::new(
        LittleEndian::read_u32(&front[TOP_AT..]),
        LittleEndian::read_u32(&front[ROOTS_AT..]),
        LittleEndian::read_u32(&front[SLOTS_AT..]),
    )
}

// Whether the bytes are those in front of a superblock's zeros.
fn is_front(front: &[u8; FRONT_BYTES], geometry: Geometry) -> bool
    ensures { IsTrue result ↔ (front.now ≡ superblock_front geometry) }
{
    front.as_slice() == encode_front(geometry).as_slice()
}

// Whether the bytes after a superblock's sizes are zeros and an open gate.
fn is_closing(rest: &[u8]) -> bool
    ensures { IsTrue result ↔ (rest.now ≡ blank superblock_zeros ++ open_gate ∷ []) }
{
    match rest.split_last() {
        Some((gate, zeros)) => *gate == OPEN_GATE && are_zeros(zeros),
        None => false,
    }
}

// Whether the bytes are the zeros of a superblock.
fn are_zeros(bytes: &[u8]) -> bool
    ensures { IsTrue result ↔ (bytes.now ≡ blank superblock_zeros) }
{
    bytes.len() == SUPERBLOCK_BYTES - 1 - FRONT_BYTES && is_each_zero(bytes)
}

// Whether each of the bytes is 00.
fn is_each_zero(bytes: &[u8]) -> bool
    ensures { IsTrue result ↔ All (λ b. b ≡ 0) bytes.now }
{
    bytes.iter().all(|b| *b == 0)
}

/// The bytes of a superblock in front of its zeros.
fn encode_front(geometry: Geometry) -> [u8; FRONT_BYTES]
    ensures { result ≡ superblock_front geometry }
{
    let mut front = [0; FRONT_BYTES];
    front[..VERSION_AT].copy_from_slice(b"CMCACHE1");
    LittleEndian::write_u32(&mut front[VERSION_AT..], VERSION);
    LittleEndian::write_u32(&mut front[TOP_AT..], geometry.top());
    LittleEndian::write_u32(&mut front[ROOTS_AT..], geometry.roots());
    LittleEndian::write_u32(&mut front[SLOTS_AT..], geometry.slots());
    front
}

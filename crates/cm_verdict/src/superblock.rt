//! The sizes that a file has.

ghost use Rattle.std.specs.Prelude.{◌≡◌, ◌≤◌, length, take};
ghost use Rattle.std.specs.Str.{bytes_eq};
ghost use Rattle.cm_layout.specs.Offsets.{superblock_size};
ghost use Rattle.cm_layout.specs.Superblock.{magic};
ghost use Rattle.cm_verdict.specs.Decoding.{sizes_in as sizes_spelled};
ghost use Rattle.cm_verdict.specs.Found.{is_cache as is_cache_of, sizes_found as sizes_found_in};

use crate::fault::{Damage, FileFault};
use cm_layout::{OPEN_GATE, SUPERBLOCK_BYTES, Superblock, roots_at};
use cm_pool::Geometry;

/// What a superblock begins with.
const MAGIC: [u8; 8] = *b"CMCACHE1";

fn has_magic(block: &[u8]) -> bool
    requires { 8 ≤ length block.now }
    ensures { result ≡ bytes_eq (take 8 block.now) magic }
{
    let front = &block[..8];
    front == MAGIC.as_slice()
}

/// Whether a file of this length that begins with this block is a cache at all: it has room for a
/// superblock, the block begins as one, and its gate is open.
fn is_cache(long: u64, block: &[u8]) -> bool
    requires { length block.now ≡ superblock_size }
    ensures { result ≡ is_cache_of long block.now }
{
    long >= SUPERBLOCK_BYTES as u64 && has_magic(block) && block[SUPERBLOCK_BYTES - 1] == OPEN_GATE
}

/// The sizes that a superblock spells, if it spells any.
fn sizes_in(block: &[u8]) -> Option<Geometry>
    ensures { result ≡ sizes_spelled block.now }
{
    let superblock = Superblock::decode(block)?;
    let geometry = superblock.geometry;
    geometry.invariant_holds();
    Some(geometry)
}

/// The sizes of a file of this length that begins with this block.
pub fn find_sizes(long: u64, block: &[u8]) -> Result<Geometry, FileFault>
    requires { length block.now ≡ superblock_size }
    ensures { result ≡ sizes_found_in long block.now }
{
    if !is_cache(long, block) {
        return Err(FileFault::NotACache);
    }
    let Some(geometry) = sizes_in(block) else {
        return Err(FileFault::Damaged {
            what: Damage::Superblock,
            slot: 0,
        });
    };
    if long < roots_at(geometry) {
        return Err(FileFault::Damaged {
            what: Damage::Length,
            slot: 0,
        });
    }
    Ok(geometry)
}

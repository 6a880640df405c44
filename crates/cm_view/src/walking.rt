//! Finds the rows in a file's bytes.
ghost use Rattle.std.specs.Prelude.{◌≡◌, ◌≤◌, ◌*◌, length, drop, IfOk};
ghost use Rattle.cm_layout.specs.Offsets.{half_at as half_at_of, half_size};
ghost use Rattle.cm_layout.specs.Offsets.{roots_at as roots_at_of};
ghost use Rattle.cm_verdict.specs.Found.{found_in};
ghost use Rattle.cm_verdict.specs.Opening.{IsAnswer};
ghost use Rattle.cm_view.specs.Walking.{found_of, found_after_sizes};

use cm_layout::{Half, SUPERBLOCK_BYTES, front_slot, half_at, half_bytes};
use cm_pool::Geometry;
use cm_rows::LiveRows;
use cm_verdict::{
    Counting, FileFault, HalfWalk, OpenFault, counting_half, find_sizes, walk_through,
};
use std::alloc::Global;

/// What is found in a file's bytes without its records.
#[derive(Drop)]
pub struct WalkedFile {
    pub geometry: Geometry,
    /// The half that counts.
    pub counts: Counting,
    pub walk: HalfWalk,
}

// The bytes from a half of the journal on.
fn half_from(bytes: &[u8], geometry: Geometry, half: Half) -> &[u8]
    requires { roots_at_of geometry ≤ length bytes.now }
    ensures value { result.now ≡ drop (half_at_of geometry half) bytes.now }
    ensures long { half_size geometry ≤ length result.now }
{
    bytes.split_at(half_at(geometry, half) as usize).1
}

// Walks through the half that counts.
fn walk_halves(alloc: Global, geometry: Geometry, bytes: &[u8]) -> Result<WalkedFile, OpenFault>
    requires { roots_at_of geometry ≤ length bytes.now }
    ensures { IsAnswer found_of result (found_after_sizes bytes.now geometry) }
{
    geometry.invariant_holds();
    let zero = front_slot(half_from(bytes, geometry, Half::Zero));
    let one = front_slot(half_from(bytes, geometry, Half::One));
    let counts = counting_half(geometry, zero, one)?;
    let rest = half_from(bytes, geometry, counts.half);
    let half = rest.split_at(half_bytes(geometry) as usize).0;
    let book = LiveRows::new(alloc, geometry)?;
    let walk = walk_through(geometry, book, &counts, half)?;
    Ok(WalkedFile {
        geometry,
        counts,
        walk,
    })
}

/// Finds what a file's bytes hold except for its records: its sizes, the half that counts, and what
/// is live by the entries of that half, up to its first gate that isn't open. Of the other half
/// only the head is looked at.
pub fn walk_bytes(alloc: Global, bytes: &[u8]) -> Result<WalkedFile, OpenFault>
    ensures { IsAnswer found_of result (found_in bytes.now) }
{
    if bytes.len() < SUPERBLOCK_BYTES {
        return Err(OpenFault::File(FileFault::NotACache));
    }
    let geometry = find_sizes(bytes.len() as u64, bytes.split_at(SUPERBLOCK_BYTES).0)?;
    walk_halves(alloc, geometry, bytes)
}

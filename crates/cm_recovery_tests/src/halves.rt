//! The front of a file, up to its roots, and what is found in it: one loader with two classes, each
//! in a group of its own.

ghost use Rattle.std.specs.Prelude.{◌≡◌, ◌*◌, IfOk, IfSome, length};
ghost use Rattle.cm_layout.specs.Frames.{IsGoodHead};

use crate::file_samples::push_halves;
use crate::found::{Summary, tell_half};
use cm_layout::{Half, SLOT_BYTES, SUPERBLOCK_BYTES, Superblock};
use cm_pool::Geometry;
use cm_rows::LiveRows;
use cm_samples::least_geometry;
use cm_verdict::{Counting, FileFault, counting_half, find_sizes, walk_through};
use std::alloc::Global;
use std::test::Fail;

pub type Told = Result<Summary, FileFault>;

/// A file's superblock and halves.
pub fn small_front(alloc: Global) -> Result<Vec<u8>, Fail> {
    let geometry = least_geometry();
    let mut bytes = Superblock { geometry }.encode(alloc)?;
    push_halves(&mut bytes, 16, 20)?;
    Ok(bytes)
}

// The sizes that a file begins with.
fn sizes(alloc: Global, front: &[u8]) -> Result<Result<Geometry, FileFault>, Fail> {
    let block = front.get(..SUPERBLOCK_BYTES).unwrap_or(front);
    let mut filled = Vec::new(alloc);
    filled.extend_from_slice(block)?;
    filled.resize(SUPERBLOCK_BYTES, 0)?;
    Ok(find_sizes(front.len() as u64, &filled))
}

// What the groups of a half contain.
fn walk_half(
    alloc: Global,
    geometry: Geometry,
    counts: &Counting,
    half: &[u8],
) -> Result<Told, Fail>
    requires good { IsGoodHead geometry counts.now.head }
    requires long { length half.now ≡ 64 * geometry.slots }
{
    let book = LiveRows::new(alloc, geometry)?;
    match walk_through(geometry, book, counts, half) {
        Ok(walk) => Ok(Ok(tell_half(walk))),
        Err(fault) => Ok(Err(fault)),
    }
}

// The halves of a front, which have this many bytes each.
fn both_halves(front: &[u8], size: usize) -> Option<(&[u8], &[u8])>
    ensures zero { IfSome result (λ halves. length halves.0.now ≡ size) }
    ensures one { IfSome result (λ halves. length halves.1.now ≡ size) }
{
    let halves = front.get(SUPERBLOCK_BYTES..)?;
    let zero = halves.get(..size)?;
    let one = halves.get(size..2 * size)?;
    Some((zero, one))
}

// What the heads of two halves say.
fn count(geometry: Geometry, zero: &[u8], one: &[u8]) -> Option<Result<Counting, FileFault>>
    ensures good { IfSome result (λ answer.
        IfOk answer (λ counts. IsGoodHead geometry counts.head)) }
{
    let head_0 = zero.first_chunk::<SLOT_BYTES>()?;
    let head_1 = one.first_chunk::<SLOT_BYTES>()?;
    Some(counting_half(geometry, head_0, head_1))
}

// What is found in a front of these sizes.
fn find_counted(alloc: Global, geometry: Geometry, front: &[u8]) -> Result<Told, Fail> {
    let size = SLOT_BYTES * geometry.slots() as usize;
    let (zero, one) = both_halves(front, size).ok_or("two halves")?;
    match count(geometry, zero, one).ok_or("two heads")? {
        Ok(counts) => {
            let half = match counts.half {
                Half::Zero => zero,
                Half::One => one,
            };
            walk_half(alloc, geometry, &counts, half)
        }
        Err(fault) => Ok(Err(fault)),
    }
}

/// What is found in the front of a file, up to its roots.
pub fn find_half(alloc: Global, front: &[u8]) -> Result<Told, Fail> {
    match sizes(alloc, front)? {
        Ok(geometry) => find_counted(alloc, geometry, front),
        Err(fault) => Ok(Err(fault)),
    }
}

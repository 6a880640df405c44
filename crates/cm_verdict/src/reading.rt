//! Reads what a file holds except for its records.

ghost use Rattle.cm_layout.specs.Frames.{entry_version};
ghost use Rattle.std.specs.Prelude.{◌≡◌, ◌≤◌, ◌+◌, ◌*◌, ◌⊎◌, ◌==◌, length, take, get_or, Err};
ghost use Rattle.std.specs.Prelude.{IfOk, IfErr, nat_lt};
ghost use Rattle.cm_guards.specs.Calls.{Reads};
ghost use Rattle.cm_layout.specs.Framing.{part, other_half};
ghost use Rattle.cm_layout.specs.Slots.{open_gate};
ghost use Rattle.cm_verdict.specs.Found.{Found, sizes_found as sizes_found_in, found_in};
ghost use Rattle.cm_verdict.specs.declared.fault.OpenFault.TheVariants as open_fault;
ghost use Rattle.cm_verdict.specs.Opening.{IsAnswer, found_in_halves, found_of, half_of};
ghost use Rattle.cm_verdict.specs.Opening.{other_is_open};

use crate::counting::{Counting, counting_half};
use crate::fault::{FileFault, OpenFault};
use crate::superblock::find_sizes;
use crate::walk::{HalfWalk, walk_through};
use cm_disk::Disk;
use cm_layout::{
    ENTRY_VERSION, Half, OPEN_GATE, SLOT_BYTES, SUPERBLOCK_BYTES, front_slot, half_at,
};
use cm_pool::Geometry;
use cm_rows::LiveRows;
use std::alloc::Global;

/// What is found in a file without its records: its sizes, the half that counts, and what is live
/// by the entries of that half.
#[derive(Drop)]
pub struct FoundFile {
    pub geometry: Geometry,
    pub counts: Counting,
    /// Whether the gate of the other half is open.
    pub other_open: bool,
    pub walk: HalfWalk,
}

// Reads `count` bytes.
#[tactic(auto, using(cm_guards::proofs::reading))]
fn read_part<D: Disk>(
    alloc: Global,
    disk: &mut D,
    at: u64,
    count: usize,
) -> Result<Vec<u8>, OpenFault>
    requires { at + count ≤ length (D.view.contents disk.old) }
    ensures bytes { IfOk result (λ bytes. bytes.items ≡ part at count (D.view.contents disk.old)) }
    ensures faults { IfErr result (λ e. (e ≡ open_fault.Device) ⊎ (e ≡ open_fault.NoMemory)) }
    ensures reads { Reads D.view disk.old disk.new
        (result ≡ Err open_fault.Device) }
{
    let mut bytes = Vec::from_elem(alloc, 0, count)?;
    disk.read(at, &mut bytes)?;
    Ok(bytes)
}

// Reads the superblock: the file's sizes.
#[tactic(auto, using(cm_guards::proofs::reading))]
fn read_sizes<D: Disk>(alloc: Global, disk: &mut D) -> Result<Geometry, OpenFault>
    ensures sizes { IsAnswer (λ g. g) result
        (sizes_found_in (length (D.view.contents disk.old))
        (take 4096 (D.view.contents disk.old))) }
    ensures reads { Reads D.view disk.old disk.new
        (result ≡ Err open_fault.Device) }
{
    let long = disk.len()?;
    if long < SUPERBLOCK_BYTES as u64 {
        return Err(OpenFault::File(FileFault::NotACache));
    }
    let block = read_part(alloc, disk, 0, SUPERBLOCK_BYTES)?;
    let geometry = find_sizes(long, &block)?;
    Ok(geometry)
}

// Whether the gate of the other half is open.
fn is_other_open(half: Half, zero: &[u8], one: &[u8]) -> bool
    requires zero { 1 ≤ length zero.now }
    requires one { 1 ≤ length one.now }
    ensures { result ≡ (get_or (half_of (other_half half) zero.now one.now) 0 0 == open_gate) }
{
    let other = match half {
        Half::Zero => one,
        Half::One => zero,
    };
    other[0] == OPEN_GATE
}

// Walks through the half that counts.
fn walk_halves(
    alloc: Global,
    geometry: Geometry,
    zero: &[u8],
    one: &[u8],
) -> Result<FoundFile, OpenFault>
    requires long_0 { length zero.now ≡ 64 * geometry.slots }
    requires long_1 { length one.now ≡ 64 * geometry.slots }
    ensures found { IsAnswer found_of result (found_in_halves geometry zero.now one.now) }
    ensures sizes { IfOk result (λ f. f.geometry ≡ geometry) }
    ensures other { IfOk result (λ f. f.other_open
        ≡ (get_or (half_of (other_half f.counts.half) zero.now one.now) 0 0 == open_gate)) }
    ensures in_memory { result ≡ Err open_fault.Device → ⊥ }
{
    geometry.invariant_holds();
    let counts = counting_half(geometry, front_slot(zero), front_slot(one))?;
    let half = match counts.half {
        Half::Zero => zero,
        Half::One => one,
    };
    let other_open = is_other_open(counts.half, zero, one);
    let book = LiveRows::new(alloc, geometry)?;
    let walk = walk_through(geometry, book, &counts, half)?;
    Ok(FoundFile {
        geometry,
        counts,
        other_open,
        walk,
    })
}

/// Reads what a file holds except for its records, or its first damage: first the superblock, then
/// both halves, whose bytes are dropped again. It only reads.
///
/// `NotACache` or `Damaged` is the first fault of the contents. `Device` if the device failed and
/// `NoMemory` if an allocation failed; these say nothing about the contents.
pub fn read_found<D: Disk>(alloc: Global, disk: &mut D) -> Result<FoundFile, OpenFault>
    ensures found { IsAnswer found_of result (found_in (D.view.contents disk.old)) }
    ensures other { IfOk result (λ f. f.other_open
        ≡ other_is_open f.geometry f.counts.half (D.view.contents disk.old)) }
    ensures reads { Reads D.view disk.old disk.new
        (result ≡ Err open_fault.Device) }
{
    let geometry = read_sizes(alloc, disk)?;
    let size = SLOT_BYTES * geometry.slots() as usize;
    let zero = read_part(alloc, disk, half_at(geometry, Half::Zero), size)?;
    let one = read_part(alloc, disk, half_at(geometry, Half::One), size)?;
    walk_halves(alloc, geometry, &zero, &one)
}

/// Whether the half that counts is of version 1, so that opening the file upgrades it. It only
/// reads, as [`read_found`] does, and fails as that does.
pub fn is_older<D: Disk>(alloc: Global, disk: &mut D) -> Result<bool, OpenFault>
    ensures older { IfOk result (λ b. (f : Found) → found_in (D.view.contents disk.old) ≡ Ok f
        → b ≡ nat_lt f.head.version entry_version) }
    ensures reads { Reads D.view disk.old disk.new
        (result ≡ Err open_fault.Device) }
{
    let found = read_found(alloc, disk)?;
    Ok(found.counts.head.version < ENTRY_VERSION)
}

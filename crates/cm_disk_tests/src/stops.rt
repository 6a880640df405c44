//! Stops at each device call, with in-memory disks.
ghost use Rattle.std.specs.Prelude.{◌≡◌, List, ℕ, [], IfOk, OnOk, length, false};
ghost use Rattle.cm_disk.specs.Disk.{IsDurable};
ghost use Rattle.cm_disk.specs.Sim.{sim_contents, sim_unsynced};

use crate::reading::{count_open, read_both};
use crate::trimming::trim;
use crate::turning::{Guarded, turn};
use cm_disk::{Choice, DeviceFault, Disk, FuseDisk, SimDisk};
use cm_guards::Claim;
use std::alloc::Global;
use std::test::Fail;

/// Holds for all contents, and guards nothing.
struct Anything;

impl Claim for Anything {
    ghost holds = { λ _. Unit {0} };
}

impl Guarded for Anything {
    ghost guard = { record { is_guarded = λ _. false; needs = 0 } };
}

/// Stores four bytes of 0 at the start.
fn store_zeros(disk: &mut SimDisk) -> Result<(), DeviceFault>
    requires empty { sim_contents disk.old ≡ [] }
    ensures size { OnOk result (length (sim_contents disk.new) ≡ 4) }
    ensures durable { OnOk result (IsDurable (sim_contents disk.new) (sim_unsynced disk.new)) }
{
    disk.write_at(0, &[0; 4])?;
    disk.sync()
}

/// Four bytes of 0, all durable.
fn zeros(alloc: Global) -> Result<SimDisk, Fail>
    ensures size { IfOk result (λ disk. length (sim_contents disk) ≡ 4) }
    ensures durable { IfOk result (λ disk. IsDurable (sim_contents disk) (sim_unsynced disk)) }
{
    let mut disk = SimDisk::new(alloc);
    store_zeros(&mut disk)?;
    Ok(disk)
}

/// Lets this many calls through; returns whether the gate was opened, and the disk.
fn stop_after(alloc: Global, pass: u64) -> Result<(bool, SimDisk), Fail> {
    let mut fuse = FuseDisk::new(zeros(alloc)?, pass, 2);
    let done = turn::<FuseDisk, Anything, Anything>(&mut fuse, 1, b"xyz", 0).is_ok();
    Ok((done, fuse.into_inner()))
}

/// The bytes that a crash leaves.
fn read_left(alloc: Global, disk: SimDisk, fill: &[u8]) -> Result<[u8; 4], Fail> {
    let choice = Choice {
        len: 4,
        fill: Vec::from_slice(alloc, fill)?,
    };
    let mut disk = disk.crash(alloc, &choice)?;
    let mut bytes = [0; 4];
    if disk.len()? == 4 {
        disk.read(0, &mut bytes)?;
    }
    Ok(bytes)
}

/// What a crash leaves after this many calls were let through, for a given fill.
const LEFT: [(u64, &[u8], &[u8; 4]); 8] = [
    (0, b"", b"\0xy\0"),
    (0, b"123", b"\x00123"),
    (1, b"", b"\0xyz"),
    (1, b"1", b"\x001yz"),
    (2, b"", b"\xA5xyz"),
    (2, b"\0", b"\0xyz"),
    (3, b"7", b"7xyz"),
    (4, b"123", b"\xA5xyz"),
];

#[test]
fn the_gate_opens_behind_its_record(rt: HostRuntime) -> Result<(), Fail> {
    let alloc = rt.alloc();
    for (pass, fill, expected) in &LEFT {
        let (done, disk) = stop_after(alloc, *pass)?;
        assert_eq!(rt; done, *pass == 4);
        let bytes = read_left(alloc, disk, fill)?;
        assert_eq!(rt; bytes.as_slice(), expected.as_slice());
    }
    Ok(())
}

/// Of a disk that was cut to three bytes: the two in the middle, and the first.
fn read_three(disk: &mut SimDisk) -> Result<([u8; 2], [u8; 1]), DeviceFault> {
    let mut first = [1; 2];
    let mut second = [1; 1];
    if disk.len()? == 3 {
        read_both(disk, 1, &mut first, 0, &mut second)?;
    }
    Ok((first, second))
}

#[test]
fn reads_and_trims(rt: HostRuntime) -> Result<(), Fail> {
    let mut disk = zeros(rt.alloc())?;
    trim::<SimDisk, Anything>(&mut disk, 3)?;
    assert_eq!(rt; read_three(&mut disk)?, ([0; 2], [0; 1]));
    assert_eq!(rt; count_open(&mut disk, 0)?, 0);
    assert_eq!(rt; disk.syncs(), 2);
    Ok(())
}

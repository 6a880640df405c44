//! A file that is made and opened if an allocation may fail.

use crate::fronts::add_loader;
use cm_commit::Committer;
use cm_disk::{Disk, SimDisk};
use cm_front::Front;
use cm_pool::Geometry;
use cm_recover::{FormatFault, NotOpened, format, open};
use cm_samples::small_geometry;
use cm_verdict::OpenFault;
use std::alloc::Global;
use std::test::Fail;

/// Whether this is why no file was made, if an allocation failed: an allocation of the disk is a
/// failure of the device, and any other leaves the disk empty.
fn is_cause(fault: FormatFault, disk: &mut SimDisk) -> bool {
    match fault {
        FormatFault::Device => disk.was_refused(),
        FormatFault::NoMemory => disk.len() == Ok(0),
        FormatFault::NotEmpty => false,
    }
}

/// Makes a file, and once more on another disk if an allocation failed.
fn make(alloc: Global, geometry: Geometry) -> Result<SimDisk, Fail> {
    let mut disk = SimDisk::new(alloc);
    match format(alloc, &mut disk, geometry) {
        Ok(()) => return Ok(disk),
        Err(fault) if is_cause(fault, &mut disk) => {}
        Err(_) => return Err("no allocation failed".into()),
    }
    let mut other = SimDisk::new(alloc);
    if format(alloc, &mut other, geometry).is_err() {
        return Err("there is memory".into());
    }
    Ok(other)
}

type Opened = (Front, Committer<SimDisk>);

/// Opens a file, and once more if an allocation failed.
fn open_again(alloc: Global, disk: SimDisk) -> Result<Opened, NotOpened<SimDisk>> {
    match open(alloc, disk) {
        Err(
            NotOpened {
                fault: OpenFault::NoMemory,
                disk,
            },
        ) => open(alloc, disk),
        answer => answer,
    }
}

/// The number of the last command, and then the result of adding a loader.
fn add_to(opened: Opened) -> Option<(u64, u64)> {
    let (mut front, committer) = opened;
    let number = committer.number();
    let _disk = committer.into_disk();
    Some((number, add_loader(&mut front, b"a").ok()?))
}

fn add_to_file(alloc: Global, disk: SimDisk) -> Result<Option<(u64, u64)>, Fail> {
    match open_again(alloc, disk) {
        Ok(opened) => Ok(add_to(opened)),
        Err(
            NotOpened {
                fault: _,
                disk: _disk,
            },
        ) => Err("the file holds a cache".into()),
    }
}

#[test]
fn a_file_is_made_and_opened_after_a_refusal(rt: HostRuntime) -> Result<(), Fail> {
    let disk = make(rt.alloc(), small_geometry())?;
    assert_eq!(rt; add_to_file(rt.alloc(), disk)?, Some((0, 1)));
    Ok(())
}

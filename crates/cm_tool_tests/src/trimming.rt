//! Files that are truncated after the last root that is in use.

use crate::disks::{new_disk, replies};
use crate::maintenance_disks::{Verb, cache_after, status_of, tell, tell_to_end};
use crate::scripts::expand;
use cm_disk::{Disk, FuseDisk, SimDisk};
use cm_maintenance::Status;
use std::alloc::Global;
use std::test::*;

/// Whether a trim of a disk reports this line, how long the file then is, and whether a second trim
/// reports the same.
fn trim_twice(alloc: Global, disk: SimDisk, line: &[u8]) -> Result<(bool, u64, bool), Fail> {
    let (status, is_told, mut disk) = status_of(alloc, Verb::Trim, disk, line)?;
    let Ok(len) = disk.len() else {
        return Err("the disk doesn't fail".into());
    };
    let (again, is_told_again, _disk) = status_of(alloc, Verb::Trim, disk, line)?;
    let is_same = again == Status::Done && is_told_again;
    Ok((status == Status::Done && is_told, len, is_same))
}

/// A script, what a trim of the cache after it reports, and how long the file then is: its halves
/// end at 36,864, and each root has 8,192 bytes.
const CASES: [(&[u8], &[u8], u64); 4] = [
    (b"", b"roots 0\n", 36_864),
    (b"loader a\ndefine a <0141>\n", b"roots 1\n", 45_056),
    (
        b"loader a\ndefine a <0141>\nunload a\n",
        b"roots 0\n",
        36_864,
    ),
    (
        b"loader a\ndefine a <0141>\nunload a\nloader b\ndefine b <0141>\n",
        b"roots 1\n",
        45_056,
    ),
];

#[test]
fn a_trim_tells_how_many_roots_are_left(rt: HostRuntime) -> Result<(), Fail> {
    let alloc = rt.alloc();
    for (script, line, len) in &CASES {
        let trimmed = trim_twice(alloc, cache_after(alloc, script)?, line)?;
        assert_eq!(rt; trimmed, (true, *len, true));
    }
    Ok(())
}

/// How long a disk is after a script, and the disk.
fn length_after(alloc: Global, script: &[u8], disk: SimDisk) -> Result<(u64, SimDisk), Fail> {
    let (_replies, _outcome, mut disk) = replies(alloc, script, disk);
    match disk.len() {
        Ok(len) => Ok((len, disk)),
        Err(_) => Err("the disk doesn't fail".into()),
    }
}

/// How long a file of the default sizes is when it is new, with a class, and once its loader is
/// unloaded; and the result of a trim then.
fn usual_lengths(alloc: Global) -> Result<([u64; 3], (bool, u64, bool)), Fail> {
    let (new, disk) = length_after(alloc, b"", new_disk(alloc)?)?;
    let script = expand(alloc, b"loader app\ndefine app @\n")?;
    let (defined, disk) = length_after(alloc, &script, disk)?;
    let (unloaded, disk) = length_after(alloc, b"unload app\n", disk)?;
    let trimmed = trim_twice(alloc, disk, b"roots 0\n")?;
    Ok(([new, defined, unloaded], trimmed))
}

#[test]
fn a_file_of_the_usual_sizes_gives_its_root_back(rt: HostRuntime) -> Result<(), Fail> {
    let (lengths, trimmed) = usual_lengths(rt.alloc())?;
    assert_eq!(rt; lengths, [528_384, 790_528, 790_528]);
    assert_eq!(rt; trimmed, (true, 528_384, true));
    Ok(())
}

/// The status of a trim if the device fails after this many calls, whether it reports that or its
/// line, and whether the file is then sound.
fn trim_behind(alloc: Global, pass: u64) -> Result<(Status, bool, bool), Fail> {
    let disk = cache_after(alloc, b"loader app\ndefine app <0141>\nunload app\n")?;
    let fuse = FuseDisk::new(disk, pass, 0);
    let (status, is_told, fuse) = status_of(alloc, Verb::Trim, fuse, b"roots 0\n")?;
    let mut disk = fuse.into_inner();
    disk.disarm();
    let mut told = Vec::new(alloc);
    let (checked, _disk) = tell_to_end(tell(alloc, Verb::Check, &mut told, disk))?;
    let is_sound = told.as_slice() == b"ok loaders 0 classes 0 chunks 0 number 3\n".as_slice();
    Ok((status, is_told, checked == Status::Done && is_sound))
}

/// The device fails at one call after another, until all succeed.
#[test]
fn a_trim_on_a_failing_device_leaves_the_cache(rt: HostRuntime) -> Result<(), Fail> {
    for pass in 0..100 {
        let (status, is_told, is_sound) = trim_behind(rt.alloc(), pass)?;
        assert!(rt; is_told && is_sound, "{pass} calls");
        if status == Status::Done {
            assert!(rt; pass > 2);
            return Ok(());
        }
        assert_eq!(rt; status, Status::Failed);
    }
    Err("no run met no failure".into())
}

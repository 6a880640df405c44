//! Imports in which the device fails, or that a crash ends.

use crate::groups::Told;
use crate::imports::{import_groups, new_disk};
use cm_disk::{Choice, FuseDisk, SimDisk};
use cm_importing::ImportFault;
use cm_verdict::OpenFault;
use std::test::*;
use std::thread::Threads;

/// The classes that are imported, in three groups.
const NAMES: [&[u8]; 3] = [b"AB", b"C", b"DE"];

/// How many classes these are.
const COUNT: u64 = 5;

/// More device calls than the import takes.
const MOST: u64 = 100;

/// What a run of an import came to.
#[derive(Clone, Copy, Debug, PartialEq, Eq)]
struct Run {
    result: Result<u64, ImportFault>,
    told: Told,
}

/// Imports all classes, with a device that fails after this many calls.
fn run_with_fuse<R: Threads + Sync + AllocGlobal>(
    rt: &R,
    calls: u64,
) -> Result<(Run, SimDisk), Fail> {
    let disk = FuseDisk::new(new_disk(rt.alloc())?, calls, 0);
    let (result, told, disk) = import_groups(rt, &NAMES, disk)?;
    Ok((Run { result, told }, disk.into_inner()))
}

/// Imports all classes, with a device that works.
fn run_again<R: Threads + Sync + AllocGlobal>(rt: &R, disk: SimDisk) -> Result<Run, Fail> {
    let (result, told, _disk) = import_groups(rt, &NAMES, disk)?;
    Ok(Run { result, told })
}

/// Whether a run ended early, and the next one finds what the first was told as stored, and
/// imports what isn't there.
fn is_continued(first: &Run, next: &Run) -> bool {
    let Told {
        stored,
        there,
        changed,
        refused,
    } = next.told;
    next.result == Ok(COUNT + 1)
        && first.told.stored <= there
        && changed == 0
        && refused == 0
        && there.checked_add(stored) == Some(COUNT)
}

/// A device that fails after this many calls: whether the import is done, and whether the next run
/// completes what the first one began.
fn fails_after<R: Threads + Sync + AllocGlobal>(rt: &R, calls: u64) -> Result<(bool, bool), Fail> {
    let (first, disk) = run_with_fuse(rt, calls)?;
    let next = run_again(rt, disk)?;
    let is_named = match first.result {
        Ok(number) => number == COUNT + 1 && first.told.stored == COUNT,
        Err(ImportFault::Open(fault)) => fault == OpenFault::Device && first.told.stored == 0,
        Err(fault) => fault == ImportFault::Device,
    };
    Ok((
        first.result.is_ok(),
        is_named && is_continued(&first, &next),
    ))
}

#[test]
fn the_next_run_completes_one_in_which_the_device_failed(rt: HostRuntime) -> Result<(), Fail> {
    for calls in 0..MOST {
        let (is_done, is_continued) = fails_after(&rt, calls)?;
        assert!(rt; is_continued, "{calls} calls");
        if is_done {
            return Ok(());
        }
    }
    Err("each run met a failure".into())
}

/// The same, if a crash follows, of which the first bytes that aren't synced are these, and the
/// others as they were written.
fn crashes_after<R: Threads + Sync + AllocGlobal>(
    rt: &R,
    calls: u64,
    fill: &[u8],
) -> Result<(bool, bool), Fail> {
    let (first, disk) = run_with_fuse(rt, calls)?;
    let choice = Choice {
        len: 1 << 20,
        fill: Vec::from_slice(rt.alloc(), fill)?,
    };
    let next = run_again(rt, disk.crash(rt.alloc(), &choice)?)?;
    Ok((first.result.is_ok(), is_continued(&first, &next)))
}

/// Whether the next run completes each run that a crash ended.
fn complete_after_crashes<R: Threads + Sync + AllocGlobal>(
    rt: &R,
    fill: &[u8],
) -> Result<bool, Fail> {
    for calls in 0..MOST {
        let (is_done, is_continued) = crashes_after(rt, calls, fill)?;
        if is_done || !is_continued {
            return Ok(is_continued);
        }
    }
    Err("each run met a failure".into())
}

#[test]
fn the_next_run_completes_one_that_a_crash_ended(rt: HostRuntime) -> Result<(), Fail> {
    assert!(rt; complete_after_crashes(&rt, b"")?);
    assert!(rt; complete_after_crashes(&rt, b"\0")?);
    assert!(rt; complete_after_crashes(&rt, &[0; 64])?);
    Ok(())
}

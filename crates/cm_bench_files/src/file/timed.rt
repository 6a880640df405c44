//! The calls that are measured, with the time they took in nanoseconds.

use crate::command::Putting;
use crate::file::counted::Counts;
use crate::file::put::{Stored, close, make_cache, open_session, prepare_all, store_all};
use crate::file::read::{Asked, find_all};
use anyhow::Result;
use cm_commands::Prepared;
use cm_disk::Disk;
use cm_file_disk::FileDisk;
use cm_front::Front;
use cm_session::Session;
use std::fs::{File, Files};
use std::rt::Clock;
use std::time::Instant;

/// Prepares classes.
pub fn prepare_timed(
    rt: &(impl Clock + AllocGlobal),
    classes: &[&[u8]],
) -> Result<(Vec<Prepared>, u128)> {
    let start = Instant::now(rt)?;
    let prepared = prepare_all(rt.alloc(), classes)?;
    Ok((prepared, start.elapsed(rt)?.as_nanos()))
}

/// Stores classes.
fn store_timed<D: Disk>(
    rt: &impl Clock,
    session: &mut Session<D>,
    classes: Vec<Prepared>,
    group: u32,
) -> Result<(Stored, u128)> {
    let start = Instant::now(rt)?;
    let stored = store_all(session, classes, group)?;
    Ok((stored, start.elapsed(rt)?.as_nanos()))
}

/// Stores classes in a new file, and counts the calls of its disk.
pub fn put_timed(
    rt: &(impl Clock + Files<File = File> + AllocGlobal),
    path: &str,
    putting: Putting,
    classes: Vec<Prepared>,
) -> Result<(Stored, Counts, u128)> {
    make_cache(rt, path, putting.geometry)?;
    let mut session = open_session(rt, path)?;
    let stored = store_timed(rt, &mut session, classes, putting.group);
    let counts = close(session);
    let (stored, storing) = stored?;
    Ok((stored, counts, storing))
}

/// Reads the bytes of a file into memory.
pub fn read_timed(
    rt: &(impl Clock + Files<File = File> + AllocGlobal),
    path: &str,
) -> Result<(FileDisk, u128)> {
    let start = Instant::now(rt)?;
    let disk = cm_region_file::open(rt, path)?;
    Ok((disk, start.elapsed(rt)?.as_nanos()))
}

/// Looks up classes.
pub fn find_timed(rt: &impl Clock, front: &Front, asked: &Asked) -> Result<(u64, u128)> {
    let start = Instant::now(rt)?;
    let found = find_all(front, asked);
    Ok((found, start.elapsed(rt)?.as_nanos()))
}

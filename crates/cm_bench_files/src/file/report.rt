//! What is printed.

use crate::command::Putting;
use crate::file::counted::Counts;
use crate::file::put::Stored;
use crate::file::read::{open_disk, shuffled_names};
use crate::file::timed::{find_timed, prepare_timed, put_timed, read_timed};
use anyhow::Result;
use cm_commands::Prepared;
use cm_front::Front;
use cm_stream::{classes_in, read_stream};
use std::fs::{File, Files};
use std::rt::Clock;
use std::time::Instant;

/// The classes on standard input, prepared.
fn prepare_input(rt: &(impl Clock + Input + AllocGlobal)) -> Result<(Vec<Prepared>, u128)> {
    let bytes = read_stream(rt.alloc(), rt.reader())?;
    let classes = classes_in(rt.alloc(), &bytes)?;
    prepare_timed(rt, &classes)
}

fn print_counts(rt: &impl Print, stored: Stored, counts: Counts) -> Result<()> {
    let (records, bytes, commits) = (stored.records, stored.bytes, stored.commits);
    let (syncs, writes, written) = (counts.syncs, counts.writes, counts.bytes);
    print!(rt; "records {records} bytes {bytes} commits {commits} ")?;
    print!(rt; "syncs {syncs} writes {writes} written {written}")?;
    Ok(())
}

/// Stores the classes on standard input in a new file, and prints what that took.
pub fn put_classes(
    rt: &(impl Clock + Files<File = File> + Input + Print + AllocGlobal),
    path: &str,
    putting: Putting,
    is_timed: bool,
) -> Result<()> {
    let (prepared, preparing) = prepare_input(rt)?;
    let (stored, counts, storing) = put_timed(rt, path, putting, prepared)?;
    print_counts(rt, stored, counts)?;
    if is_timed {
        let both = preparing.saturating_add(storing);
        print!(rt; " stored in {storing} ns, with preparing in {both} ns")?;
    }
    println!(rt;)?;
    Ok(())
}

/// Reads a file, opens it, looks up each of its classes, and prints what that took.
pub fn read_classes(
    rt: &(impl Clock + Files<File = File> + Print + AllocGlobal),
    path: &str,
    is_timed: bool,
) -> Result<()> {
    let (disk, reading) = read_timed(rt, path)?;
    let start = Instant::now(rt)?;
    let (front, committer) = open_disk(rt.alloc(), disk)?;
    let told = look_up(rt, &front, reading, start, is_timed);
    let _disk = committer.into_disk(); // closes the file
    told
}

/// Looks up each class of a cache, and prints how many there are and what it took, including the
/// opening that began at `start` and the reading before it.
fn look_up(
    rt: &(impl Clock + Print + AllocGlobal),
    front: &Front,
    reading: u128,
    start: Instant,
    is_timed: bool,
) -> Result<()> {
    let opening = start.elapsed(rt)?.as_nanos();
    let asked = shuffled_names(rt.alloc(), front)?;
    let (found, finding) = find_timed(rt, front, &asked)?;
    let classes = asked.len();
    print!(rt; "classes {classes} found {found}")?;
    if is_timed {
        print!(rt; " read in {reading} ns, opened in {opening} ns, looked up in {finding} ns")?;
    }
    println!(rt;)?;
    Ok(())
}

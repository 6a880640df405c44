//! Scripts from standard input.

use crate::status::{fail, say_fault, status_of};
use cm_disk::Disk;
use cm_lines::LineFault;
use cm_maintenance::Status;
use cm_tool::{ApplyFault, Outcome, apply_script, apply_threads};
use std::io::{self, BufReader, BufWriter};
use std::thread::Threads;

/// How many bytes of a script are read at once: by one thread, and ahead for several.
const READ_AT_ONCE: usize = 8_192;

const READ_AHEAD: usize = 1_048_576;

/// Runs the script on standard input on a disk's cache, with its replies on standard output and
/// `workers` workers, and returns the status and the disk.
pub fn run_script<R, D>(rt: &R, disk: D, workers: usize) -> (Status, D)
where
    R: Input + Print + Eprint + AllocGlobal + Threads + Sync,
    D: Disk,
{
    let alloc = rt.alloc();
    let capacity = if workers > 1 {
        READ_AHEAD
    } else {
        READ_AT_ONCE
    };
    let Ok(mut reader) = BufReader::with_capacity(alloc, capacity, rt.reader()) else {
        return (fail(rt, LineFault::NoMemory), disk);
    };
    let Ok(mut writer) = BufWriter::new(alloc, io::writer(rt)) else {
        return (fail(rt, LineFault::NoMemory), disk);
    };
    let (run, disk) = if workers > 1 {
        apply_threads(rt, alloc, &mut reader, &mut writer, disk, workers)
    } else {
        apply_script(alloc, &mut reader, &mut writer, disk)
    };
    (status_of_run(rt, run), disk)
}

/// Says why a script wasn't run to its end, and returns the status.
fn status_of_run(
    rt: &(impl Print + Eprint + AllocGlobal),
    run: Result<Outcome, ApplyFault>,
) -> Status {
    match run {
        Ok(outcome) => status_of(outcome),
        Err(ApplyFault::Open(fault)) => say_fault(rt, fault),
        Err(ApplyFault::Script(fault)) => fail(rt, fault),
    }
}

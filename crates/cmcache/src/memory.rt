//! Caches in memory for one run.

use crate::scripts::run_script;
use crate::status::say_not_made;
use cm_arguments::usual_geometry;
use cm_disk::SimDisk;
use cm_maintenance::Status;
use cm_recover::format;
use std::thread::Threads;

/// Runs the script on standard input on a fresh cache in memory of the default sizes, with this
/// many workers, and returns the status.
pub fn apply_in_memory<R>(rt: &R, workers: usize) -> Status
where
    R: Input + Print + Eprint + AllocGlobal + Threads + Sync,
{
    let mut disk = SimDisk::new(rt.alloc());
    match format(rt.alloc(), &mut disk, usual_geometry()) {
        Ok(()) => run_script(rt, disk, workers).0,
        Err(fault) => say_not_made(rt, fault),
    }
}

//! Caches in files.

use crate::scripts::run_script;
use crate::status::{say, say_not_made};
use cm_file_disk::{CreateError, FileDisk, OpenError};
use cm_maintenance::Status;
use cm_pool::Geometry;
use cm_recover::{FormatFault, format};
use cm_verdict::OpenFault;
use std::fmt::Display;
use std::fs::{self, File, Files};
use std::thread::Threads;

/// Makes an empty cache in a new file, and returns the status.
pub fn format_file(
    rt: &(impl Print + Eprint + Files<File = File> + AllocGlobal),
    path: &str,
    geometry: Geometry,
) -> Status {
    let mut disk = match cm_file_disk::create(rt, rt.alloc(), path) {
        Ok(disk) => disk,
        Err(CreateError::Exists) => return say_not_made(rt, FormatFault::NotEmpty),
        Err(error) => {
            tell_cause(rt, path, error);
            return say_not_made(rt, FormatFault::Device);
        }
    };
    match format(rt.alloc(), &mut disk, geometry) {
        Ok(()) => say(rt, "ok", Status::Done),
        Err(FormatFault::NotEmpty) => say_not_made(rt, FormatFault::NotEmpty),
        Err(fault) => {
            give_up(rt, path, disk);
            say_not_made(rt, fault)
        }
    }
}

/// Removes a new file that doesn't hold a cache: it would prevent the next attempt.
fn give_up(rt: &(impl Eprint + Files<File = File>), path: &str, disk: FileDisk) {
    tell_failure(rt, path, &disk);
    drop(disk);
    if fs::remove_file(rt, path).is_err() {
        let _ = eprintln!(rt; "cmcache: {path}: can't be removed, and holds no cache");
    }
}

/// Runs the script on standard input on the cache in a file, with this many workers, and returns
/// the status.
pub fn apply_file<R>(rt: &R, path: &str, workers: usize) -> Status
where
    R: Input + Print + Eprint + Files<File = File> + AllocGlobal + Threads + Sync,
{
    let opened = if workers > 1 {
        cm_region_file::open_in_threads(rt, path, workers)
    } else {
        cm_region_file::open(rt, path)
    };
    match opened {
        Ok(disk) => {
            let (status, disk) = run_script(rt, disk, workers);
            tell_failure(rt, path, &disk);
            status
        }
        Err(error) => say_not_opened(rt, path, error),
    }
}

/// Says why a file can't be opened.
pub fn say_not_opened(rt: &(impl Print + Eprint), path: &str, error: OpenError) -> Status {
    if let OpenError::NoMemory = error {
        return say(rt, OpenFault::NoMemory, Status::Failed);
    }
    tell_cause(rt, path, error);
    say(rt, OpenFault::Device, Status::Failed)
}

/// If a call on a file has failed, says why the first of them did.
pub fn tell_failure(rt: &impl Eprint, path: &str, disk: &FileDisk) {
    if let Some(cause) = disk.cause() {
        tell_cause(rt, path, cause);
    }
}

fn tell_cause(rt: &impl Eprint, path: &str, cause: impl Display + Drop) {
    let _ = eprintln!(rt; "cmcache: {path}: {cause}");
}

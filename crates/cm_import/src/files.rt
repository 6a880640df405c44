//! The files that are read, and the cache's file.

ghost use Rattle.std.specs.Prelude.{◌<◌};

use crate::messages::{say, warn};
use cm_file_disk::{FileDisk, OpenError};
use cm_found_classes::{Found, find};
use cm_maintenance::Status;
use cm_verdict::OpenFault;
use std::alloc::AllocError;
use std::fs::{File, Files};
use std::thread::Threads;

/// What is found under paths.
pub fn find_all<R>(rt: &R, paths: &[String]) -> Result<Found, AllocError>
where
    R: Files + AllocGlobal + Copy,
{
    let mut found = Found::new(rt.alloc());
    for path in paths {
        find(rt, path.as_str(), &mut found)?;
    }
    Ok(found)
}

/// The disk of the cache's file, whose records this many threads read. If it isn't opened, says so,
/// and gives the status.
pub fn open_disk<R>(rt: &R, path: &str, threads: usize) -> Result<FileDisk, Status>
where
    R: Print + Eprint + Files<File = File> + AllocGlobal + Threads + Sync,
    requires { 0 < threads }
{
    match cm_region_file::open_in_threads(rt, path, threads) {
        Ok(disk) => Ok(disk),
        Err(OpenError::NoMemory) => Err(say(rt, OpenFault::NoMemory, Status::Failed)),
        Err(error) => {
            warn(rt, format_args!("{path}: {error}"));
            Err(say(rt, OpenFault::Device, Status::Failed))
        }
    }
}

/// If a call on a file has failed, says why the first of them did.
pub fn tell_failure(rt: &(impl Eprint + AllocGlobal), path: &str, disk: &FileDisk) {
    if let Some(cause) = disk.cause() {
        warn(rt, format_args!("{path}: {cause}"));
    }
}

//! Files that are checked, listed and truncated.

use crate::files::{say_not_opened, tell_failure};
use crate::status::fail;
use cm_file_disk::{FileDisk, OpenError};
use cm_maintenance::{NotReported, Status, check_to, list_to, trim_to};
use cm_verdict::is_older;
use std::fs::{File, Files};
use std::io;

/// Checks the cache in a file for damage, and returns the status. The file is only read.
pub fn check_file(
    rt: &(impl Print + Eprint + Files<File = File> + AllocGlobal),
    path: &str,
) -> Status {
    match cm_region_file::open_read_only(rt, path) {
        Ok(disk) => {
            let told = check_to(rt.alloc(), &mut io::writer(rt), disk);
            status_of_told(rt, path, told)
        }
        Err(error) => say_not_opened(rt, path, error),
    }
}

/// The disk of a file that is listed. If there is no permission to write to it, it is only read.
fn disk_to_list(
    rt: &(impl Files<File = File> + AllocGlobal),
    path: &str,
) -> Result<FileDisk, OpenError> {
    match cm_region_file::open(rt, path) {
        Err(OpenError::Device(cause)) if is_write_denied(cause) => disk_to_read(rt, path, cause),
        opened => opened,
    }
}

/// Whether a file wasn't opened because it may not be written to.
fn is_write_denied(cause: io::Error) -> bool {
    matches!(
        cause.kind(),
        io::ErrorKind::PermissionDenied | io::ErrorKind::ReadOnlyFilesystem
    )
}

/// The disk of a file that may only be read. One of version 1 would have to be upgraded, so it
/// isn't opened, for the same cause.
fn disk_to_read(
    rt: &(impl Files<File = File> + AllocGlobal),
    path: &str,
    cause: io::Error,
) -> Result<FileDisk, OpenError> {
    let mut disk = cm_region_file::open_read_only(rt, path)?;
    match is_older(rt.alloc(), &mut disk) {
        Ok(true) => Err(OpenError::Device(cause)),
        _ => Ok(disk),
    }
}

/// Lists what the cache in a file holds, and returns the status. The file is opened as for a
/// script, with a sync, and nothing is written, unless it is of version 1.
pub fn list_file(
    rt: &(impl Print + Eprint + Files<File = File> + AllocGlobal),
    path: &str,
) -> Status {
    match disk_to_list(rt, path) {
        Ok(disk) => {
            let told = list_to(rt.alloc(), &mut io::writer(rt), disk);
            status_of_told(rt, path, told)
        }
        Err(error) => say_not_opened(rt, path, error),
    }
}

/// Truncates the file of a cache after the last root that is in use, and returns the status.
pub fn trim_file(
    rt: &(impl Print + Eprint + Files<File = File> + AllocGlobal),
    path: &str,
) -> Status {
    match cm_region_file::open(rt, path) {
        Ok(disk) => {
            let told = trim_to(rt.alloc(), &mut io::writer(rt), disk);
            status_of_told(rt, path, told)
        }
        Err(error) => say_not_opened(rt, path, error),
    }
}

/// Says why the file's device failed, if it did, and why not everything is written.
fn status_of_told(
    rt: &impl Eprint,
    path: &str,
    told: Result<(Status, FileDisk), NotReported<FileDisk>>,
) -> Status {
    match told {
        Ok((status, disk)) => {
            tell_failure(rt, path, &disk);
            status
        }
        Err(NotReported { fault, disk }) => {
            tell_failure(rt, path, &disk);
            fail(rt, fault)
        }
    }
}

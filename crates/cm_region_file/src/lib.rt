//! Opens a region file as a disk, with as much of it in memory as its cache needs.
#![tactic(auto)]

ghost use Rattle.std.specs.Prelude.{◌<◌};

use cm_file_disk::{FileDisk, OpenError, read_ahead};
use cm_region_disk::{disk_of, disk_without_records};
use std::fs::{File, Files};
use std::thread::Threads;

/// Opens the file of a cache. What opening the cache reads is in memory then, and nothing else is
/// ([`disk_of`]).
///
/// A file that holds no sound cache is opened too, and its damage is found when the cache is.
///
/// # Errors
/// As of [`cm_file_disk::open`].
pub fn open(
    rt: &(impl Files<File = File> + AllocGlobal),
    path: &str,
) -> Result<FileDisk, OpenError> {
    let opened = cm_file_disk::open(rt, rt.alloc(), path)?;
    Ok(disk_of(rt.alloc(), opened)?)
}

/// Like [`open`], with the records read by this many threads.
pub fn open_in_threads<R>(rt: &R, path: &str, threads: usize) -> Result<FileDisk, OpenError>
where
    R: Files<File = File> + AllocGlobal + Threads + Sync,
    requires { 0 < threads }
{
    let opened = cm_file_disk::open(rt, rt.alloc(), path)?;
    let (disk, ranges) = disk_without_records(rt.alloc(), opened)?;
    let ahead = read_ahead(rt, rt.alloc(), disk.device(), &ranges, threads).map_err(
        |_| OpenError::NoMemory,
    )?;
    Ok(disk.read_words(rt.alloc(), &ranges, ahead)?)
}

/// Like [`open`], but writes and cuts of the disk fail; no permission to write to the file is
/// needed.
pub fn open_read_only(
    rt: &(impl Files<File = File> + AllocGlobal),
    path: &str,
) -> Result<FileDisk, OpenError> {
    let opened = cm_file_disk::open_read_only(rt, rt.alloc(), path)?;
    Ok(disk_of(rt.alloc(), opened)?)
}

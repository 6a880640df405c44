//! Making the cache's file.

use crate::arguments::Wanted;
use crate::files::tell_failure;
use crate::messages::{fail, say, warn};
use crate::sizes::{count_records, sizes_for};
use cm_file_disk::{CreateError, FileDisk};
use cm_found_classes::Place;
use cm_maintenance::Status;
use cm_recover::{FormatFault, format};
use std::fmt::Display;
use std::fs::{self, File, Files};
use std::io::{self, ErrorKind};
use std::path::Path;

/// Makes the cache's file, with an empty cache of the sizes that are wanted; where they aren't
/// given, of sizes that hold what was found. If it isn't made, says so, and gives the status.
///
/// It is made under another name in the same folder, and has its own once it is whole: a run that
/// is killed leaves no file that isn't a cache in the way of the next one.
pub fn format_new<R>(rt: &R, path: &str, wanted: &Wanted, places: &[Place]) -> Result<(), Status>
where
    R: Print + Eprint + Files<File = File> + AllocGlobal,
{
    if fs::symlink_metadata(rt, path).is_ok() {
        return Err(say_exists(rt, path));
    }
    let Some(geometry) = sizes_for(wanted, &count_records(rt, places)) else {
        warn(rt, "a size is outside its limits");
        return Err(Status::WrongWords);
    };
    let Ok(unfinished) = format!(in rt.alloc(); "{path}.new") else {
        return Err(fail(rt, "out of memory"));
    };
    let unfinished = unfinished.as_str();
    let mut disk = create(rt, unfinished)?;
    if let Err(fault) = format(rt.alloc(), &mut disk, geometry) {
        tell_failure(rt, unfinished, &disk);
        remove(rt, unfinished);
        return Err(say(rt, fault, Status::Failed));
    }
    match name(rt, unfinished, path) {
        Ok(()) => Ok(()),
        Err(cause) if cause.kind() == ErrorKind::AlreadyExists => {
            remove(rt, unfinished);
            Err(say_exists(rt, path))
        }
        Err(cause) => {
            remove(rt, unfinished);
            Err(say_failed(rt, path, cause))
        }
    }
}

/// Says that something has the name of the new file.
fn say_exists(rt: &(impl Print + Eprint + AllocGlobal), path: &str) -> Status {
    warn(
        rt,
        format_args!("{path} exists: leave --new out to continue"),
    );
    say(rt, FormatFault::NotEmpty, Status::Refused)
}

/// Says that the new file can't be made.
fn say_failed(
    rt: &(impl Print + Eprint + AllocGlobal),
    path: &str,
    cause: impl Display + Drop,
) -> Status {
    warn(rt, format_args!("{path}: {cause}"));
    say(rt, FormatFault::Device, Status::Failed)
}

/// Creates a file of no bytes. What a run that was killed left under this name is removed first.
fn create<R>(rt: &R, unfinished: &str) -> Result<FileDisk, Status>
where
    R: Print + Eprint + Files<File = File> + AllocGlobal,
{
    match cm_file_disk::create(rt, rt.alloc(), unfinished) {
        Ok(disk) => return Ok(disk),
        Err(CreateError::Exists) => {}
        Err(error) => return Err(say_failed(rt, unfinished, error)),
    }
    // A run that is under way has it locked.
    match cm_file_disk::open(rt, rt.alloc(), unfinished) {
        Ok(_) => remove(rt, unfinished),
        Err(error) => return Err(say_failed(rt, unfinished, error)),
    }
    match cm_file_disk::create(rt, rt.alloc(), unfinished) {
        Ok(disk) => Ok(disk),
        Err(error) => Err(say_failed(rt, unfinished, error)),
    }
}

/// Gives a whole file its name, and makes that durable. A file system may have no links.
fn name(rt: &impl Files<File = File>, unfinished: &str, path: &str) -> io::Result<()> {
    match fs::hard_link(rt, unfinished, path) {
        Ok(()) => fs::remove_file(rt, unfinished)?,
        Err(cause) if cause.kind() == ErrorKind::AlreadyExists => return Err(cause),
        Err(_) => fs::rename(rt, unfinished, path)?,
    }
    File::open(rt, folder_of(path))?.sync_all()
}

/// The folder that contains the path's last name.
fn folder_of(path: &str) -> &str {
    match Path::new(path).parent().and_then(|folder| folder.to_str()) {
        Some(folder) if !folder.is_empty() => folder,
        _ => ".",
    }
}

/// Removes a file that holds no cache.
fn remove(rt: &(impl Eprint + Files<File = File> + AllocGlobal), path: &str) {
    if fs::remove_file(rt, path).is_err() {
        warn(
            rt,
            format_args!("{path}: can't be removed, and holds no cache"),
        );
    }
}

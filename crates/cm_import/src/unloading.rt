//! Loaders that make room for the one that is imported into.

use crate::arguments::Import;
use crate::files::{open_disk, tell_failure};
use crate::loaders::other_tags;
use crate::messages::{fail, say, say_not_opened, say_refused};
use cm_importing::{ImportFault, Outcome, unload};
use cm_maintenance::Status;
use cm_recover::{NotOpened, open_in_threads};
use std::alloc::AllocError;
use std::fs::{File, Files};
use std::thread::Threads;

/// A list of one name.
pub fn list_of(rt: &impl AllocGlobal, name: &[u8]) -> Result<Vec<Vec<u8>>, AllocError> {
    let mut names = Vec::new(rt.alloc());
    names.push(Vec::from_slice(rt.alloc(), name)?)?;
    Ok(names)
}

/// Unloads loaders that are there, and says of each that it is. If that fails, says why, and gives
/// the status.
pub fn unload_all<R>(rt: &R, request: &Import, loaders: Vec<Vec<u8>>) -> Result<(), Status>
where
    R: Print + Eprint + Files<File = File> + AllocGlobal + Threads + Copy + Sync,
{
    let path = request.file.as_str();
    let disk = open_disk(rt, path, request.workers.get())?;
    let (result, disk) = unload(rt, rt.alloc(), loaders, disk, request.workers.get());
    tell_failure(rt, path, &disk);
    match result {
        Ok(outcomes) => say_unloaded(rt, &outcomes),
        Err(ImportFault::Open(fault)) => Err(say_not_opened(rt, path, fault)),
        Err(fault) => Err(fail(rt, fault)),
    }
}

/// Says under which number each loader was unloaded.
fn say_unloaded(
    rt: &(impl Print + Eprint + AllocGlobal),
    outcomes: &[Outcome],
) -> Result<(), Status> {
    for outcome in outcomes {
        let status = match outcome {
            Outcome::Stored(number) => {
                say(rt, format_args!("unloaded number {number}"), Status::Done)
            }
            Outcome::Refused(refusal) => say_refused(rt, *refusal),
            Outcome::There | Outcome::Changed => Status::Done, // not of a loader
        };
        if status != Status::Done {
            return Err(status);
        }
    }
    Ok(())
}

/// The loaders of the same name with another tag. If they can't be told, says so, and gives the
/// status.
fn others_in<R>(rt: &R, request: &Import, loader: &str) -> Result<Vec<Vec<u8>>, Status>
where
    R: Print + Eprint + Files<File = File> + AllocGlobal + Threads + Copy + Sync,
{
    let path = request.file.as_str();
    let base = request.loader.as_str().as_bytes();
    let disk = open_disk(rt, path, request.workers.get())?;
    match open_in_threads(rt, rt.alloc(), disk, request.workers.get()) {
        Ok((front, _committer)) => {
            match other_tags(rt.alloc(), &front, base, loader.as_bytes()) {
                Ok(others) => Ok(others),
                Err(_) => Err(fail(rt, "out of memory")),
            }
        }
        Err(NotOpened { fault, disk }) => {
            tell_failure(rt, path, &disk);
            Err(say_not_opened(rt, path, fault))
        }
    }
}

/// Unloads the loaders of the same name with another tag.
pub fn unload_others<R>(rt: &R, request: &Import, loader: &str) -> Result<Status, Status>
where
    R: Print + Eprint + Files<File = File> + AllocGlobal + Threads + Copy + Sync,
{
    let others = others_in(rt, request, loader)?;
    if !others.is_empty() {
        unload_all(rt, request, others)?;
    }
    Ok(Status::Done)
}

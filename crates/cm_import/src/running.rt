//! Imports as they are asked for.

use crate::arguments::{Import, Others};
use crate::differences::{say_differences, unload_if_changed};
use crate::feed::FoundClasses;
use crate::files::{find_all, open_disk, tell_failure};
use crate::messages::{fail, say_not_opened, say_refused, warn};
use crate::new_file::format_new;
use crate::preparer::Preparer;
use crate::progress::Progress;
use crate::report::Report;
use crate::tags::loader_of;
use crate::unloading::unload_others;
use cm_commands::Refusal;
use cm_found_classes::{Found, Place};
use cm_importing::{ImportFault, import};
use cm_layout::is_loader_name;
use cm_maintenance::Status;
use std::fs::{File, Files};
use std::num::NonZeroUsize;
use std::thread::Threads;
use std::time::Clock;

/// Does what is asked for, and gives the status.
pub fn run_import<R>(rt: &R, request: &Import, on_terminal: bool) -> Status
where
    R: Print + Eprint + Files<File = File> + AllocGlobal + Clock + Threads + Copy + Sync,
{
    match import_found(rt, request, on_terminal) {
        Ok(status) => status,
        Err(status) => status,
    }
}

/// Finds the classes and opens the file; then imports them, or says what that would do.
fn import_found<R>(rt: &R, request: &Import, on_terminal: bool) -> Result<Status, Status>
where
    R: Print + Eprint + Files<File = File> + AllocGlobal + Clock + Threads + Copy + Sync,
{
    let Ok(found) = find_all(rt, &request.paths) else {
        return Err(fail(rt, "out of memory"));
    };
    let mut report = Report::new(rt.alloc());
    report.add_unsearched(rt, &found.unsearched);
    let loader = loader_of(rt, request, &found)?;
    check_name(rt, loader.as_str())?;
    let Found { places, .. } = found;
    if let Some(wanted) = &request.new {
        format_new(rt, request.file.as_str(), wanted, &places)?;
    }
    let progress = Progress::new(rt, on_terminal, bytes_of(&places));
    let preparer = Preparer::new(rt, request.workers, report, progress);
    let feed = FoundClasses::new(places, preparer);
    if request.is_dry {
        return say_differences(rt, request, loader.as_str(), feed);
    }
    if request.replaces {
        unload_if_changed(rt, request, loader.as_str())?;
    }
    let status = import_into(rt, request, loader.as_str(), feed)?;
    match (request.tag, status) {
        (Some(Others::Unloaded), Status::Done) => { unload_others(rt, request, loader.as_str()) }
        (Some(Others::Unloaded), Status::Refused) => {
            warn(
                rt,
                "loaders with other tags stay, since not all was imported",
            );
            Ok(status)
        }
        _ => Ok(status),
    }
}

/// Says which sizes of a file hold the classes of these paths, and gives the status.
pub fn say_sizes<R>(rt: &R, paths: &[String], workers: NonZeroUsize, on_terminal: bool) -> Status
where
    R: Print + Eprint + Files<File = File> + AllocGlobal + Clock + Threads + Copy + Sync,
{
    let Ok(found) = find_all(rt, paths) else {
        return fail(rt, "out of memory");
    };
    let mut report = Report::new(rt.alloc());
    report.add_unsearched(rt, &found.unsearched);
    let progress = Progress::new(rt, on_terminal, bytes_of(&found.places));
    let preparer = Preparer::new(rt, workers, report, progress);
    let mut feed = FoundClasses::new(found.places, preparer);
    match feed.count_all(rt) {
        Ok(()) => feed.into_report().say_sizes(rt),
        Err(_) => fail(rt, "out of memory"),
    }
}

/// How many bytes all files have.
fn bytes_of(places: &[Place]) -> u64 {
    let mut bytes = 0u64;
    for place in places {
        bytes = bytes.saturating_add(place.len());
    }
    bytes
}

/// Says so if no loader may have this name, before anything is made or opened.
fn check_name(rt: &(impl Print + Eprint + AllocGlobal), loader: &str) -> Result<(), Status> {
    if is_loader_name(loader.as_bytes()) {
        Ok(())
    } else {
        Err(say_refused(rt, Refusal::BadName))
    }
}

/// Imports what was found, and says what came of it. Each step opens the file anew, since a disk
/// holds the records that it read only until they are taken.
fn import_into<R>(
    rt: &R,
    request: &Import,
    loader: &str,
    feed: FoundClasses<'_, R>,
) -> Result<Status, Status>
where
    R: Print + Eprint + Files<File = File> + AllocGlobal + Clock + Threads + Copy + Sync,
{
    let mut feed = feed;
    let path = request.file.as_str();
    let workers = request.workers.get();
    let disk = open_disk(rt, path, workers)?;
    let (result, disk) = import(rt, rt.alloc(), loader.as_bytes(), &mut feed, disk, workers);
    tell_failure(rt, path, &disk);
    let report = feed.into_report();
    Ok(match result {
        Ok(number) => report.say_all(rt, number),
        Err(ImportFault::Open(fault)) => say_not_opened(rt, path, fault),
        Err(ImportFault::Loader(refusal)) => say_refused(rt, refusal),
        Err(fault) => {
            report.say_imported(rt);
            fail(rt, fault)
        }
    })
}

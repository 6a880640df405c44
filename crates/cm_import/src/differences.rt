//! What an import changes of a loader that is there.

use crate::arguments::Import;
use crate::feed::FoundClasses;
use crate::files::{find_all, open_disk, tell_failure};
use crate::messages::{fail, say_not_opened, warn};
use crate::preparer::Preparer;
use crate::progress::Progress;
use crate::report::Report;
use crate::unloading::{list_of, unload_all};
use cm_maintenance::Status;
use cm_recover::{NotOpened, open_in_threads};
use std::fs::{File, Files};
use std::thread::Threads;
use std::time::Clock;

/// How classes differ from those of a loader.
struct Differences {
    /// How each class compares.
    report: Report,
    /// How many of the loader's classes have a name that none of them has.
    gone: u64,
}

/// Compares the classes of a feed with those of the loader in the file's cache. If that can't be
/// done, says so, and gives the status.
fn compare_with<R>(
    rt: &R,
    request: &Import,
    loader: &str,
    feed: FoundClasses<'_, R>,
) -> Result<Differences, Status>
where
    R: Print + Eprint + Files<File = File> + AllocGlobal + Clock + Threads + Copy + Sync,
{
    let mut feed = feed;
    let path = request.file.as_str();
    let disk = open_disk(rt, path, request.workers.get())?;
    match open_in_threads(rt, rt.alloc(), disk, request.workers.get()) {
        Ok((front, _committer)) => {
            let Ok(gone) = feed.compare_all(rt, &front, loader.as_bytes()) else {
                return Err(fail(rt, "out of memory"));
            };
            let report = feed.into_report();
            Ok(Differences { report, gone })
        }
        Err(NotOpened { fault, disk }) => {
            tell_failure(rt, path, &disk);
            Err(say_not_opened(rt, path, fault))
        }
    }
}

/// Says what an import of the feed would do.
pub fn say_differences<R>(
    rt: &R,
    request: &Import,
    loader: &str,
    feed: FoundClasses<'_, R>,
) -> Result<Status, Status>
where
    R: Print + Eprint + Files<File = File> + AllocGlobal + Clock + Threads + Copy + Sync,
{
    let Differences { report, gone } = compare_with(rt, request, loader, feed)?;
    Ok(report.say_compared(rt, gone, request.replaces))
}

/// Unloads the loader if it has a class that the paths don't have, so that it is made anew. If not
/// all of the paths can be read it stays, since its classes may be there.
pub fn unload_if_changed<R>(rt: &R, request: &Import, loader: &str) -> Result<(), Status>
where
    R: Print + Eprint + Files<File = File> + AllocGlobal + Clock + Threads + Copy + Sync,
{
    let Ok(found) = find_all(rt, &request.paths) else {
        return Err(fail(rt, "out of memory"));
    };
    let mut report = Report::silent(rt.alloc());
    report.add_unsearched(rt, &found.unsearched);
    let preparer = Preparer::new(rt, request.workers, report, Progress::new(rt, false, 0));
    let feed = FoundClasses::new(found.places, preparer);
    let Differences { report, gone } = compare_with(rt, request, loader, feed)?;
    if !report.differs(gone) {
        return Ok(());
    }
    if !report.is_whole() {
        warn(
            rt,
            "the loader isn't made anew, since not all paths can be read",
        );
        return Ok(());
    }
    let Ok(loaders) = list_of(rt, loader.as_bytes()) else {
        return Err(fail(rt, "out of memory"));
    };
    unload_all(rt, request, loaders)
}

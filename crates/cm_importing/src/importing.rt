//! An import into the cache on a disk.

ghost use Rattle.std.specs.Prelude.{◌≡◌, ◌<◌, ℕ, List, Ok, true};
ghost use Rattle.cm_guards.specs.Guards.{EachImage};
ghost use Rattle.cm_guards.specs.Calls.{LeavesOnly};
ghost use Rattle.cm_commands.specs.Machine.{Machine};
ghost use Rattle.cm_session.specs.Images.{StandsForSome};
ghost use Rattle.cm_session.specs.Moves.{SessionMatches};
ghost use Rattle.cm_importing.specs.Groups.{pause, IsReady};
ghost use Rattle.cm_importing.specs.Runs.{ImportsFrom, RunsTurn, RunsFeed, TellsLoader, RunsLoader};
ghost use Rattle.cm_importing.specs.Runs.{Runs, Imports};

use crate::fault::ImportFault;
use crate::feed::Feed;
use crate::group::import_group;
use cm_commands::{Command, Refusal};
use cm_disk::Disk;
use cm_recover::NotOpened;
use cm_session::Session;
use std::alloc::Global;
use std::thread::Threads;

/// Imports the next group that the feed gives, and tells it what became of the classes. Whether
/// there was one.
fn import_next<R: Threads + Sync, D: Disk, F: Feed>(
    rt: &R,
    alloc: Global,
    session: &mut Session<D>,
    loader: &[u8],
    feed: &mut F,
) -> Result<bool, ImportFault>
    ensures machine { ImportsFrom (RunsTurn (LeavesOnly D.view) session.old.committer.sizes
        loader.now (F.log feed.old) (F.log feed.new) result) session.old session.new }
    ensures sizes { session.new.committer.sizes ≡ session.old.committer.sizes }
    ensures fewer { result ≡ Ok true → F.left feed.new < F.left feed.old }
{
    let classes = match feed.next(rt, alloc) {
        Ok(Some(classes)) => classes,
        Ok(None) => return Ok(false),
        Err(_) => return Err(ImportFault::NoMemory),
    };
    match import_group(alloc, session, loader, classes) {
        Ok(outcomes) => {
            feed.tell(&outcomes);
            Ok(true)
        }
        Err(fault) => Err(fault),
    }
}

/// Imports what the feed gives, group after group. Gives the number of the last command.
fn import_feed<R: Threads + Sync, D: Disk, F: Feed>(
    rt: &R,
    alloc: Global,
    session: &mut Session<D>,
    loader: &[u8],
    feed: &mut F,
) -> Result<u64, ImportFault>
    ensures machine { ImportsFrom (RunsFeed (LeavesOnly D.view) session.old.committer.sizes
        loader.now (F.log feed.old) (F.log feed.new) result) session.old session.new }
    ensures sizes { session.new.committer.sizes ≡ session.old.committer.sizes }
{
    'groups: loop {
        match import_next(rt, alloc, session, loader, feed) {
            Ok(true) => {}
            Ok(false) => return Ok(session.number()),
            Err(fault) => return Err(fault),
        }
    }
}

/// Whether a loader is there, once it was asked for.
fn check_there(answer: Result<u64, Refusal>) -> Result<(), ImportFault>
    ensures { TellsLoader answer result }
{
    match answer {
        Ok(_) => Ok(()),
        Err(Refusal::LoaderExists) => Ok(()),
        Err(refusal) => Err(ImportFault::Loader(refusal)),
    }
}

/// Adds the loader, unless it is there.
fn add_loader<D: Disk>(session: &mut Session<D>, loader: &[u8]) -> Result<(), ImportFault>
    ensures machine { ImportsFrom (RunsLoader (LeavesOnly D.view) session.old.committer.sizes
        loader.now result) session.old session.new }
    ensures sizes { session.new.committer.sizes ≡ session.old.committer.sizes }
{
    let answer = session.accept(Command::AddLoader(loader));
    if session.commit().is_err() {
        return Err(ImportFault::Device);
    }
    check_there(answer)
}

/// Adds the loader, unless it is there, and imports what the feed gives.
fn import_all<R: Threads + Sync, D: Disk, F: Feed>(
    rt: &R,
    alloc: Global,
    session: &mut Session<D>,
    loader: &[u8],
    feed: &mut F,
) -> Result<u64, ImportFault>
    ensures machine { ImportsFrom (Runs (LeavesOnly D.view) session.old.committer.sizes
        loader.now (F.log feed.old) (F.log feed.new) result) session.old session.new }
    ensures sizes { session.new.committer.sizes ≡ session.old.committer.sizes }
{
    match add_loader(session, loader) {
        Ok(()) => import_feed(rt, alloc, session, loader, feed),
        Err(fault) => Err(fault),
    }
}

/// Imports into the cache of a session, and hands back its disk.
fn import_opened<R: Threads + Sync, D: Disk, F: Feed>(
    rt: &R,
    alloc: Global,
    session: Session<D>,
    loader: &[u8],
    feed: &mut F,
) -> (Result<u64, ImportFault>, D)
    ensures { (k : Machine) → SessionMatches k session → IsReady k
        → (next : Machine)
        × Runs (LeavesOnly D.view) session.committer.sizes loader.now (F.log feed.old)
        (F.log feed.new) result.0 (pause k session.committer.disk) (pause next result.1)
        × EachImage (D.view.contents result.1) (D.view.unsynced result.1)
        (StandsForSome session.committer.sizes next) }
{
    let mut session = session;
    let result = import_all(rt, alloc, &mut session, loader, feed);
    session.images(); // so the proof knows what a crash leaves now
    (result, session.into_disk())
}

/// Imports the classes of a feed into the loader of this name in the cache on a disk. The loader is
/// added if it isn't there. Each group that the feed gives is stored before it is told what became
/// of its classes, and before the next one is asked for. Gives the number of the last command.
///
/// A crash at any moment leaves the cache that was opened, with all classes that the feed was told
/// as stored, and a beginning of those that were accepted of the group that it gave last.
///
/// This many threads judge the records of the cache when it is opened. The disk is handed back in
/// any case.
///
/// # Errors
/// [`ImportFault::Open`]: the cache isn't opened; [`ImportFault::Loader`]: the loader can't be
/// added; [`ImportFault::Device`]: the device failed; [`ImportFault::NoMemory`]: an allocation
/// failed. What the feed was told as stored is stored in any case.
pub fn import<R: Threads + Sync, D: Disk, F: Feed>(
    rt: &R,
    alloc: Global,
    loader: &[u8],
    feed: &mut F,
    disk: D,
    threads: usize,
) -> (Result<u64, ImportFault>, D)
    requires { 0 < threads }
    ensures { Imports D.view loader.now (F.log feed.old) (F.log feed.new) disk result.0 result.1 }
{
    match cm_session::open_in_threads(rt, alloc, disk, threads) {
        Ok(session) => import_opened(rt, alloc, session, loader, feed),
        Err(NotOpened { fault, disk }) => (Err(ImportFault::Open(fault)), disk),
    }
}

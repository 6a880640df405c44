//! Loaders that are unloaded from the cache on a disk.

ghost use Rattle.std.specs.Prelude.{◌≡◌, ◌<◌, IsErr, IfOk};
ghost use Rattle.cm_guards.specs.Guards.{EachImage};
ghost use Rattle.cm_guards.specs.Calls.{LeavesOnly};
ghost use Rattle.cm_state.specs.Step.{Unload};
ghost use Rattle.cm_commands.specs.Machine.{Machine};
ghost use Rattle.cm_session.specs.Images.{StandsForSome};
ghost use Rattle.cm_session.specs.Moves.{SessionMatches, ReachesMachine};
ghost use Rattle.cm_importing.specs.Groups.{pause, IsReady, Takes, TakesEach, ImportsGroup};
ghost use Rattle.cm_importing.specs.Outcomes.{outcome_alone};
ghost use Rattle.cm_importing.specs.Runs.{ImportsFrom};
ghost use Rattle.cm_importing.specs.Unloading.{unloads, Unloads};

use crate::fault::ImportFault;
use crate::outcome::Outcome;
use cm_commands::{Command, Refusal};
use cm_disk::Disk;
use cm_recover::NotOpened;
use cm_session::Session;
use std::alloc::{AllocError, Global};
use std::thread::Threads;

/// What an answer says of a loader.
fn outcome_of_loader(answer: Result<u64, Refusal>) -> Outcome
    ensures { result ≡ outcome_alone answer }
{
    match answer {
        Ok(number) => Outcome::Stored(number),
        Err(refusal) => Outcome::Refused(refusal),
    }
}

/// Asks for a loader to be unloaded, and says what becomes of it.
fn unload_one<D: Disk>(session: &mut Session<D>, loader: &[u8]) -> Outcome
    ensures machine { (k : Machine) → SessionMatches k session.old
        → ReachesMachine (Takes session.old.committer.sizes k (Unload loader.now) result)
        (λ next. SessionMatches next session.new) }
    ensures disk { session.new.committer ≡ session.old.committer }
{
    outcome_of_loader(session.accept(Command::Unload(loader)))
}

/// Asks for each of the loaders to be unloaded. At `Err` none was asked for.
fn unload_each<D: Disk>(
    alloc: Global,
    session: &mut Session<D>,
    loaders: Vec<Vec<u8>>,
) -> Result<Vec<Outcome>, AllocError>
    ensures machine { (k : Machine) → SessionMatches k session.old
        → IfOk result (λ outcomes. ReachesMachine
        (TakesEach session.old.committer.sizes k (unloads loaders.items) outcomes.items)
        (λ next. SessionMatches next session.new)) }
    ensures none { IsErr result → session.new ≡ session.old }
    ensures disk { session.new.committer ≡ session.old.committer }
{
    let mut outcomes = Vec::with_capacity(alloc, loaders.len())?;
    'loaders: for loader in loaders {
        outcomes.push_reserved(unload_one(session, &loader));
    }
    Ok(outcomes)
}

/// Unloads the loaders, and stores that. Gives what became of each.
fn unload_group<D: Disk>(
    alloc: Global,
    session: &mut Session<D>,
    loaders: Vec<Vec<u8>>,
) -> Result<Vec<Outcome>, ImportFault>
    ensures machine { ImportsFrom (ImportsGroup (LeavesOnly D.view) session.old.committer.sizes
        (unloads loaders.items) result) session.old session.new }
    ensures sizes { session.new.committer.sizes ≡ session.old.committer.sizes }
{
    let outcomes = match unload_each(alloc, session, loaders) {
        Ok(outcomes) => outcomes,
        Err(_) => return Err(ImportFault::NoMemory),
    };
    if session.commit().is_err() {
        return Err(ImportFault::Device);
    }
    Ok(outcomes)
}

/// Unloads loaders of the cache of a session, and hands back its disk.
fn unload_opened<D: Disk>(
    alloc: Global,
    session: Session<D>,
    loaders: Vec<Vec<u8>>,
) -> (Result<Vec<Outcome>, ImportFault>, D)
    ensures { (k : Machine) → SessionMatches k session → IsReady k
        → (next : Machine)
        × ImportsGroup (LeavesOnly D.view) session.committer.sizes (unloads loaders.items) result.0
        (pause k session.committer.disk) (pause next result.1)
        × EachImage (D.view.contents result.1) (D.view.unsynced result.1)
        (StandsForSome session.committer.sizes next) }
{
    let mut session = session;
    let result = unload_group(alloc, &mut session, loaders);
    session.images(); // so the proof knows what a crash leaves now
    (result, session.into_disk())
}

/// Unloads the loaders of these names from the cache on a disk, one after another, and says what
/// became of each: [`Outcome::Stored`], or [`Outcome::Refused`] as by [`Command::Unload`], with
/// `NoLoader` if there is none of the name.
///
/// A crash at any moment leaves the cache that was opened, without the first of these loaders, up
/// to some one. This many threads judge the records of the cache when it is opened. The disk is
/// handed back in any case.
///
/// # Errors
/// [`ImportFault::Open`]: the cache isn't opened; [`ImportFault::Device`]: the device failed;
/// [`ImportFault::NoMemory`]: an allocation failed, and nothing was done.
pub fn unload<R: Threads + Sync, D: Disk>(
    rt: &R,
    alloc: Global,
    loaders: Vec<Vec<u8>>,
    disk: D,
    threads: usize,
) -> (Result<Vec<Outcome>, ImportFault>, D)
    requires { 0 < threads }
    ensures { Unloads D.view loaders.items disk result.0 result.1 }
{
    match cm_session::open_in_threads(rt, alloc, disk, threads) {
        Ok(session) => unload_opened(alloc, session, loaders),
        Err(NotOpened { fault, disk }) => (Err(ImportFault::Open(fault)), disk),
    }
}

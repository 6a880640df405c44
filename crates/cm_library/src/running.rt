//! A cache that is used and closed.

ghost use Rattle.std.specs.Prelude.{◌≡◌, ◌≤◌, IfOk, IfErr, vec_len};
ghost use Rattle.std.specs.List.{All};
ghost use Rattle.cm_cache.specs.Shared.{most_passes};
ghost use Rattle.cm_cache.specs.Starting.{Belongs, MayStart};
ghost use Rattle.cm_library.specs.Running.{RunsWork, Closes, HasClosed};
ghost use Rattle.cm_library.specs.Running.{KeepsAlone, KeepsWorks, passes_for};

use crate::counts::Counts;
use crate::opening::Opened;
use crate::work::{Work, work_alone, work_in_threads};
use cm_cache::{Cache, Closed, Flusher, MOST_PASSES, Naming, NewCache, NewStorage, Pass};
use cm_commands::Refusal;
use cm_disk::Disk;
use cm_front::Front;
use std::alloc::Global;
use std::fmt::{self, Debug, Formatter};
use std::marker::Brand;
use std::sync::Wait;
use std::thread::Threads;
use thiserror::Error;

/// What a cache leaves that was used and closed.
#[derive(Debug, Drop)]
pub struct Finished<T, D> {
    /// What the work returned.
    pub output: T,
    /// How many commands were accepted and stored.
    pub counts: Counts,
    /// The disk, as it is now.
    pub disk: D,
}

/// A cache that was opened couldn't be started: an allocation for what its threads share failed, or
/// the start of its thread. The disk was dropped, and its cache can be opened again.
#[derive(Drop, Error)]
#[error("out of memory")]
#[error_bound(W: Drop)]
pub struct NotStarted<W> {
    /// The work, as it was.
    pub work: W,
}

impl<W> Debug for NotStarted<W> {
    fn fmt<F: fmt::Write>(&self, f: &mut Formatter<F>) -> fmt::Result {
        f.debug_struct("NotStarted").finish_non_exhaustive()
    }
}

impl<D: Disk + Drop + Send + 'static> Opened<D> {
    ghost use Rattle.std.specs.Prelude.{◌≡◌, IfOk, IfErr};
    ghost use Rattle.std.specs.List.{All};
    ghost use Rattle.cm_library.specs.Running.{RunsWork, IsOpened, KeepsAlone, KeepsWorks};
    ghost use Rattle.cm_library.specs.Running.{passes_for};

    /// Does the work with the cache, and closes it. Another thread stores what is accepted; closing
    /// waits until all of that is stored, unless the device fails.
    ///
    /// If no call of the disk failed, each command that was accepted is stored. Otherwise the
    /// oldest of them are, as many as the counts say, and each later one may be there or not once
    /// the disk is opened again, but none without those before it.
    ///
    /// # Errors
    /// [`NotStarted`], with the work as it was. No command was accepted.
    pub fn run<R, W>(
        self,
        rt: &R,
        alloc: Global,
        work: W,
    ) -> Result<Finished<W::Output, D>, NotStarted<W>>
    where
        R: Threads + Wait + Copy + Send + Sync + 'static,
        W: Work<R> + Drop,
        requires may_run { W.may_run work }
        ensures ran { IfOk result (λ f. (begun : D) → IsOpened D.view begun self
            → RunsWork D.view (KeepsAlone (W.keeps work) f.output) 1 begun f.counts f.disk) }
        ensures work { IfErr result (λ e. e.work ≡ work) }
    {
        let Opened { front, storage } = self;
        match NewCache::new(alloc, storage.number(), 1) {
            Ok(new) => run_alone::<Brand, R, D, W>(rt, alloc, new, front, storage, work),
            Err(_) => Err(NotStarted { work }),
        }
    }

    /// Does each work with the cache in a thread of its own, and closes it, as [`Opened::run`] does
    /// for one work in the caller's thread.
    ///
    /// The outputs are in the order of the works. In their place is a refusal if there are more
    /// than 65,536 works (`NumbersSpent`), of which none is then done, or if an allocation failed
    /// (`NoMemory`): works may then have been done whose output is lost, and the counts say so:
    /// their passes are missing.
    ///
    /// # Errors
    /// As of [`Opened::run`].
    pub fn run_in_threads<R, W>(
        self,
        rt: &R,
        alloc: Global,
        works: Vec<W>,
    ) -> Result<Finished<Result<Vec<W::Output>, Refusal>, D>, NotStarted<Vec<W>>>
    where
        R: Threads + Wait + Copy + Send + Sync + 'static,
        W: Work<R> + Drop + Send,
        W::Output: Drop + Send,
        requires may_run { All W.may_run works.items }
        ensures ran { IfOk result (λ f. (begun : D) → IsOpened D.view begun self
            → RunsWork D.view
            (KeepsWorks W.keeps works f.output)
            (passes_for (vec_len works)) begun f.counts f.disk) }
        ensures works { IfErr result (λ e. e.work ≡ works) }
    {
        let Opened { front, storage } = self;
        match NewCache::new(alloc, storage.number(), passes_needed(works.len())) {
            Ok(new) => run_each::<Brand, R, D, W>(rt, alloc, new, front, storage, works),
            Err(_) => Err(NotStarted { work: works }),
        }
    }
}

// With how many passes a cache is started for these works: one for each, none if they are too many.
fn passes_needed(works: usize) -> u64
    ensures value { result ≡ passes_for works }
    ensures few { result ≤ most_passes }
{
    let works = works as u64;
    if works <= MOST_PASSES { works } else { 0 }
}

// Starts a cache that was just opened, does the work in this thread, and closes it.
fn run_alone<K, R, D, W>(
    rt: &R,
    alloc: Global,
    new: NewCache,
    front: Front,
    storage: NewStorage<D>,
    work: W,
) -> Result<Finished<W::Output, D>, NotStarted<W>>
where
    K: Naming + Send + Sync + 'static,
    R: Threads + Wait + Copy + Send + Sync + 'static,
    D: Disk + Drop + Send + 'static,
    W: Work<R> + Drop,
    requires may_run { W.may_run work }
    requires one { K.passes ≡ 1 }
    requires new { Belongs K.base K.channel K.board K.name K.parts K.passes new }
    requires opened { MayStart K.base K.failed D.view.failures front storage }
    ensures ran { IfOk result (λ f. Closes D.view (KeepsAlone (W.keeps work) f.output)
        K.base K.failed 1 f.counts f.disk) }
    ensures work { IfErr result (λ e. e.work ≡ work) }
{
    let Ok(started) = Cache::<K>::start(rt, alloc, new, front, storage) else {
        return Err(NotStarted { work });
    };
    let (cache, flusher, mut passes) = started;
    let output = work_alone(rt, alloc, &cache, work, &mut passes);
    let (counts, disk) = close(rt, cache, flusher, passes);
    Ok(Finished {
        output,
        counts,
        disk,
    })
}

// Starts a cache that was just opened, does each work in a thread, and closes it.
fn run_each<K, R, D, W>(
    rt: &R,
    alloc: Global,
    new: NewCache,
    front: Front,
    storage: NewStorage<D>,
    works: Vec<W>,
) -> Result<Finished<Result<Vec<W::Output>, Refusal>, D>, NotStarted<Vec<W>>>
where
    K: Naming + Send + Sync + 'static,
    R: Threads + Wait + Copy + Send + Sync + 'static,
    D: Disk + Drop + Send + 'static,
    W: Work<R> + Drop + Send,
    W::Output: Drop + Send,
    requires may_run { All W.may_run works.items }
    requires enough { K.passes ≡ passes_for (vec_len works) }
    requires new { Belongs K.base K.channel K.board K.name K.parts K.passes new }
    requires opened { MayStart K.base K.failed D.view.failures front storage }
    ensures ran { IfOk result (λ f. Closes D.view
        (KeepsWorks W.keeps works f.output)
        K.base K.failed (passes_for (vec_len works)) f.counts f.disk) }
    ensures works { IfErr result (λ e. e.work ≡ works) }
{
    let Ok(started) = Cache::<K>::start(rt, alloc, new, front, storage) else {
        return Err(NotStarted { work: works });
    };
    let (cache, flusher, drawn) = started;
    let mut passes = Vec::new(alloc);
    let output = work_in_threads(rt, alloc, &cache, works, drawn, &mut passes);
    let (counts, disk) = close(rt, cache, flusher, passes);
    Ok(Finished {
        output,
        counts,
        disk,
    })
}

// Closes a cache, and returns what was counted, and the disk.
fn close<K, R, D>(
    rt: &R,
    cache: Cache<K>,
    flusher: Flusher<K, D>,
    passes: Vec<Pass<K>>,
) -> (Counts, D)
where
    K: Naming + Send + Sync + 'static,
    R: Threads + Wait,
    D: Disk + Drop + Send + 'static,
    requires { K.parts ≡ most_passes }
    ensures { HasClosed D.view K.base K.failed K.passes passes.items result.0 result.1 }
{
    let Closed {
        handed,
        committed,
        of_passes,
        missing,
        disk,
    } = cache.close(rt, flusher, passes);
    let counts = Counts {
        handed,
        committed,
        of_passes,
        missing,
    };
    (counts, disk)
}

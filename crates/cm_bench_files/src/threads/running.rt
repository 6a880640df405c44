//! A cache that runs for threads, each with a duty.

use crate::threads::defining::{Looks, Turn, define_all, look_up_all};
use crate::threads::mixing::{Mix, Step, mix_calls};
use crate::threads::scene::Scene;
use crate::threads::scripting::{Part, Reply, run_part};
use anyhow::{Result, bail};
use cm_disk::Disk;
use cm_library::{Cache, Counts, Finished, Naming, Opened, Pass, Work, open};
use std::alloc::Global;
use std::rt::Clock;
use std::sync::Wait;
use std::thread::Threads;
use std::time::Instant;

/// What a thread does.
#[derive(Clone, Copy, Debug)]
pub enum Duty {
    Mix(Mix),
    Script(Part),
    Define(Turn),
    LookUp(Turn),
}

/// What a thread did.
#[derive(Drop)]
pub enum Outcome {
    Steps(Vec<Step>),
    Replies(Vec<Reply>),
    /// How many commands were stored.
    Stored(u64),
    Looks(Looks),
}

/// A thread's work: its duty.
#[derive(Drop)]
struct Worker<'a> {
    duty: Duty,
    scene: &'a Scene<'a>,
    /// When the cache was about to be opened.
    since: Instant,
}

/// What it did, and how many nanoseconds after that it began and ended.
#[derive(Drop)]
struct Done {
    outcome: Outcome,
    began: u128,
    ended: u128,
}

/// The result of a cache and its threads.
#[derive(Drop)]
pub struct Ran<D: Disk> {
    pub counts: Counts,
    /// What each thread did, in their order.
    pub outcomes: Vec<Outcome>,
    /// How many nanoseconds there were from the first thread's begin to the last one's end.
    pub time: u128,
    pub disk: D,
}

impl<R: Clock + Print + Wait> Work<R> for Worker<'_> {
    type Output = Result<Done>;

    ghost may_run = { λ _. Unit {0} };

    ghost keeps = { λ _ _ _. Unit {0} };

    fn run<K: Naming>(
        self,
        rt: &R,
        alloc: Global,
        cache: &Cache<K>,
        pass: &mut Pass<K>,
    ) -> Result<Done> {
        let Worker { duty, scene, since } = self;
        let began = since.elapsed(rt)?.as_nanos();
        let outcome = match duty {
            Duty::Mix(mix) => Outcome::Steps(mix_calls(rt, alloc, cache, pass, scene, mix)),
            Duty::Script(part) => {
                Outcome::Replies(run_part(rt, alloc, cache, pass, &scene.lines, part)?)
            }
            Duty::Define(turn) => Outcome::Stored(define_all(rt, alloc, cache, pass, scene, turn)),
            Duty::LookUp(turn) => Outcome::Looks(look_up_all(rt, cache, scene, turn)),
        };
        let ended = since.elapsed(rt)?.as_nanos();
        Ok(Done {
            outcome,
            began,
            ended,
        })
    }
}

fn workers<'a, R: Clock>(
    rt: &R,
    alloc: Global,
    scene: &'a Scene<'a>,
    duties: &[Duty],
) -> Result<Vec<Worker<'a>>> {
    let since = Instant::now(rt)?;
    let mut workers = Vec::new(alloc);
    for duty in duties {
        workers.push(Worker {
            duty: *duty,
            scene,
            since,
        })?;
    }
    Ok(workers)
}

// The cache on a disk, ready to run.
fn ready<R, D>(rt: &R, alloc: Global, disk: D) -> Result<Opened<D>>
where
    R: Threads + Sync,
    D: Disk + Drop,
{
    match open(rt, alloc, disk, 1) {
        Ok(opened) => Ok(opened),
        Err(not_opened) => bail!("{}", not_opened.fault),
    }
}

/// Opens the cache on a disk, and has threads do these duties on it.
pub fn run_duties<R, D>(
    rt: &R,
    alloc: Global,
    disk: D,
    scene: &Scene<'_>,
    duties: &[Duty],
) -> Result<Ran<D>>
where
    R: Clock + Print + Threads + Wait + Copy + Send + Sync + 'static,
    D: Disk + Drop + Send + 'static,
{
    let workers = workers(rt, alloc, scene, duties)?;
    let Finished {
        output,
        counts,
        disk,
    } = ready(rt, alloc, disk)?.run_in_threads(rt, alloc, workers)?;
    let mut outcomes = Vec::new(alloc);
    let (mut first, mut last) = (u128::MAX, 0);
    for done in output? {
        let Done {
            outcome,
            began,
            ended,
        } = done?;
        outcomes.push(outcome)?;
        first = first.min(began);
        last = last.max(ended);
    }
    Ok(Ran {
        counts,
        outcomes,
        time: last.saturating_sub(first),
        disk,
    })
}

//! Caches in files that several threads use at once.

mod defining;
mod mixing;
mod report;
mod running;
mod scene;
mod scripting;

use crate::command::{Scripting, Soaking, Threading};
use crate::file::{CountedDisk, make_file};
use crate::threads::defining::Turn;
use crate::threads::mixing::{LOADERS, Mix};
use crate::threads::report::{print_counts, print_replies, print_steps, print_sums};
use crate::threads::running::{Duty, Ran, run_duties};
use crate::threads::scene::Scene;
use crate::threads::scripting::{Part, lines_of};
use anyhow::Result;
use cm_file_disk::FileDisk;
use cm_stream::read_stream;
use std::alloc::{AllocError, Global};
use std::fs::{File, Files};
use std::rt::Clock;
use std::sync::Wait;
use std::thread::Threads;
use std::time::{Duration, Instant};

/// Random calls for each of `threads` threads, from now on.
fn mixes(rt: &(impl Clock + AllocGlobal), soaking: &Soaking) -> Result<Vec<Duty>> {
    let start = Instant::now(rt)?;
    let limit = Duration::from_secs(u64::from(soaking.seconds));
    let mut duties = Vec::new(rt.alloc());
    for thread in 0..soaking.threads {
        duties.push(Duty::Mix(Mix {
            thread,
            start,
            limit,
            is_live: soaking.is_live,
        }))?;
    }
    Ok(duties)
}

/// Has threads make random calls on the cache in a file.
fn run_mixes<R>(rt: &R, soaking: &Soaking, scene: &Scene<'_>) -> Result<Ran<FileDisk>>
where
    R: Clock + Files<File = File> + Print + AllocGlobal,
    R: Threads + Wait + Copy + Send + Sync + 'static,
{
    let disk = cm_region_file::open(rt, &soaking.path)?;
    let duties = mixes(rt, soaking)?;
    run_duties(rt, rt.alloc(), disk, scene, &duties)
}

/// Has threads change the cache in a file and look up classes in it for a while, and prints each
/// call with its result: as it is made, or each thread's at the end.
pub fn soak<R>(rt: &R, soaking: &Soaking) -> Result<()>
where
    R: Clock + Files<File = File> + Input + Print + AllocGlobal,
    R: Threads + Wait + Copy + Send + Sync + 'static,
{
    let bytes = read_stream(rt.alloc(), rt.reader())?;
    let loaders = soaking.threads.saturating_mul(LOADERS);
    let scene = Scene::new(rt.alloc(), &bytes, loaders, 0)?;
    let ran = run_mixes(rt, soaking, &scene)?;
    if soaking.is_live {
        return print_counts(rt, ran.counts);
    }
    print_steps(rt, &scene, &ran.outcomes, ran.counts)
}

/// The parts of a script, one for each of `threads` threads.
fn parts(alloc: Global, threads: u32) -> Result<Vec<Duty>, AllocError> {
    let mut duties = Vec::new(alloc);
    for thread in 0..threads {
        duties.push(Duty::Script(Part { thread, threads }))?;
    }
    Ok(duties)
}

/// Has threads do what the lines of a script request of the cache in a file, each its part of them,
/// and prints the result of each line.
pub fn script<R>(rt: &R, scripting: &Scripting) -> Result<()>
where
    R: Clock + Files<File = File> + Input + Print + AllocGlobal,
    R: Threads + Wait + Copy + Send + Sync + 'static,
{
    let alloc = rt.alloc();
    let text = read_stream(alloc, rt.reader())?;
    let scene = Scene::of_lines(alloc, lines_of(alloc, &text)?);
    let disk = cm_region_file::open(rt, &scripting.path)?;
    let duties = parts(alloc, scripting.threads)?;
    let ran = run_duties(rt, alloc, disk, &scene, &duties)?;
    print_replies(rt, &ran.outcomes, ran.counts)
}

/// The duties of the threads that define, and of those that look up.
fn turns(alloc: Global, threading: &Threading) -> Result<Vec<Duty>, AllocError> {
    let mut duties = Vec::new(alloc);
    for thread in 0..threading.threads {
        duties.push(Duty::Define(turn(threading, thread)))?;
    }
    for thread in 0..threading.finders {
        duties.push(Duty::LookUp(turn(threading, thread)))?;
    }
    Ok(duties)
}

fn turn(threading: &Threading, thread: u32) -> Turn {
    Turn {
        thread,
        threads: threading.threads,
        is_prepared: threading.is_prepared,
    }
}

/// Makes a file, and has threads do their turns on its cache.
fn run_turns<R>(
    rt: &R,
    threading: &Threading,
    scene: &Scene<'_>,
) -> Result<Ran<CountedDisk<FileDisk>>>
where
    R: Clock + Files<File = File> + Print + AllocGlobal,
    R: Threads + Wait + Copy + Send + Sync + 'static,
{
    make_file(rt, &threading.path, threading.geometry)?;
    let disk = CountedDisk::new(cm_region_file::open(rt, &threading.path)?);
    let duties = turns(rt.alloc(), threading)?;
    run_duties(rt, rt.alloc(), disk, scene, &duties)
}

/// Has threads define classes one at a time in a new file, each in a loader of its own, while
/// others look them up.
pub fn bench<R>(rt: &R, threading: &Threading) -> Result<()>
where
    R: Clock + Files<File = File> + Input + Print + AllocGlobal,
    R: Threads + Wait + Copy + Send + Sync + 'static,
{
    let alloc = rt.alloc();
    let bytes = read_stream(alloc, rt.reader())?;
    let scene = Scene::new(alloc, &bytes, threading.threads, threading.threads)?;
    let ran = run_turns(rt, threading, &scene)?;
    let time = if threading.is_timed {
        Some(ran.time)
    } else {
        None
    };
    print_sums(rt, &ran.outcomes, ran.counts, ran.disk.counts(), time)
}

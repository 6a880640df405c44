//! What is printed about a step.

use crate::classes::lookups::{Lookup, Subject};
use crate::classes::pools::{Crowd, CrowdedPool};
use crate::classes::samples::Samples;
use crate::classes::step::Step;
use anyhow::Result;
use std::rt::Clock;
use std::time::{Duration, Instant};

/// The bytes of all of the classes.
fn total_len(classes: &[&[u8]]) -> usize {
    let mut total: usize = 0;
    for class in classes {
        total = total.saturating_add(class.len());
    }
    total
}

/// The least time that the step takes over all of its samples, in `passes` passes.
fn best_pass(
    rt: &(impl Clock + AllocGlobal),
    step: Step,
    samples: &Samples,
    passes: u32,
) -> Result<Duration> {
    let alloc = rt.alloc();
    let mut best = Duration::MAX;
    for _ in 0..passes {
        let start = Instant::now(rt)?;
        step.run(alloc, samples)?;
        best = best.min(start.elapsed(rt)?);
    }
    Ok(best)
}

/// Tenths of a million bytes per second.
fn rate(bytes: usize, time: Duration) -> u128 {
    bytes as u128 * 10_000 / time.as_nanos().max(1)
}

/// Runs a step once, and then in timed passes, and prints its line.
pub fn report(
    rt: &(impl Clock + Print + AllocGlobal),
    step: Step,
    samples: &Samples,
    passes: Option<u32>,
) -> Result<()> {
    let name = step.name();
    let classes = step.classes(samples);
    let (count, bytes) = (classes.len(), total_len(classes));
    let faults = step.run(rt.alloc(), samples)?;
    print!(rt; "{name} classes {count} bytes {bytes} faults {faults}")?;
    if let Some(passes) = passes {
        let best = best_pass(rt, step, samples, passes)?;
        let (nanos, rate) = (best.as_nanos(), rate(bytes, best));
        let (whole, tenths) = (rate / 10, rate % 10);
        print!(rt; " best {nanos} ns {whole}.{tenths} MB/s")?;
    }
    println!(rt;)?;
    Ok(())
}

/// The least time that the calls of a look-up take, in `passes` passes.
fn best_of_lookup(
    rt: &(impl Clock + AllocGlobal),
    lookup: Lookup,
    subjects: &[Subject],
    passes: u32,
) -> Result<Duration> {
    let alloc = rt.alloc();
    let mut best = Duration::MAX;
    for _ in 0..passes {
        let start = Instant::now(rt)?;
        lookup.run(alloc, subjects)?;
        best = best.min(start.elapsed(rt)?);
    }
    Ok(best)
}

/// Makes the calls of a look-up once, and then in timed passes, and prints its line.
pub fn report_lookup(
    rt: &(impl Clock + Print + AllocGlobal),
    lookup: Lookup,
    subjects: &[Subject],
    passes: Option<u32>,
) -> Result<()> {
    let name = lookup.name();
    let tally = lookup.run(rt.alloc(), subjects)?;
    let (calls, found) = (tally.calls, tally.found);
    print!(rt; "{name} calls {calls} found {found}")?;
    if let Some(passes) = passes {
        let nanos = best_of_lookup(rt, lookup, subjects, passes)?.as_nanos();
        let each = nanos / (calls as u128).max(1);
        print!(rt; " best {nanos} ns {each} ns a call")?;
    }
    println!(rt;)?;
    Ok(())
}

/// The least time that a crowded pool takes, in `passes` passes.
fn best_of_pool(rt: &impl Clock, pool: &mut CrowdedPool, passes: u32) -> Result<Duration> {
    let mut best = Duration::MAX;
    for _ in 0..passes {
        let start = Instant::now(rt)?;
        let _tally = pool.run(); // reported once, by another run
        best = best.min(start.elapsed(rt)?);
    }
    Ok(best)
}

/// Takes a block of a crowded pool and gives it back, many times in each pass, and prints a line.
pub fn report_pool(
    rt: &(impl Clock + Print + AllocGlobal),
    crowd: Crowd,
    passes: Option<u32>,
) -> Result<()> {
    let Some(mut pool) = CrowdedPool::new(rt.alloc(), crowd)? else {
        return Ok(());
    };
    let name = crowd.name();
    let tally = pool.run();
    let (calls, found) = (tally.calls, tally.found);
    print!(rt; "{name} calls {calls} found {found}")?;
    if let Some(passes) = passes {
        let nanos = best_of_pool(rt, &mut pool, passes)?.as_nanos();
        let each = nanos / (calls as u128).max(1);
        print!(rt; " best {nanos} ns {each} ns to take and give back")?;
    }
    println!(rt;)?;
    Ok(())
}

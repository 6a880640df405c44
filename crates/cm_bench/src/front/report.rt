//! What is printed.

use crate::front::phase::{Phase, Tally};
use crate::front::samples::Samples;
use crate::front::stage::Stage;
use anyhow::Result;
use std::rt::Clock;
use std::time::{Duration, Instant};

/// The results of the calls of a phase, and the least time that they took in a pass.
#[derive(Clone, Copy)]
struct Measured {
    phase: Phase,
    tally: Tally,
    best: Duration,
}

/// Runs a phase on a cache.
fn measure(
    rt: &impl Clock,
    stage: &mut Stage,
    phase: Phase,
    samples: &Samples,
) -> Result<Measured> {
    stage.make_ready(phase, samples)?;
    let start = Instant::now(rt)?;
    let tally = stage.run(phase, samples);
    let best = start.elapsed(rt)?;
    Ok(Measured { phase, tally, best })
}

/// Runs all phases on a cache.
fn measure_all(
    rt: &(impl Clock + AllocGlobal),
    stage: &mut Stage,
    samples: &Samples,
) -> Result<Vec<Measured>> {
    let mut all = Vec::with_capacity(rt.alloc(), Phase::ALL.len())?;
    for phase in Phase::ALL {
        all.push(measure(rt, stage, phase, samples)?)?;
    }
    Ok(all)
}

/// Runs all phases once, on a cache of its own.
fn pass(rt: &(impl Clock + AllocGlobal), samples: &Samples) -> Result<Vec<Measured>> {
    let mut stage = Stage::new(rt.alloc(), samples)?;
    measure_all(rt, &mut stage, samples)
}

/// Runs all phases in `count` passes.
fn passes(rt: &(impl Clock + AllocGlobal), samples: &Samples, count: u32) -> Result<Vec<Measured>> {
    let mut all = pass(rt, samples)?;
    for _ in 1..count {
        for (one, other) in all.iter_mut().zip(pass(rt, samples)?) {
            one.best = one.best.min(other.best);
        }
    }
    Ok(all)
}

/// Prints the line of a phase, with the nanoseconds per call if these are requested.
fn print_measured(rt: &impl Print, one: Measured, is_timed: bool) -> Result<()> {
    let (name, calls, done) = (one.phase.name(), one.tally.calls, one.tally.done);
    print!(rt; "  {name}: calls {calls} done {done}")?;
    if is_timed {
        let each = one.best.as_nanos() / (calls as u128).max(1);
        print!(rt; " {each} ns")?;
    }
    println!(rt;)?;
    Ok(())
}

/// Prints a line for each phase, with the nanoseconds per call if passes are requested.
pub fn report(
    rt: &(impl Clock + Print + AllocGlobal),
    samples: &Samples,
    times: Option<u32>,
) -> Result<()> {
    let scene = samples.scene;
    let (spread, naming, size) = (scene.spread.name(), scene.naming.name(), scene.size.name());
    let (classes, met) = (samples.classes.len(), samples.met);
    println!(rt; "{classes} {size}, {spread}, {naming} of which {met} meet")?;
    for one in &passes(rt, samples, times.unwrap_or(1))? {
        print_measured(rt, *one, times.is_some())?;
    }
    Ok(())
}

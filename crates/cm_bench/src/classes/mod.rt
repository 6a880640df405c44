//! Class files: reading, judging and recording them, looking into records, and the pools from which
//! blocks for records are taken.

mod lookups;
mod methods;
mod pools;
mod report;
mod samples;
mod step;

use crate::classes::lookups::{Lookup, subjects};
use crate::classes::methods::print_methods;
use crate::classes::pools::Crowd;
use crate::classes::report::{report, report_lookup, report_pool};
use crate::classes::samples::Samples;
use crate::classes::step::Step;
use anyhow::Result;
use cm_stream::{classes_in, read_stream};
use std::rt::Clock;

/// The steps, in the order in which they are run.
const STEPS: [Step; 4] = [
    Step::ReadShape,
    Step::ReadClass,
    Step::ReadAndBuild,
    Step::ReadRecord,
];

/// Prints the methods of the classes on standard input.
pub fn list_methods(rt: &(impl Input + Print + AllocGlobal)) -> Result<()> {
    let bytes = read_stream(rt.alloc(), rt.reader())?;
    print_methods(rt, &classes_in(rt.alloc(), &bytes)?)
}

/// Runs each step over samples.
fn bench_steps(
    rt: &(impl Clock + Print + AllocGlobal),
    samples: &Samples,
    passes: Option<u32>,
) -> Result<()> {
    for step in STEPS {
        report(rt, step, samples, passes)?;
    }
    Ok(())
}

/// Looks into the records of class files.
fn bench_lookups(
    rt: &(impl Clock + Print + AllocGlobal),
    recorded: &[&[u8]],
    passes: Option<u32>,
) -> Result<()> {
    let subjects = subjects(rt.alloc(), recorded)?;
    for lookup in Lookup::ALL {
        report_lookup(rt, lookup, &subjects, passes)?;
    }
    Ok(())
}

/// Takes blocks of crowded pools. This is done only if times are requested: counts say nothing
/// here, and the pools are large.
fn bench_pools(rt: &(impl Clock + Print + AllocGlobal), passes: Option<u32>) -> Result<()> {
    for crowd in Crowd::ALL {
        report_pool(rt, crowd, passes)?;
    }
    Ok(())
}

/// Runs the steps over the classes on standard input, and looks into their records.
pub fn bench(rt: &(impl Clock + Input + Print + AllocGlobal), passes: Option<u32>) -> Result<()> {
    let alloc = rt.alloc();
    let bytes = read_stream(alloc, rt.reader())?;
    let samples = Samples::new(alloc, classes_in(alloc, &bytes)?)?;
    bench_steps(rt, &samples, passes)?;
    bench_lookups(rt, &samples.recorded, passes)?;
    if passes.is_some() {
        bench_pools(rt, passes)?;
    }
    Ok(())
}

//! Random changes and lookups, for a while.

use crate::threads::report::print_live;
use crate::threads::scene::{Sample, Scene};
use cm_commands::{Refusal, prepare};
use cm_library::{Cache, Names, Naming, Pass, Record};
use rand_core::Rng;
use rand_pcg::Pcg32;
use std::alloc::{AllocError, Global};
use std::rt::Clock;
use std::sync::{Arc, Wait};
use std::time::{Duration, Instant};

/// How many loaders a thread has of its own.
pub const LOADERS: u32 = 2;

/// How many calls a thread makes at most.
const MOST_CALLS: u32 = 10_000_000;

/// Until when a thread continues, which thread it is, and whether each call is printed before it is
/// made, and again as it returns.
#[derive(Clone, Copy, Debug)]
pub struct Mix {
    pub thread: u32,
    pub start: Instant,
    pub limit: Duration,
    pub is_live: bool,
}

/// What a call requests, of which loader and which class.
#[derive(Clone, Copy, Debug)]
pub enum Asked {
    Loader(usize),
    Unload(usize),
    Tighten(usize),
    /// Two loaders at once.
    UnloadAll(usize, usize),
    Define(usize, usize),
    Find(usize, usize),
}

/// The result of a call.
#[derive(Clone, Copy, Debug)]
pub enum Answer {
    Number(u64),
    /// Accepted with this number, but it isn't known whether it is stored.
    Unsure(u64),
    /// Refused, with the number of the refusal.
    Refused(u8),
    /// A class was found, whose record has this many words.
    Words(u32),
    Nothing,
}

/// A call, and its result.
#[derive(Clone, Copy, Debug)]
pub struct Step {
    pub asked: Asked,
    pub answer: Answer,
}

/// A random number below a count.
fn below(rng: &mut Pcg32, count: usize) -> usize {
    (rng.next_u32() as usize).checked_rem(count).unwrap_or(0)
}

/// What to request next: mostly classes.
fn next_asked(rng: &mut Pcg32, thread: u32, classes: usize) -> Asked {
    let own = below(rng, LOADERS as usize);
    let first = (thread as usize).wrapping_mul(LOADERS as usize);
    let loader = first.wrapping_add(own);
    let class = below(rng, classes);
    match below(rng, 32) {
        0 => Asked::Unload(loader),
        1 => Asked::UnloadAll(first, first.wrapping_add(1)),
        2 | 3 => Asked::Tighten(loader),
        4..=7 => Asked::Loader(loader),
        8..=21 => Asked::Define(loader, class),
        _ => Asked::Find(loader, class),
    }
}

/// The result of a change.
pub fn answer_of(answer: Result<u64, Refusal>) -> Answer {
    match answer {
        Ok(number) => Answer::Number(number),
        Err(Refusal::Unsure(number)) => Answer::Unsure(number),
        Err(refusal) => Answer::Refused(refusal.number()),
    }
}

/// Prepares a class, as a class loader that has its bytes does, and defines it.
fn define<K: Naming, R: Wait>(
    rt: &R,
    alloc: Global,
    cache: &Cache<K>,
    pass: &mut Pass<K>,
    loader: &[u8],
    sample: &Sample<'_>,
) -> Result<u64, Refusal> {
    let class = prepare(alloc, sample.bytes)?;
    cache.define(rt, pass, loader, class)
}

/// The result of a look-up.
pub fn found(record: Result<Option<Arc<Record, Global>>, AllocError>) -> Answer {
    match record {
        Ok(Some(record)) => Answer::Words(record.words()),
        Ok(None) => Answer::Nothing,
        Err(_) => Answer::Refused(Refusal::NoMemory.number()),
    }
}

/// Makes a call. A class that doesn't exist is never found.
fn call<K: Naming, R: Wait>(
    rt: &R,
    alloc: Global,
    cache: &Cache<K>,
    pass: &mut Pass<K>,
    scene: &Scene<'_>,
    asked: Asked,
) -> Answer {
    match asked {
        Asked::Loader(loader) => answer_of(cache.add_loader(
            rt,
            pass,
            scene.loader(loader).as_bytes(),
        )),
        Asked::Unload(loader) => answer_of(cache.unload(rt, pass, scene.loader(loader).as_bytes())),
        Asked::Tighten(loader) => answer_of(cache.tighten(
            rt,
            pass,
            scene.loader(loader).as_bytes(),
        )),
        Asked::UnloadAll(first, second) => answer_of(cache.unload_all(
            rt,
            pass,
            Names::new(&[
                scene.loader(first).as_bytes(),
                scene.loader(second).as_bytes(),
            ]),
        )),
        Asked::Define(loader, class) => match scene.samples.get(class) {
            Some(sample) => {
                answer_of(define(
                    rt,
                    alloc,
                    cache,
                    pass,
                    scene.loader(loader).as_bytes(),
                    sample,
                ))
            }
            None => Answer::Nothing,
        },
        Asked::Find(loader, class) => match scene.samples.get(class) {
            Some(sample) => found(cache.find(rt, scene.loader(loader).as_bytes(), &sample.name)),
            None => Answer::Nothing,
        },
    }
}

/// Whether a thread's time is over, or can't be read.
fn is_over(rt: &impl Clock, mix: Mix) -> bool {
    match mix.start.elapsed(rt) {
        Ok(elapsed) => elapsed >= mix.limit,
        Err(_) => true,
    }
}

/// Prints a call, if calls are printed as they are made. `false` if that fails.
fn is_printed(
    rt: &impl Print,
    alloc: Global,
    scene: &Scene<'_>,
    mix: Mix,
    asked: Asked,
    answer: Option<Answer>,
) -> bool {
    !mix.is_live || print_live(rt, alloc, scene, mix.thread, asked, answer).is_ok()
}

/// Makes calls until the time is over. A call that isn't kept, because an allocation failed, or
/// can't be printed, is the last.
pub fn mix_calls<K: Naming, R: Clock + Print + Wait>(
    rt: &R,
    alloc: Global,
    cache: &Cache<K>,
    pass: &mut Pass<K>,
    scene: &Scene<'_>,
    mix: Mix,
) -> Vec<Step> {
    let mut steps = Vec::new(alloc);
    let mut rng = Pcg32::new(42, u64::from(mix.thread));
    for _ in 0..MOST_CALLS {
        if is_over(rt, mix) {
            return steps;
        }
        let asked = next_asked(&mut rng, mix.thread, scene.samples.len());
        if !is_printed(rt, alloc, scene, mix, asked, None) {
            return steps;
        }
        let answer = call(rt, alloc, cache, pass, scene, asked);
        if !is_printed(rt, alloc, scene, mix, asked, Some(answer)) {
            return steps;
        }
        if steps.push(Step { asked, answer }).is_err() {
            return steps;
        }
    }
    steps
}

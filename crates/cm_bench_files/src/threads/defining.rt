//! Classes that are defined one at a time, and looked up meanwhile.

use crate::threads::scene::{Sample, Scene};
use cm_commands::{Prepared, Refusal, prepare};
use cm_library::{Cache, Naming, Pass};
use rand_core::Rng;
use rand_pcg::Pcg32;
use std::alloc::Global;
use std::rt::Clock;
use std::sync::Wait;
use std::time::{Duration, Instant};

/// Which classes a thread defines: `threads` threads take turns.
#[derive(Clone, Copy, Debug)]
pub struct Turn {
    pub thread: u32,
    pub threads: u32,
    /// Whether the classes are prepared before the time that is measured.
    pub is_prepared: bool,
}

/// The result of a thread's lookups.
#[derive(Clone, Copy, Debug)]
pub struct Looks {
    pub calls: u64,
    pub found: u64,
    /// How long all of them took, and the longest one.
    pub time: Duration,
    pub longest: Duration,
}

/// How many lookups are made at most, while classes are still being defined.
const MOST_LOOKS: u32 = 100_000_000;

fn class_of(alloc: Global, sample: &Sample<'_>, turn: Turn) -> Result<Prepared, Refusal> {
    if turn.is_prepared {
        Ok(sample.class.share()?)
    } else {
        Ok(prepare(alloc, sample.bytes)?)
    }
}

fn define<K: Naming, R: Wait>(
    rt: &R,
    alloc: Global,
    cache: &Cache<K>,
    pass: &mut Pass<K>,
    loader: &[u8],
    sample: &Sample<'_>,
    turn: Turn,
) -> Result<u64, Refusal> {
    let class = class_of(alloc, sample, turn)?;
    cache.define(rt, pass, loader, class)
}

/// Makes a loader, and defines each class in it whose turn it is. Returns how many commands were
/// stored.
pub fn define_all<K: Naming, R: Wait>(
    rt: &R,
    alloc: Global,
    cache: &Cache<K>,
    pass: &mut Pass<K>,
    scene: &Scene<'_>,
    turn: Turn,
) -> u64 {
    let loader = scene.loader(turn.thread as usize).as_bytes();
    let mut stored = u64::from(cache.add_loader(rt, pass, loader).is_ok());
    for (at, sample) in scene.samples.iter().enumerate() {
        if turn_of(at, turn.threads) == turn.thread as usize {
            let defined = define(rt, alloc, cache, pass, loader, sample, turn).is_ok();
            stored = stored.wrapping_add(u64::from(defined));
        }
    }
    scene.end_one();
    stored
}

/// Whose turn a class is.
fn turn_of(at: usize, threads: u32) -> usize {
    at.checked_rem(threads as usize).unwrap_or(0)
}

/// Looks up a random class, in the loader in which it is defined.
fn look_up<K: Naming, R: Wait>(
    rt: &R,
    cache: &Cache<K>,
    scene: &Scene<'_>,
    rng: &mut Pcg32,
    threads: u32,
) -> bool {
    let at = (rng.next_u32() as usize)
        .checked_rem(scene.samples.len())
        .unwrap_or(0);
    let loader = scene.loader(turn_of(at, threads)).as_bytes();
    match scene.samples.get(at) {
        Some(sample) => matches!(cache.find(rt, loader, &sample.name), Ok(Some(_))),
        None => false,
    }
}

/// Looks up classes until all are defined.
pub fn look_up_all<K: Naming, R: Clock + Wait>(
    rt: &R,
    cache: &Cache<K>,
    scene: &Scene<'_>,
    turn: Turn,
) -> Looks {
    let mut rng = Pcg32::new(42, u64::from(turn.thread));
    let mut looks = Looks::NONE;
    for _ in 0..MOST_LOOKS {
        if !scene.is_going_on() {
            return looks;
        }
        let start = Instant::now(rt).ok();
        let found = look_up(rt, cache, scene, &mut rng, turn.threads);
        looks.add(found, time_since(rt, start));
    }
    looks
}

fn time_since(rt: &impl Clock, start: Option<Instant>) -> Duration {
    match start {
        Some(start) => start.elapsed(rt).unwrap_or(Duration::ZERO),
        None => Duration::ZERO,
    }
}

impl Looks {
    /// No lookups yet.
    pub const NONE: Looks = Looks {
        calls: 0,
        found: 0,
        time: Duration::ZERO,
        longest: Duration::ZERO,
    };

    fn add(&mut self, found: bool, time: Duration) {
        self.calls = self.calls.wrapping_add(1);
        self.found = self.found.wrapping_add(u64::from(found));
        self.time = self.time.saturating_add(time);
        self.longest = self.longest.max(time);
    }

    /// Adds those of another thread.
    pub fn join(&mut self, other: Looks) {
        self.calls = self.calls.wrapping_add(other.calls);
        self.found = self.found.wrapping_add(other.found);
        self.time = self.time.saturating_add(other.time);
        self.longest = self.longest.max(other.longest);
    }
}

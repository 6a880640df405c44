//! Classes that are prepared at once.

ghost use Rattle.std.specs.Prelude.{◌≡◌, ◌≤◌, ◌+◌, true, false, length, All, IsSome};

use crate::job::Job;
use cm_found_classes::Place;
use cm_jar::Entry;
use std::alloc::Global;
use std::num::NonZeroUsize;
use std::thread::{self, Threads};

/// How many classes are prepared at once at most, and how many bytes they have then, unless the
/// first has more.
const MOST_CLASSES: usize = 1_024;

const MOST_BYTES: u64 = 67_108_864;

/// How many classes are prepared at once, and how many bytes they have.
#[derive(Clone, Copy, Debug)]
struct Batch {
    count: usize,
    bytes: u64,
}

impl Batch {
    const EMPTY: Batch = Batch { count: 0, bytes: 0 };

    /// Takes one more class of this length, if there is room for it.
    fn takes(&mut self, len: u64) -> bool
        ensures taken { result ≡ true → self.new.count ≡ self.old.count + 1 }
        ensures left { result ≡ false → self.new ≡ self.old }
    {
        let bytes = self.bytes.saturating_add(len);
        let has_room = self.count < MOST_CLASSES && bytes <= MOST_BYTES;
        if !has_room && self.count > 0 {
            return false;
        }
        self.count += 1;
        self.bytes = bytes;
        true
    }
}

/// How many of these places, from the last one back, are class files that are prepared at once.
pub fn files_at_once(places: &[Place]) -> usize
    ensures { result ≤ length places.now }
{
    let mut batch = Batch::EMPTY;
    for at in 0..places.len() {
        match &places[places.len() - 1 - at] {
            Place::ClassFile(_, len) if batch.takes(*len) => {}
            _ => break,
        }
    }
    batch.count
}

/// How many of these entries are prepared at once.
pub fn entries_at_once(entries: &[Entry<'_>]) -> usize
    ensures { result ≤ length entries.now }
{
    let mut batch = Batch::EMPTY;
    for entry in entries {
        if !batch.takes(u64::from(entry.size())) {
            break;
        }
    }
    batch.count
}

/// Prepares classes, in at most this many threads. What becomes of each is what one thread would
/// make of it.
pub fn run_all<R>(rt: &R, alloc: Global, jobs: &mut [Job<'_>], workers: NonZeroUsize)
where
    R: Threads + Sync,
    ensures { All (λ job. IsSome job.outcome) jobs.new }
{
    thread::for_each_mut(
        rt,
        jobs,
        workers.get(),
        &|_, job: &mut Job<'_>| { job.run(alloc) },
    );
}

//! Threads that define classes while the device fails.

use crate::running::{formatted, opened, ready};
use cm_commands::Command;
use cm_commit::Committer;
use cm_disk::{FuseDisk, SimDisk};
use cm_front::Front;
use cm_library::{Cache, Counts, Finished, Naming, Pass, Prepared, Refusal, Work};
use cm_recover::{NotOpened, open};
use cm_samples::class;
use std::alloc::Global;
use std::sync::Wait;
use std::test::*;

/// The class that each thread defines.
const CLASSES: [u8; 3] = *b"ABC";

/// How many device calls succeed once the cache is started. The first class's group takes zeros of
/// a root, the record and the slots, and then a sync.
const CALLS: u64 = 3;

/// More device calls than opening takes.
const MOST: u64 = 64;

/// How many commands are unsure, and how many were refused because the device had failed before.
#[derive(Clone, Copy, Debug, PartialEq, Eq)]
struct Failed {
    unsure: u64,
    broken: u64,
}

/// A thread's work: a class of its own.
#[derive(Drop)]
struct Definer {
    class: Prepared,
}

impl<R: Wait> Work<R> for Definer {
    type Output = Failed;

    ghost may_run = { λ _. Unit {0} };

    ghost keeps = { λ _ _ _. Unit {0} };

    fn run<K: Naming>(
        self,
        rt: &R,
        _alloc: Global,
        cache: &Cache<K>,
        pass: &mut Pass<K>,
    ) -> Failed {
        let Definer { class } = self;
        let (unsure, broken) = match cache.define(rt, pass, b"app", class) {
            Err(Refusal::Unsure(_)) => (1, 0),
            Err(Refusal::Broken) => (0, 1),
            Ok(_) | Err(_) => (0, 0),
        };
        Failed { unsure, broken }
    }
}

/// Accepts a loader and stores it, in four device calls.
fn store_loader(front: &mut Front, committer: &mut Committer<SimDisk>) -> Option<u64> {
    let _number = front.accept(Command::AddLoader(b"app")).ok()?;
    let group = front.seal()?;
    if committer.offer(group).is_err() {
        return None;
    }
    for _call in 0..committer.steps_left() {
        let _progress = committer.advance().ok()?;
    }
    Some(committer.number())
}

/// A disk that holds only a loader.
pub fn with_loader(alloc: Global) -> Result<SimDisk, Fail> {
    let (mut front, mut committer) = opened(alloc, formatted(alloc)?)?;
    let number = store_loader(&mut front, &mut committer);
    let disk = committer.into_disk();
    if number != Some(1) {
        return Err("the loader is stored".into());
    }
    Ok(disk)
}

/// Whether this many device calls are enough to open what a disk holds; and the disk.
fn opens_in(alloc: Global, disk: SimDisk, calls: u64) -> (bool, SimDisk) {
    match open(alloc, FuseDisk::new(disk, calls, 0)) {
        Ok((_front, committer)) => (true, committer.into_disk().into_inner()),
        Err(NotOpened { fault: _, disk }) => (false, disk.into_inner()),
    }
}

/// How many device calls it takes to open what a disk holds; and the disk.
pub fn calls_to_open(alloc: Global, disk: SimDisk) -> (u64, SimDisk) {
    let mut disk = disk;
    for calls in 0..MOST {
        let (opens, back) = opens_in(alloc, disk, calls);
        disk = back;
        if opens {
            return (calls, disk);
        }
    }
    (MOST, disk)
}

/// The number of the last command that a disk holds.
fn number_in(alloc: Global, disk: SimDisk) -> Result<u64, Fail> {
    let (_front, committer) = opened(alloc, disk)?;
    let number = committer.number();
    let _disk = committer.into_disk();
    Ok(number)
}

#[test]
fn three_threads_meet_a_device_that_fails(rt: HostRuntime) -> Result<(), Fail> {
    let alloc = rt.alloc();
    let (calls, disk) = calls_to_open(alloc, with_loader(alloc)?);
    let fuse = FuseDisk::new(disk, calls.saturating_add(CALLS), 0);
    let mut definers = Vec::new(alloc);
    for name in &CLASSES {
        let class = class(alloc, &[*name])?;
        definers.push(Definer { class })?;
    }
    let Finished {
        output,
        counts,
        disk,
    } = ready(&rt, alloc, fuse)?.run_in_threads(&rt, alloc, definers)?;
    let (mut unsure, mut broken) = (0u64, 0u64);
    for failed in output? {
        unsure = unsure.saturating_add(failed.unsure);
        broken = broken.saturating_add(failed.broken);
    }
    let number = number_in(alloc, disk.into_inner())?;
    assert_eq!(rt;
        (unsure > 0, unsure.saturating_add(broken), number),
        (true, 3, 1)
    );
    assert_eq!(rt;
        counts,
        Counts {
            handed: unsure,
            committed: 0,
            of_passes: unsure,
            missing: 0,
        }
    );
    Ok(())
}

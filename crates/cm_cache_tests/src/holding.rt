//! While one sync is held up, commands and lookups aren't.

use crate::fused::with_loader;
use crate::held_disk::{Gate, HeldDisk, Hold};
use crate::running::ready;
use cm_library::{Cache, Counts, Finished, Naming, Pass, Prepared, Work};
use cm_samples::class;
use std::alloc::Global;
use std::sync::Wait;
use std::test::*;
use std::thread::yield_now;

/// For how many turns a thread waits at most.
const TURNS: u64 = 20_000_000;

/// The first sync of the group with the first class: after one to open the file.
const HELD: Hold = Hold {
    sync: 2,
    count: 1,
    turns: TURNS,
};

/// What a thread does.
#[derive(Drop)]
enum Job {
    /// Defines a class.
    Define(Prepared),
    /// The same, once a sync is held.
    DefineHeld(Prepared),
    /// Lets the sync continue, once the classes `B` and `C` are found.
    Watch,
}

/// A thread's work: a job, with the gate that holds a sync. It returns whether all went well.
#[derive(Drop)]
struct Gated<'a> {
    job: Job,
    gate: &'a Gate,
}

fn await_hold(gate: &Gate) -> bool {
    for _ in 0..TURNS {
        if gate.held() {
            return true;
        }
        yield_now();
    }
    false
}

fn is_found<K: Naming, R: Wait>(rt: &R, cache: &Cache<K>, name: u8) -> bool {
    matches!(cache.find(rt, b"app", &[name]), Ok(Some(_)))
}

fn await_classes<K: Naming, R: Wait>(rt: &R, cache: &Cache<K>) -> bool {
    for _ in 0..TURNS {
        if is_found(rt, cache, b'B') && is_found(rt, cache, b'C') {
            return true;
        }
        yield_now();
    }
    false
}

impl<R: Wait> Work<R> for Gated<'_> {
    type Output = bool;

    ghost may_run = { λ _. Unit {0} };

    ghost keeps = { λ _ _ _. Unit {0} };

    fn run<K: Naming>(self, rt: &R, _alloc: Global, cache: &Cache<K>, pass: &mut Pass<K>) -> bool {
        let Gated { job, gate } = self;
        match job {
            Job::Define(class) => cache.define(rt, pass, b"app", class).is_ok(),
            Job::DefineHeld(class) => {
                let _held = await_hold(gate);
                cache.define(rt, pass, b"app", class).is_ok()
            }
            Job::Watch => {
                let found = await_classes(rt, cache);
                gate.bump();
                found
            }
        }
    }
}

#[test]
fn a_held_sync_holds_up_no_other(rt: HostRuntime) -> Result<(), Fail> {
    let alloc = rt.alloc();
    let disk = with_loader(alloc)?;
    let before = disk.syncs();
    let gate = Gate::new(alloc)?;
    let held = HeldDisk::new(disk, gate.share()?, HELD);
    let mut works = Vec::new(alloc);
    for job in [
        Job::Define(class(alloc, b"A")?),
        Job::DefineHeld(class(alloc, b"B")?),
        Job::DefineHeld(class(alloc, b"C")?),
        Job::Watch,
    ] {
        works.push(Gated { job, gate: &gate })?;
    }
    let Finished {
        output,
        counts,
        disk,
    } = ready(&rt, alloc, held)?.run_in_threads(&rt, alloc, works)?;
    let mut went_well = true;
    for well in output? {
        went_well = went_well && well;
    }
    // One sync to open the file, two for the first class, two for the others together.
    let syncs = disk.into_inner().syncs();
    assert_eq!(rt;
        (counts, went_well, syncs.saturating_sub(before)),
        (
            Counts {
                handed: 3,
                committed: 3,
                of_passes: 3,
                missing: 0,
            },
            true,
            5
        )
    );
    Ok(())
}

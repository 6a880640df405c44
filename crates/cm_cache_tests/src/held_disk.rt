//! A disk in memory, one sync of which waits until the test lets it continue.

ghost use Rattle.std.specs.Prelude.{◌≡◌};

use cm_disk::{DeviceFault, Disk, SimDisk, WordRange};
use cm_words::WordBuf;
use std::alloc::{AllocError, Global};
use std::sync::Arc;
use std::sync::atomic::{AtomicU64, Ordering};
use std::thread::yield_now;

/// How often a gate was bumped, and whether a sync waits at it. Its copies share both.
#[derive(Drop)]
pub struct Gate {
    count: Arc<AtomicU64>,
    held: Arc<AtomicU64>,
}

impl Gate {
    pub fn new(alloc: Global) -> Result<Gate, AllocError> {
        Ok(Gate {
            count: Arc::new(alloc, AtomicU64::new(0))?,
            held: Arc::new(alloc, AtomicU64::new(0))?,
        })
    }

    pub fn share(&self) -> Result<Gate, AllocError> {
        Ok(Gate {
            count: Arc::try_clone(&self.count)?,
            held: Arc::try_clone(&self.held)?,
        })
    }

    pub fn bump(&self) {
        self.count.fetch_add(1, Ordering::SeqCst);
    }

    pub fn count(&self) -> u64 {
        self.count.load(Ordering::SeqCst)
    }

    /// Whether a sync waits, or waited.
    pub fn held(&self) -> bool {
        self.held.load(Ordering::SeqCst) != 0
    }

    /// Waits until the count reaches a number, for at most this many turns. Returns whether it did.
    fn wait(&self, count: u64, turns: u64) -> bool {
        self.held.store(1, Ordering::SeqCst);
        for _ in 0..turns {
            if self.count() >= count {
                return true;
            }
            yield_now();
        }
        false
    }
}

/// Which sync waits, until which count of the gate, and for how many turns at most.
#[derive(Clone, Copy)]
pub struct Hold {
    pub sync: u64,
    pub count: u64,
    pub turns: u64,
}

/// A disk in memory, of which one sync waits at a gate. If it waits for too long, it fails.
#[derive(Drop)]
pub struct HeldDisk {
    disk: SimDisk,
    gate: Gate,
    hold: Hold,
    syncs: u64,
}

impl HeldDisk {
    pub fn new(disk: SimDisk, gate: Gate, hold: Hold) -> HeldDisk {
        HeldDisk {
            disk,
            gate,
            hold,
            syncs: 0,
        }
    }

    /// The disk, with all that happened to it.
    pub fn into_inner(self) -> SimDisk {
        self.disk
    }

    fn arm_if_held_too_long(&mut self)
        ensures { self.new.disk ≡ record self.old.disk { armed = self.new.disk.armed } }
    {
        self.syncs = self.syncs.saturating_add(1);
        let hold = self.hold;
        if self.syncs == hold.sync && !self.gate.wait(hold.count, hold.turns) {
            self.disk.arm(0);
        }
    }
}

impl Disk for HeldDisk {
    ghost use Rattle.std.proofs.Common.{inl};
    ghost use Rattle.cm_disk.specs.Moments.{none_since_now};
    ghost use Rattle.cm_cache_tests.specs.Held.{held_view};

    ghost view = { held_view };

    ghost called = { λ _ _ _. Unit {0} };

    ghost made = { λ _ _ _ _. Unit {0} };

    ghost sound = { λ d. d.disk.medium.sound };

    ghost counts_now = { λ d t image le now. inl now };

    ghost only_now = { λ d image left. none_since_now d.disk.history.moments image left };

    fn len(&mut self) -> Result<u64, DeviceFault> {
        self.disk.len()
    }

    fn read(&mut self, at: u64, out: &mut [u8]) -> Result<(), DeviceFault> {
        self.disk.read(at, out)
    }

    fn take_words(
        &mut self,
        alloc: Global,
        range: WordRange,
    ) -> Result<Result<WordBuf, AllocError>, DeviceFault> {
        self.disk.take_words(alloc, range)
    }

    fn write_at(&mut self, at: u64, bytes: &[u8]) -> Result<(), DeviceFault> {
        self.disk.write_at(at, bytes)
    }

    fn cut(&mut self, len: u64) -> Result<(), DeviceFault> {
        self.disk.cut(len)
    }

    fn sync(&mut self) -> Result<(), DeviceFault> {
        self.arm_if_held_too_long();
        self.disk.sync()
    }
}

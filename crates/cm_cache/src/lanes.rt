//! Where threads sleep until a command is stored.

ghost use Rattle.std.specs.Prelude.{◌≡◌, ◌≤◌, ◌<◌, vec_len, IfOk};

use std::alloc::{AllocError, Global};
use std::sync::{Condvar, Mutex, Wait};

/// How many lanes there are.
const LANES: u64 = 64;

/// Where those sleep who wait for some of the numbers. Who waits looks at the Board and goes to
/// sleep under this lock, and the writer takes it before it wakes them, so nobody sleeps through
/// what was just posted.
#[derive(Drop)]
pub struct Lane {
    pub waiting: Mutex<()>,
    pub posted: Condvar,
}

impl Lane {
    fn new() -> Lane {
        Lane {
            waiting: Mutex::new(()),
            posted: Condvar::new(),
        }
    }

    // Wakes all who sleep here.
    fn wake<R: Wait>(&self, rt: &R) {
        // Without the lock, or each would wake only to wait for it.
        drop(self.waiting.lock(rt));
        self.posted.notify_all();
    }
}

/// The lanes of a Board: those who wait for numbers that follow each other sleep on different ones,
/// so whoever wakes wakes for a number of its own.
#[derive(Drop)]
pub struct Lanes {
    lanes: Vec<Lane>,
    ghost has_lanes: { vec_len lanes ≡ 64 },
}

impl Lanes {
    /// Allocates them.
    pub fn new(alloc: Global) -> Result<Lanes, AllocError> {
        let mut lanes = Vec::new(alloc);
        while (lanes.len() as u64) < LANES {
            lanes.push(Lane::new())?;
        }
        Ok(Lanes { lanes })
    }

    /// Where those sleep who wait for this number.
    pub fn lane(&self, number: u64) -> &Lane {
        &self.lanes[(number % LANES) as usize]
    }

    /// Wakes those who wait for numbers after `old`, up to `new`.
    pub fn wake<R: Wait>(&self, rt: &R, old: u64, new: u64)
        requires { old ≤ new }
    {
        let count = (new - old).min(LANES);
        for back in 0..count {
            self.lane(new - back).wake(rt);
        }
    }

    /// Wakes all.
    pub fn wake_all<R: Wait>(&self, rt: &R) {
        for lane in &self.lanes {
            lane.wake(rt);
        }
    }
}

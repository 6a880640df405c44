//! A feed of groups that are there from the beginning.

ghost use Rattle.std.specs.Prelude.{length, None};

use crate::classes::classes;
use cm_commands::Prepared;
use cm_importing::{Feed, Outcome};
use std::alloc::{AllocError, Global};
use std::test::*;
use std::thread::Threads;

/// What a feed was told of its classes.
#[derive(Clone, Copy, Debug, PartialEq, Eq)]
pub struct Told {
    pub stored: u64,
    pub there: u64,
    pub changed: u64,
    pub refused: u64,
}

impl Told {
    /// Counts one more class.
    fn add(&mut self, outcome: Outcome) {
        let count = match outcome {
            Outcome::Stored(_) => &mut self.stored,
            Outcome::There => &mut self.there,
            Outcome::Changed => &mut self.changed,
            Outcome::Refused(_) => &mut self.refused,
        };
        *count = count.saturating_add(1);
    }
}

/// Gives groups of classes, and counts what it is told of them.
#[derive(Drop)]
pub struct Groups {
    /// The groups that weren't given yet, the first one last.
    left: Vec<Vec<Prepared>>,
    told: Told,
}

impl Groups {
    /// Groups of classes of these names of one letter, in this order.
    pub fn new(alloc: Global, names: &[&[u8]]) -> Result<Groups, Fail> {
        let mut left = Vec::new(alloc);
        for group in names {
            left.push(classes(alloc, group)?)?;
        }
        left.reverse();
        Ok(Groups::of(left))
    }

    /// These groups, the last one first.
    pub fn of(left: Vec<Vec<Prepared>>) -> Groups {
        let told = Told {
            stored: 0,
            there: 0,
            changed: 0,
            refused: 0,
        };
        Groups { left, told }
    }

    /// How many groups weren't given.
    pub fn left(&self) -> usize {
        self.left.len()
    }

    /// What it was told.
    pub fn told(&self) -> Told {
        self.told
    }
}

impl Feed for Groups {
    ghost log = { λ _. None };

    ghost left = { λ groups. length groups.left.items };

    fn next<R: Threads + Sync>(
        &mut self,
        _rt: &R,
        _alloc: Global,
    ) -> Result<Option<Vec<Prepared>>, AllocError> {
        Ok(self.left.pop())
    }

    fn tell(&mut self, outcomes: &[Outcome]) {
        for outcome in outcomes {
            self.told.add(*outcome);
        }
    }
}

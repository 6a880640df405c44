//! A cache on which one phase after another is run.

use crate::front::names::Names;
use crate::front::phase::{FEW, Phase, Tally};
use crate::front::samples::{CHANGES, Lookups, Samples};
use anyhow::{Result, anyhow};
use cm_commands::{Command, Prepared};
use cm_front::Front;
use cm_group::{Group, Receipt};
use cm_pool::Geometry;
use std::alloc::{AllocError, Global};
use std::mem;

/// A cache, and what the next phase uses up.
#[derive(Drop)]
pub struct Stage {
    alloc: Global,
    front: Front,
    /// The classes that are defined next.
    ready: Vec<Prepared>,
    /// What was handed out.
    groups: Vec<Group>,
    /// The number of the last command before the latest unloads.
    before_unloads: u64,
}

/// Adds loaders of these names, and counts those that were added.
fn add_loaders(front: &mut Front, names: &Names) -> Tally {
    let mut tally = Tally::new();
    for at in 0..names.count() {
        tally.add(front.accept(Command::AddLoader(names.get(at))).is_ok());
    }
    tally
}

/// Unloads the first loaders of these names, at most `CHANGES` of them.
fn unload(front: &mut Front, names: &Names) -> Tally {
    let mut tally = Tally::new();
    for at in 0..names.count().min(CHANGES as usize) {
        tally.add(front.accept(Command::Unload(names.get(at))).is_ok());
    }
    tally
}

/// Defines classes in loaders, in turn.
fn define(front: &mut Front, loaders: &Names, classes: Vec<Prepared>) -> Tally {
    let mut tally = Tally::new();
    for (at, class) in classes.into_iter().enumerate() {
        tally.add(
            front
                .accept(Command::Define(loaders.get(at), class))
                .is_ok(),
        );
    }
    tally
}

/// Looks for classes.
fn find(front: &Front, lookups: &Lookups) -> Tally {
    let mut tally = Tally::new();
    for at in 0..lookups.count {
        let found = front.find(lookups.loaders.get(at), lookups.classes.get(at));
        tally.add(found.is_some());
    }
    tally
}

/// Learns one number after another.
fn learn(front: &mut Front, from: u64) -> Tally {
    let mut tally = Tally::new();
    for number in from..front.number() {
        let receipt = Receipt { number: number + 1 };
        tally.add(front.learn(receipt).is_ok());
    }
    tally
}

/// Adds a class this many more times.
fn push_shares(all: &mut Vec<Prepared>, class: &Prepared, times: u32) -> Result<(), AllocError> {
    for _ in 0..times {
        all.push(class.share()?)?;
    }
    Ok(())
}

/// Each class this many times.
fn shares(alloc: Global, classes: &[Prepared], times: u32) -> Result<Vec<Prepared>, AllocError> {
    let mut all = Vec::new(alloc);
    for class in classes {
        push_shares(&mut all, class, times)?;
    }
    Ok(all)
}

impl Stage {
    /// A cache of the largest sizes, with the loaders and no classes.
    pub fn new(alloc: Global, samples: &Samples) -> Result<Stage> {
        let geometry = Geometry::new(12, 256, 65_536).ok_or(anyhow!("sizes"))?;
        let mut front = Front::new(alloc, geometry)?;
        let _added = add_loaders(&mut front, &samples.loaders); // the count is known
        Ok(Stage {
            alloc,
            front,
            ready: Vec::new(alloc),
            groups: Vec::new(alloc),
            before_unloads: 0,
        })
    }

    /// Prepares what a phase uses up.
    pub fn make_ready(&mut self, phase: Phase, samples: &Samples) -> Result<()> {
        match phase {
            Phase::Fill => self.ready = shares(self.alloc, &samples.classes, 1)?,
            Phase::Define => self.ready = shares(self.alloc, &samples.new_classes, 1)?,
            Phase::DefineFew => {
                let few = samples.classes.get(..FEW).unwrap_or(&[]);
                self.ready = shares(self.alloc, few, CHANGES)?;
            }
            Phase::Seal => self.groups.reserve(1_000)?,
            Phase::Unload | Phase::UnloadFirst => self.before_unloads = self.front.number(),
            Phase::Learn | Phase::LearnFirst => {
                let _sealed = self.seal(); // what is learnt has to be sealed before
            }
            Phase::FindHit | Phase::FindMiss | Phase::AddLoader => self.groups.clear(),
        }
        Ok(())
    }

    /// Takes all groups out, and counts them.
    fn seal(&mut self) -> Tally {
        let mut tally = Tally::new();
        for _ in 0..u32::MAX {
            let Some(group) = self.front.seal() else {
                return tally;
            };
            tally.add(self.groups.push(group).is_ok());
        }
        tally
    }

    /// Makes the calls of a phase.
    pub fn run(&mut self, phase: Phase, samples: &Samples) -> Tally {
        let front = &mut self.front;
        let ready = mem::replace(&mut self.ready, Vec::new(self.alloc));
        match phase {
            Phase::Fill | Phase::Define => define(front, &samples.loaders, ready),
            Phase::DefineFew => define(front, &samples.new_loaders, ready),
            Phase::Seal => self.seal(),
            Phase::FindHit => find(front, &samples.hits),
            Phase::FindMiss => find(front, &samples.misses),
            Phase::AddLoader => add_loaders(front, &samples.new_loaders),
            Phase::Unload => unload(front, &samples.new_loaders),
            Phase::UnloadFirst => unload(front, &samples.loaders),
            Phase::Learn | Phase::LearnFirst => learn(front, self.before_unloads),
        }
    }
}

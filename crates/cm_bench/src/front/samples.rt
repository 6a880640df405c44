//! The classes and names that calls are made with.

use crate::front::classes::class;
use crate::front::names::{Namer, Names, letters, mark};
use crate::front::scene::Scene;
use anyhow::Result;
use cm_commands::Prepared;
use rand::seq::SliceRandom;
use rand_pcg::Pcg32;
use std::alloc::{AllocError, Global};

/// How many calls are made of each kind that changes the cache.
pub const CHANGES: u32 = 200;

/// Which classes are looked for, and in which loader, in order.
#[derive(Drop)]
pub struct Lookups {
    pub count: usize,
    pub loaders: Names,
    pub classes: Names,
}

/// What a scene needs.
#[derive(Drop)]
pub struct Samples {
    pub scene: Scene,
    pub loaders: Names,
    pub new_loaders: Names,
    /// The classes that the cache is filled with, each loader in turn.
    pub classes: Vec<Prepared>,
    /// Classes that are added to these.
    pub new_classes: Vec<Prepared>,
    /// Each class of the cache.
    pub hits: Lookups,
    /// As many classes that it doesn't have.
    pub misses: Lookups,
    /// How many of the classes have the same fingerprint as the first class of their loader.
    pub met: usize,
}

/// How many bytes the name of a loader has.
const LOADER_NAME: usize = 9;

/// Names of loaders.
fn loader_names(alloc: Global, first: u8, count: u32) -> Result<Names, AllocError> {
    let mut names = Names::new(alloc, LOADER_NAME);
    for number in 0..count {
        let [a, b, c, d, e, f, g, h] = letters(number);
        names.push(&[first, a, b, c, d, e, f, g, h])?;
    }
    Ok(names)
}

/// The numbers below a count, shuffled.
fn shuffle(alloc: Global, count: usize) -> Result<Vec<usize>, AllocError> {
    let mut order: Vec<usize> = (0..count).collect(alloc)?;
    order.shuffle(&mut Pcg32::new(42, 54));
    Ok(order)
}

/// The number of the loader that a class goes to, if the loaders take turns.
fn loader_number(at: u32, loaders: u32) -> u64 {
    u64::from(at % loaders.max(1)) + 1
}

/// Names for this many classes, each loader in turn.
fn class_names(
    alloc: Global,
    namer: &mut Namer,
    loaders: u32,
    count: u32,
) -> Result<Names, AllocError> {
    let mut names = Names::new(alloc, namer.naming().length());
    for at in 0..count {
        names.push(&namer.next(alloc, loader_number(at, loaders))?)?;
    }
    Ok(names)
}

/// The classes of these names.
fn classes(alloc: Global, names: &Names, scene: Scene) -> Result<Vec<Prepared>> {
    let mut classes = Vec::with_capacity(alloc, names.count())?;
    for at in 0..names.count() {
        classes.push(class(alloc, names.get(at), scene.size)?)?;
    }
    Ok(classes)
}

/// The classes of these names, to be looked for in these loaders in turn, in a shuffled order.
fn ask_for(alloc: Global, loaders: &Names, names: &Names) -> Result<Lookups, AllocError> {
    let mut asked_loaders = Names::new(alloc, loaders.length());
    let mut asked_classes = Names::new(alloc, names.length());
    for at in shuffle(alloc, names.count())? {
        asked_loaders.push(loaders.get(at))?;
        asked_classes.push(names.get(at))?;
    }
    Ok(Lookups {
        count: names.count(),
        loaders: asked_loaders,
        classes: asked_classes,
    })
}

/// How many names have the same fingerprint as the first.
fn count_met(names: &Names, loaders: u32, count: u32) -> usize {
    let first = mark(1, names.get(0));
    let mut met = 0usize;
    for at in 0..count {
        let mark = mark(loader_number(at, loaders), names.get(at as usize));
        met = met.wrapping_add(usize::from(mark == first));
    }
    met
}

impl Samples {
    /// What a scene needs with `count` classes.
    pub fn new(alloc: Global, scene: Scene, count: u32) -> Result<Samples> {
        let loader_count = scene.spread.loaders(count);
        let loaders = loader_names(alloc, b'L', loader_count)?;
        let mut namer = Namer::new(scene.naming);
        let names = class_names(alloc, &mut namer, loader_count, count)?;
        let new_names = class_names(alloc, &mut namer, loader_count, CHANGES)?;
        let missing = class_names(alloc, &mut namer, loader_count, count)?;
        Ok(Samples {
            scene,
            new_loaders: loader_names(alloc, b'N', CHANGES)?,
            classes: classes(alloc, &names, scene)?,
            new_classes: classes(alloc, &new_names, scene)?,
            hits: ask_for(alloc, &loaders, &names)?,
            misses: ask_for(alloc, &loaders, &missing)?,
            met: count_met(&names, loader_count, count),
            loaders,
        })
    }
}

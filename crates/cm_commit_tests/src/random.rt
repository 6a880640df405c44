//! Random commands against a plain model: which loaders are live, which classes each has, and which
//! words are free, belong to a loader or wait.
ghost use Rattle.std.specs.Prelude.{◌<◌, ◌≤◌, length};

use crate::commands::classes;
use crate::fronts::{add_loader, define, empty, tighten, unload, unload_all, words};
use crate::words::{Chain, ROOTS, Region, TOP, Written};
use cm_commands::{Prepared, Refusal};
use cm_front::Front;
use cm_group::{CarriedEntry, Group, Receipt};
use cm_layout::{Entry, Row};
use std::alloc::{AllocError, Global};
use std::collections::VecDeque;
use std::test::Fail;

/// How many loaders and classes there are to choose from.
const LOADERS: usize = 6;

const CLASSES: usize = 8;

/// Names, one for each of them: of one byte, and just below and above what a slot has room for.
const NAMES: [&[u8]; LOADERS] = [
    b"a",
    &[b'b'; 47],
    &[b'c'; 48],
    &[b'd'; 49],
    &[b'e'; 95],
    &[b'f'; 96],
];

/// How many words the record of each class has.
const WORDS: [u32; CLASSES] = [20, 24, 120, 128, 129, 300, 1_024, 3_000];

/// Their names, and how many bytes their attributes have: eight for each word over 20.
const SAMPLES: [(u8, u32); CLASSES] = [
    (b'A', 0),
    (b'B', 8 * 4),
    (b'C', 8 * 100),
    (b'D', 8 * 108),
    (b'E', 8 * 109),
    (b'F', 8 * 280),
    (b'G', 8 * 1_004),
    (b'H', 8 * 2_980),
];

/// What a cache of these holds.
#[derive(Drop)]
struct Model {
    /// The number of each live loader.
    lives: [Option<u64>; LOADERS],
    has: [[bool; CLASSES]; LOADERS],
    chains: [Chain; LOADERS],
    region: Region,
    /// What each command that isn't handed out writes.
    writes: VecDeque<Written>,
    number: u64,
    sealed: u64,
}

impl Model {
    fn new(alloc: Global) -> Model {
        Model {
            lives: [None; LOADERS],
            has: [[false; CLASSES]; LOADERS],
            chains: [Chain::EMPTY; LOADERS],
            region: Region::new(),
            writes: VecDeque::new(alloc),
            number: 0,
            sealed: 0,
        }
    }

    // Takes the next number, for a command that writes this.
    fn accept(&mut self, written: Written) -> Result<u64, Refusal> {
        self.writes.push_back(written).map_err(AllocError::from)?;
        self.number = self.number.wrapping_add(1);
        Ok(self.number)
    }

    fn add_loader(&mut self, loader: usize) -> Result<u64, Refusal>
        requires { loader < 6 }
    {
        if self.lives[loader].is_some() {
            return Err(Refusal::LoaderExists);
        }
        let number = self.accept(Written::Nothing)?;
        self.lives[loader] = Some(number);
        self.has[loader] = [false; CLASSES];
        self.chains[loader] = Chain::EMPTY;
        Ok(number)
    }

    fn define(&mut self, loader: usize, class: usize) -> Result<u64, Refusal>
        requires loader { loader < 6 }
        requires class { class < 8 }
    {
        let number = self.lives[loader].ok_or(Refusal::NoLoader)?;
        if self.has[loader][class] {
            return Err(Refusal::ClassExists);
        }
        let chain = &mut self.chains[loader];
        let place = self.region.place(number, chain, WORDS[class])?;
        self.has[loader][class] = true;
        self.accept(Written::Class(place))
    }

    fn unload(&mut self, loader: usize) -> Result<u64, Refusal>
        requires { loader < 6 }
    {
        let left = self.lives[loader].ok_or(Refusal::NoLoader)?;
        let number = self.accept(Written::Nothing)?;
        self.lives[loader] = None;
        self.region.leave(left, number);
        Ok(number)
    }

    fn unload_both(&mut self, loader: usize, other: usize) -> Result<u64, Refusal>
        requires loader { loader < 6 }
        requires other { other < 6 }
    {
        if loader == other {
            return Err(Refusal::BadList);
        }
        let left = self.lives[loader].ok_or(Refusal::NoLoader)?;
        let left_too = self.lives[other].ok_or(Refusal::NoLoader)?;
        let number = self.accept(Written::Nothing)?;
        self.lives[loader] = None;
        self.lives[other] = None;
        self.region.leave(left, number);
        self.region.leave(left_too, number);
        Ok(number)
    }

    fn tighten(&mut self, loader: usize) -> Result<u64, Refusal>
        requires { loader < 6 }
    {
        let owner = self.lives[loader].ok_or(Refusal::NoLoader)?;
        let number = self.number.wrapping_add(1);
        let chain = &mut self.chains[loader];
        let written = self.region.tighten(owner, chain, number)?;
        self.accept(written)
    }

    // How many words the record that should be found has.
    fn words(&self, loader: usize, class: usize) -> Option<u32>
        requires loader { loader < 6 }
        requires class { class < 8 }
    {
        if self.lives[loader].is_some() && self.has[loader][class] {
            Some(WORDS[class])
        } else {
            None
        }
    }
}

// What an entry writes.
fn written_by(entry: &CarriedEntry) -> Written {
    match entry.bare() {
        Entry::Live(Row::Class(row, _)) => Written::Class(row.place),
        Entry::Move(moves) => Written::Moved(moves.from, moves.to, entry.moved().len()),
        Entry::Live(Row::Loader(_)) | Entry::Unload(_) | Entry::UnloadAll(_) => Written::Nothing,
    }
}

// Whether the records of a group lie where the model has them.
fn lie_there(group: &Group, model: &mut Model) -> bool {
    for entry in group.entries() {
        if model.writes.pop_front() != Some(written_by(entry)) {
            return false;
        }
    }
    true
}

// Whether a group begins after the last one, and writes what the model has.
fn is_next(group: &Group, model: &mut Model) -> bool {
    let is_behind = group.first() == model.sealed.wrapping_add(1);
    model.sealed = model.sealed.wrapping_add(group.count() as u64);
    is_behind && lie_there(group, model) && model.sealed <= model.number
}

// Whether the next group is the model's.
fn seals(front: &mut Front, model: &mut Model) -> bool {
    match front.seal() {
        None => model.sealed == model.number,
        Some(group) => is_next(&group, model),
    }
}

// Whether a number up to the last that was handed out is learnt.
fn learns(front: &mut Front, model: &mut Model, choice: u32) -> bool {
    let number = model.sealed.saturating_sub(u64::from(choice % 32));
    model.region.learn(number);
    front.learn(Receipt { number }).is_ok()
}

// Whether one more call has the result that the model has.
fn agrees(front: &mut Front, model: &mut Model, classes: &[Prepared], choice: u32) -> bool
    requires { 8 ≤ length classes.now }
{
    let loader = (choice % 6) as usize;
    let class = (choice / 16 % 8) as usize;
    let name = NAMES[loader];
    let other = (choice / 4_096 % 6) as usize;
    let is_same = match choice / 256 % 16 {
        0..=2 => add_loader(front, name) == model.add_loader(loader),
        3 => unload(front, name) == model.unload(loader),
        4 => unload_all(front, &[name, NAMES[other]]) == model.unload_both(loader, other),
        5 => seals(front, model),
        6 => learns(front, model, choice / 4_096),
        7 | 8 => tighten(front, name) == model.tighten(loader),
        _ => define(front, name, &classes[class]) == model.define(loader, class),
    };
    is_same && words(front, name, &[class as u8 + 0x41]) == model.words(loader, class)
}

// Which of 10,000 random calls is the first whose result the model doesn't have.
fn first_other(front: &mut Front, model: &mut Model, classes: &[Prepared]) -> Option<u32>
    requires { 8 ≤ length classes.now }
{
    let mut state: u32 = 2_463_534_242;
    for call in 0..10_000 {
        state ^= state << 13;
        state ^= state >> 17;
        state ^= state << 5;
        if !agrees(front, model, classes, state) {
            return Some(call);
        }
    }
    None
}

// Which call has another result in the model, and whether there were enough commands, full regions
// and moves.
fn agree(
    front: &mut Front,
    model: &mut Model,
    classes: &[Prepared],
) -> Option<(Option<u32>, [bool; 3])> {
    if classes.len() < 8 {
        return None;
    }
    let other = first_other(front, model, classes);
    let region = &model.region;
    let are_enough = [model.number > 3_000, region.full > 200, region.moved > 100];
    Some((other, are_enough))
}

fn agree_on_empty(
    alloc: Global,
    classes: &[Prepared],
) -> Result<Option<(Option<u32>, [bool; 3])>, Fail> {
    let mut front = empty(alloc, TOP, ROOTS)?;
    Ok(agree(&mut front, &mut Model::new(alloc), classes))
}

#[test]
fn random_commands_agree_with_a_plain_model(rt: HostRuntime) -> Result<(), Fail> {
    let classes = classes(rt.alloc(), &SAMPLES)?;
    let agreement = agree_on_empty(rt.alloc(), &classes)?;
    assert_eq!(rt; agreement, Some((None, [true; 3])));
    Ok(())
}

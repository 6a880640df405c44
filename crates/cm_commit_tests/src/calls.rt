//! Calls of an accepted cache as values, so that a test is a table of calls and results.

use crate::fronts::{add_loader, define, tighten, unload, unload_all, words};
use cm_commands::{Prepared, Refusal};
use cm_front::Front;
use cm_group::{Group, Receipt};
use cm_layout::Entry;
use cm_pool::Chunk;

/// A call. Loaders and classes have names of one letter; a class to define is given by its index in
/// the test's list.
#[derive(Clone, Copy)]
pub enum Call {
    AddLoader(u8),
    Define(u8, usize),
    Unload(u8),
    Tighten(u8),
    UnloadAll(&'static [&'static [u8]]),
    Find(u8, u8),
    Seal,
    SealPlace,
    SealMove,
    Learn(u64),
    Fail,
    Close,
}

/// The result of a call.
#[derive(Clone, Copy, PartialEq, Eq)]
pub enum Answer {
    Number(u64),
    Refused(Refusal),
    /// How many words the record found has.
    Words(u32),
    /// The number of the group's first entry, how many entries it has, and what is learnt.
    Group(u64, usize, u64),
    /// The order of the chunk that the group's last entry names, and how many words it takes.
    Order(u32, u32),
    /// The chunks from which and to which the group's last entry moves this many records.
    Moved(Chunk, Chunk, usize),
    Done,
    Nothing,
}

fn answer_number(answer: Result<u64, Refusal>) -> Answer {
    match answer {
        Ok(number) => Answer::Number(number),
        Err(refusal) => Answer::Refused(refusal),
    }
}

fn order_of(group: &Group) -> Option<Answer> {
    let (row, _) = group.entries().last()?.class_made()?;
    Some(Answer::Order(row.place.chunk.order, row.place.words))
}

fn define_at(front: &mut Front, loader: u8, classes: &[Prepared], at: usize) -> Answer {
    match classes.get(at) {
        Some(class) => answer_number(define(front, &[loader], class)),
        None => Answer::Nothing,
    }
}

fn find(front: &Front, loader: u8, class: u8) -> Answer {
    match words(front, &[loader], &[class]) {
        Some(words) => Answer::Words(words),
        None => Answer::Nothing,
    }
}

fn learn(front: &mut Front, number: u64) -> Answer {
    match front.learn(Receipt { number }) {
        Ok(()) => Answer::Done,
        Err(_stranger) => Answer::Nothing,
    }
}

fn seal(front: &mut Front) -> Answer {
    match front.seal() {
        Some(group) => Answer::Group(group.first(), group.count(), group.learnt_number()),
        None => Answer::Nothing,
    }
}

fn seal_place(front: &mut Front) -> Option<Answer> {
    let group = front.seal()?;
    order_of(&group)
}

fn seal_move(front: &mut Front) -> Option<Answer> {
    let group = front.seal()?;
    let last = group.entries().last()?;
    match last.bare() {
        Entry::Move(moves) => Some(Answer::Moved(moves.from, moves.to, last.moved().len())),
        Entry::Live(_) | Entry::Unload(_) | Entry::UnloadAll(_) => None,
    }
}

/// Makes the call.
pub fn make(front: &mut Front, classes: &[Prepared], call: Call) -> Answer {
    match call {
        Call::AddLoader(loader) => answer_number(add_loader(front, &[loader])),
        Call::Define(loader, at) => define_at(front, loader, classes, at),
        Call::Unload(loader) => answer_number(unload(front, &[loader])),
        Call::Tighten(loader) => answer_number(tighten(front, &[loader])),
        Call::UnloadAll(loaders) => answer_number(unload_all(front, loaders)),
        Call::Find(loader, class) => find(front, loader, class),
        Call::Seal => seal(front),
        Call::SealPlace => seal_place(front).unwrap_or(Answer::Nothing),
        Call::SealMove => seal_move(front).unwrap_or(Answer::Nothing),
        Call::Learn(number) => learn(front, number),
        Call::Fail => {
            front.fail();
            Answer::Done
        }
        Call::Close => {
            front.close();
            Answer::Done
        }
    }
}

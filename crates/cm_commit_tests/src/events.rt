//! Events one after another, with the reply to each.

use crate::classes::class;
use crate::fronts;
use cm_commands::{Command, Prepared, Refusal};
use cm_disk::{Choice, SimDisk};
use cm_samples::{CLASS_A_TEXT, bytes_of, small_geometry};
use cm_world::{Event, Reply, World};
use std::alloc::Global;
use std::test::*;

/// An event: its loader is `a` if none is named, its class `A`, or `B` of 128 words; a crash leaves
/// all bytes that were written.
#[derive(Clone, Copy)]
pub enum Happens {
    Loader,
    Define,
    DefineB,
    Unload,
    Tighten,
    /// A loader of this name is added.
    Comes(&'static [u8]),
    /// It is unloaded.
    Goes(&'static [u8]),
    Seal,
    Advance,
    Trim,
    Learn,
    Look,
    LookB,
    /// The next device call fails; a write stores this many bytes.
    Fault(usize),
    Reopen,
    Crash,
    /// A crash after which each byte that it may change is this one.
    CrashTo(u8),
}

/// A reply, where a class is given by the words of its record.
#[derive(Clone, Copy, PartialEq, Eq)]
pub enum Told {
    Number(u64),
    Refused(Refusal),
    Group(u64, u64),
    Nothing,
    NoMemory,
    Idle,
    Working,
    Done(u64),
    Trimmed(u32),
    TrimDue,
    NothingToTrim,
    NotIdle,
    DeviceFailed,
    Broken,
    Learnt(u64),
    Words(u32),
    Armed,
    Opened(u64),
}

/// How many bytes a half of the journal has. No write that a crash may undo is longer.
const HALF_BYTES: usize = 16_384;

fn crash(fill: Vec<u8>) -> Event<'static> {
    Event::Crash(Choice { len: 1 << 20, fill })
}

/// The classes that are defined.
#[derive(Drop)]
struct Classes {
    a: Prepared,
    b: Prepared,
}

fn make_classes(alloc: Global) -> Result<Classes, Fail> {
    let a = class(alloc, CLASS_A_TEXT)?;
    let b = fronts::class(alloc, b'B', 864)?;
    Ok(Classes { a, b })
}

fn event(alloc: Global, classes: &Classes, happens: Happens) -> Result<Event<'static>, Fail> {
    Ok(match happens {
        Happens::Loader => Event::Accept(Command::AddLoader(b"a")),
        Happens::Define => Event::Accept(Command::Define(b"a", classes.a.share()?)),
        Happens::DefineB => Event::Accept(Command::Define(b"a", classes.b.share()?)),
        Happens::Unload => Event::Accept(Command::Unload(b"a")),
        Happens::Tighten => Event::Accept(Command::Tighten(b"a")),
        Happens::Comes(loader) => Event::Accept(Command::AddLoader(loader)),
        Happens::Goes(loader) => Event::Accept(Command::Unload(loader)),
        Happens::Seal => Event::Seal,
        Happens::Advance => Event::Advance,
        Happens::Trim => Event::Trim,
        Happens::Learn => Event::Learn,
        Happens::Look => Event::Look(b"a", b"A"),
        Happens::LookB => Event::Look(b"a", b"B"),
        Happens::Fault(stores) => Event::Fault(stores),
        Happens::Reopen => Event::Reopen,
        Happens::Crash => crash(Vec::new(alloc)),
        Happens::CrashTo(byte) => crash(Vec::from_elem(alloc, byte, HALF_BYTES)?),
    })
}

fn summary(reply: &Reply) -> Told {
    match reply {
        Reply::Accepted(number) => Told::Number(*number),
        Reply::Refused(refusal) => Told::Refused(*refusal),
        Reply::Sealed(group) => Told::Group(group.first, group.last),
        Reply::NothingToSeal => Told::Nothing,
        Reply::NoMemory => Told::NoMemory,
        Reply::Idle => Told::Idle,
        Reply::Working => Told::Working,
        Reply::Done(number) => Told::Done(*number),
        Reply::Trimmed(roots) => Told::Trimmed(*roots),
        Reply::TrimDue => Told::TrimDue,
        Reply::NothingToTrim => Told::NothingToTrim,
        Reply::NotIdle => Told::NotIdle,
        Reply::DeviceFailed => Told::DeviceFailed,
        Reply::Broken => Told::Broken,
        Reply::Learnt(number) => Told::Learnt(*number),
        Reply::Found(Some(record)) => Told::Words(record.words()),
        Reply::Found(None) => Told::Words(0),
        Reply::Armed => Told::Armed,
        Reply::Opened(number) => Told::Opened(*number),
    }
}

/// An event, and the reply to it.
pub type Exchange = (Happens, Told);

fn push_events(
    alloc: Global,
    classes: &Classes,
    list: &[Exchange],
    events: &mut Vec<Event<'static>>,
) -> Result<(), Fail> {
    for (happens, _) in list {
        events.push(event(alloc, classes, *happens)?)?;
    }
    Ok(())
}

fn events(alloc: Global, list: &[Exchange]) -> Result<Vec<Event<'static>>, Fail> {
    let classes = make_classes(alloc)?;
    let mut events: Vec<Event<'static>> = Vec::new(alloc);
    push_events(alloc, &classes, list, &mut events)?;
    Ok(events)
}

// Runs events over a file of two roots of 1,024 words and of 256 slots in each half: the replies,
// and the disk after them.
fn run(alloc: Global, events: Vec<Event<'static>>) -> Result<(Vec<Reply>, SimDisk), Fail> {
    let Ok((replies, world)) = World::run(alloc, small_geometry(), events) else {
        return Err("no file is damaged".into());
    };
    Ok((replies, world.into_disk()))
}

// Which reply is the first that is wrong or missing.
fn first_wrong(replies: &[Reply], list: &[Exchange]) -> Option<usize> {
    for (at, (_, told)) in list.iter().enumerate() {
        match replies.get(at) {
            Some(reply) if summary(reply) == *told => {}
            _ => return Some(at),
        }
    }
    if replies.len() == list.len() {
        None
    } else {
        Some(list.len())
    }
}

/// Which event over a new file is the first with a wrong reply.
pub fn first_other(alloc: Global, list: &[Exchange]) -> Result<Option<usize>, Fail> {
    let events = events(alloc, list)?;
    let (replies, _disk) = run(alloc, events)?;
    Ok(first_wrong(&replies, list))
}

/// The same, and the bytes of the disk after the last event.
pub fn first_other_and_bytes(
    alloc: Global,
    list: &[Exchange],
) -> Result<(Option<usize>, Vec<u8>), Fail> {
    let events = events(alloc, list)?;
    let (replies, mut disk) = run(alloc, events)?;
    let bytes = bytes_of(alloc, &mut disk)?;
    Ok((first_wrong(&replies, list), bytes))
}

/// A loader, stored by four device calls; and a class in it, handed out.
const HANDED_OUT: &[Exchange] = &[
    (Happens::Loader, Told::Number(1)),
    (Happens::Seal, Told::Group(1, 1)),
    (Happens::Advance, Told::Working),
    (Happens::Advance, Told::Working),
    (Happens::Advance, Told::Working),
    (Happens::Advance, Told::Done(1)),
    (Happens::Define, Told::Number(2)),
    (Happens::Seal, Told::Group(2, 2)),
];

/// The calls that store it: zeros of a root, the record, the slots, a sync, the gate and a sync.
const CALLS: &[Exchange] = &[
    (Happens::Advance, Told::Working),
    (Happens::Advance, Told::Working),
    (Happens::Advance, Told::Working),
    (Happens::Advance, Told::Working),
    (Happens::Advance, Told::Working),
    (Happens::Advance, Told::Done(2)),
];

/// How many of them are made; and the number and the words that are found after a crash at that
/// moment.
const STOPPED: [(usize, u64, u32); 7] = [
    (0, 1, 0),
    (1, 1, 0),
    (2, 1, 0),
    (3, 1, 0),
    (4, 1, 0),
    (5, 2, 16),
    (6, 2, 16),
];

/// Appends parts, one after another.
pub fn push_parts(list: &mut Vec<Exchange>, parts: &[&[Exchange]]) -> Option<()> {
    for part in parts {
        list.extend_from_slice(part).ok()?;
    }
    Some(())
}

// Which event is the first with a wrong reply if a crash comes after these calls of the class's
// group, and the class is then looked up.
fn first_other_of_crash(
    alloc: Global,
    calls: &[Exchange],
    crash: &[Exchange],
) -> Result<Option<usize>, Fail> {
    let mut list = Vec::new(alloc);
    push_parts(&mut list, &[HANDED_OUT, calls, crash]).ok_or("memory")?;
    first_other(alloc, &list)
}

#[test]
fn a_group_is_there_once_its_gate_is(rt: HostRuntime) -> Result<(), Fail> {
    for (calls, number, words) in &STOPPED {
        let made = CALLS.get(..*calls).ok_or("six calls")?;
        let crash = [
            (Happens::Crash, Told::Opened(*number)),
            (Happens::Look, Told::Words(*words)),
        ];
        let other = first_other_of_crash(rt.alloc(), made, &crash)?;
        assert_eq!(rt; other, None, "after {calls} calls");
    }
    Ok(())
}

const STORED: [Exchange; 21] = [
    (Happens::Seal, Told::Nothing),
    (Happens::Advance, Told::Idle),
    (Happens::Define, Told::Refused(Refusal::NoLoader)),
    (Happens::Loader, Told::Number(1)),
    (Happens::Loader, Told::Refused(Refusal::LoaderExists)),
    (Happens::Define, Told::Number(2)),
    (Happens::Look, Told::Words(16)),
    (Happens::Learn, Told::Learnt(0)),
    (Happens::Seal, Told::Group(1, 2)),
    (Happens::Advance, Told::Working),
    (Happens::Advance, Told::Working),
    (Happens::Advance, Told::Working),
    (Happens::Advance, Told::Working),
    (Happens::Advance, Told::Working),
    (Happens::Advance, Told::Done(2)),
    (Happens::Advance, Told::Idle),
    (Happens::Learn, Told::Learnt(2)),
    (Happens::Unload, Told::Number(3)),
    (Happens::Look, Told::Words(0)),
    (Happens::Reopen, Told::Opened(2)),
    (Happens::Look, Told::Words(16)),
];

#[test]
fn commands_are_stored_call_by_call(rt: HostRuntime) -> Result<(), Fail> {
    assert_eq!(rt; first_other(rt.alloc(), &STORED)?, None);
    Ok(())
}

const BROKEN: [Exchange; 11] = [
    (Happens::Loader, Told::Number(1)),
    (Happens::Seal, Told::Group(1, 1)),
    (Happens::Fault(0), Told::Armed),
    (Happens::Advance, Told::DeviceFailed),
    (Happens::Advance, Told::Broken),
    (Happens::Define, Told::Number(2)),
    (Happens::Learn, Told::Learnt(0)),
    (Happens::Define, Told::Refused(Refusal::Broken)),
    (Happens::Look, Told::Words(16)),
    (Happens::Reopen, Told::Opened(0)),
    (Happens::Loader, Told::Number(1)),
];

#[test]
fn a_failed_call_breaks_the_cache_until_it_is_opened_again(rt: HostRuntime) -> Result<(), Fail> {
    assert_eq!(rt; first_other(rt.alloc(), &BROKEN)?, None);
    Ok(())
}

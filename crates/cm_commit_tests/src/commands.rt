//! Calls one after another, with the result of each.

use crate::calls::{Answer, Call, make};
use crate::fronts::{add_loader, class, empty};
use cm_commands::{Prepared, Refusal};
use cm_front::Front;
use cm_pool::Chunk;
use std::alloc::Global;
use std::test::Fail;

/// A class with a name of one letter, and how many bytes its attribute has.
type Sample = (u8, u32);

fn room(alloc: Global, count: usize) -> Result<Vec<Prepared>, Fail> {
    match Vec::with_capacity(alloc, count) {
        Ok(room) => Ok(room),
        Err(_) => Ok(Vec::with_capacity(alloc, count)?),
    }
}

fn push_classes(
    alloc: Global,
    samples: &[Sample],
    classes: &mut Vec<Prepared>,
) -> Result<(), Fail> {
    for (name, count) in samples {
        classes.push(class(alloc, *name, *count)?)?;
    }
    Ok(())
}

/// These classes.
pub fn classes(alloc: Global, samples: &[Sample]) -> Result<Vec<Prepared>, Fail> {
    let mut classes = room(alloc, samples.len())?;
    push_classes(alloc, samples, &mut classes)?;
    Ok(classes)
}

// Which of these calls, made one after another, is the first with a wrong result.
fn first_wrong(front: &mut Front, classes: &[Prepared], cases: &[(Call, Answer)]) -> Option<usize> {
    for (at, (call, expected)) in cases.iter().enumerate() {
        if make(front, classes, *call) != *expected {
            return Some(at);
        }
    }
    None
}

// The same on an empty cache.
fn first_wrong_of_empty(
    alloc: Global,
    roots: u32,
    classes: &[Prepared],
    cases: &[(Call, Answer)],
) -> Result<Option<usize>, Fail> {
    let mut front = empty(alloc, 3, roots)?;
    Ok(first_wrong(&mut front, classes, cases))
}

// The same with classes of these samples.
fn first_other(
    alloc: Global,
    roots: u32,
    samples: &[Sample],
    cases: &[(Call, Answer)],
) -> Result<Option<usize>, Fail> {
    let classes = classes(alloc, samples)?;
    first_wrong_of_empty(alloc, roots, &classes, cases)
}

const LEFT: [(Call, Answer); 14] = [
    (Call::AddLoader(b'a'), Answer::Number(1)),
    (Call::Define(b'a', 0), Answer::Number(2)),
    (Call::AddLoader(b'b'), Answer::Number(3)),
    (Call::Unload(b'a'), Answer::Number(4)),
    (Call::Define(b'b', 1), Answer::Refused(Refusal::RegionFull)),
    (Call::Learn(4), Answer::Nothing),
    (Call::Seal, Answer::Group(1, 4, 0)),
    (Call::Define(b'b', 1), Answer::Refused(Refusal::RegionFull)),
    (Call::Learn(3), Answer::Done),
    (Call::Define(b'b', 1), Answer::Refused(Refusal::RegionFull)),
    (Call::Learn(4), Answer::Done),
    (Call::Define(b'b', 1), Answer::Number(5)),
    (Call::Find(b'b', b'B'), Answer::Words(20)),
    (Call::Seal, Answer::Group(5, 1, 4)),
];

#[test]
fn a_left_chunk_waits_for_its_receipt(rt: HostRuntime) -> Result<(), Fail> {
    let samples = [(b'A', 8_032), (b'B', 0)];
    assert_eq!(rt; first_other(rt.alloc(), 1, &samples, &LEFT)?, None);
    Ok(())
}

const FIRST: Chunk = Chunk {
    root: 0,
    order: 1,
    at: 256,
};

const TIGHT: Chunk = Chunk {
    root: 0,
    order: 0,
    at: 128,
};

/// The second class fills one block of 128 words, of the two in its loader's second chunk. The only
/// root has eight, of which `b` has the upper half.
const MOVED: [(Call, Answer); 17] = [
    (Call::AddLoader(b'a'), Answer::Number(1)),
    (Call::Tighten(b'a'), Answer::Refused(Refusal::NoMove)),
    (Call::Define(b'a', 0), Answer::Number(2)),
    (Call::Define(b'a', 1), Answer::Number(3)),
    (Call::SealPlace, Answer::Order(1, 128)),
    (Call::Tighten(b'a'), Answer::Number(4)),
    (Call::Tighten(b'a'), Answer::Refused(Refusal::NoMove)),
    (Call::Find(b'a', b'B'), Answer::Words(128)),
    (Call::SealMove, Answer::Moved(FIRST, TIGHT, 1)),
    (Call::AddLoader(b'b'), Answer::Number(5)),
    (Call::Define(b'b', 2), Answer::Number(6)),
    (Call::Define(b'b', 0), Answer::Refused(Refusal::RegionFull)),
    (Call::Learn(3), Answer::Done),
    (Call::Define(b'b', 0), Answer::Refused(Refusal::RegionFull)),
    (Call::Learn(4), Answer::Done),
    (Call::Define(b'b', 0), Answer::Number(7)),
    (Call::SealPlace, Answer::Order(1, 20)),
];

#[test]
fn a_chunk_that_a_move_leaves_waits_for_its_receipt(rt: HostRuntime) -> Result<(), Fail> {
    let samples = [(b'A', 0), (b'B', 864), (b'C', 8 * (512 - 20))];
    assert_eq!(rt; first_other(rt.alloc(), 1, &samples, &MOVED)?, None);
    Ok(())
}

/// The records of `a` and `b` fill the only root, until both loaders are unloaded and that is
/// learnt.
const TOGETHER: [(Call, Answer); 16] = [
    (Call::AddLoader(b'a'), Answer::Number(1)),
    (Call::AddLoader(b'b'), Answer::Number(2)),
    (Call::Define(b'a', 0), Answer::Number(3)),
    (Call::Define(b'b', 0), Answer::Number(4)),
    (
        Call::UnloadAll(&[b"a", b"c"]),
        Answer::Refused(Refusal::NoLoader),
    ),
    (Call::Find(b'a', b'A'), Answer::Words(512)),
    (Call::UnloadAll(&[b"b", b"a"]), Answer::Number(5)),
    (Call::Find(b'a', b'A'), Answer::Nothing),
    (Call::Find(b'b', b'A'), Answer::Nothing),
    (Call::AddLoader(b'a'), Answer::Number(6)),
    (Call::Seal, Answer::Group(1, 6, 0)),
    (Call::Learn(4), Answer::Done),
    (Call::Define(b'a', 0), Answer::Refused(Refusal::RegionFull)),
    (Call::Learn(5), Answer::Done),
    (Call::Define(b'a', 0), Answer::Number(7)),
    (Call::Define(b'a', 1), Answer::Number(8)),
];

#[test]
fn chunks_of_loaders_that_go_at_once_wait_for_the_receipt(rt: HostRuntime) -> Result<(), Fail> {
    let samples = [(b'A', 8 * (512 - 20)), (b'B', 8 * (512 - 20))];
    assert_eq!(rt; first_other(rt.alloc(), 1, &samples, &TOGETHER)?, None);
    Ok(())
}

const LISTS: [(Call, Answer); 12] = [
    (Call::AddLoader(b'a'), Answer::Number(1)),
    (Call::UnloadAll(&[]), Answer::Refused(Refusal::BadList)),
    (
        Call::UnloadAll(&[b"a", b"b", b"c", b"d", b"e", b"f", b"g", b"h"]),
        Answer::Refused(Refusal::BadList),
    ),
    (
        Call::UnloadAll(&[b"a", b" ", b"a"]),
        Answer::Refused(Refusal::BadList),
    ),
    (
        Call::UnloadAll(&[b"b", b" "]),
        Answer::Refused(Refusal::BadName),
    ),
    (
        Call::UnloadAll(&[b"a", b"b"]),
        Answer::Refused(Refusal::NoLoader),
    ),
    (Call::UnloadAll(&[b"a"]), Answer::Number(2)),
    (Call::AddLoader(b'a'), Answer::Number(3)),
    (Call::Fail, Answer::Done),
    (Call::UnloadAll(&[]), Answer::Refused(Refusal::Broken)),
    (Call::Close, Answer::Done),
    (Call::UnloadAll(&[]), Answer::Refused(Refusal::Closed)),
];

#[test]
fn lists_are_refused_before_names(rt: HostRuntime) -> Result<(), Fail> {
    assert_eq!(rt; first_other(rt.alloc(), 1, &[], &LISTS)?, None);
    Ok(())
}

/// How many bytes an attribute has, how many words the record takes, and the order of its chunk.
const CHUNKS: [(u32, u32, u32); 3] = [(864, 128, 0), (865, 129, 1), (8_032, 1_024, 3)];

fn first_other_of_chunk(
    alloc: Global,
    count: u32,
    words: u32,
    order: u32,
) -> Result<Option<usize>, Fail> {
    let cases = [
        (Call::AddLoader(b'a'), Answer::Number(1)),
        (Call::Define(b'a', 0), Answer::Number(2)),
        (Call::SealPlace, Answer::Order(order, words)),
    ];
    first_other(alloc, 1, &[(b'A', count)], &cases)
}

#[test]
fn classes_get_chunks_of_their_size(rt: HostRuntime) -> Result<(), Fail> {
    for (count, words, order) in &CHUNKS {
        let other = first_other_of_chunk(rt.alloc(), *count, *words, *order)?;
        assert_eq!(rt; other, None);
    }
    Ok(())
}

const TOO_LONG: [(Call, Answer); 3] = [
    (Call::AddLoader(b'a'), Answer::Number(1)),
    (
        Call::Define(b'a', 0),
        Answer::Refused(Refusal::RecordTooLong),
    ),
    (Call::Define(b'b', 0), Answer::Refused(Refusal::NoLoader)),
];

#[test]
fn a_record_longer_than_a_root_is_refused(rt: HostRuntime) -> Result<(), Fail> {
    assert_eq!(rt;
        first_other(rt.alloc(), 1, &[(b'A', 8_033)], &TOO_LONG)?,
        None
    );
    Ok(())
}

const FOUND: [(Call, Answer); 15] = [
    (Call::AddLoader(b'a'), Answer::Number(1)),
    (Call::Define(b'a', 0), Answer::Number(2)),
    (Call::Unload(b'a'), Answer::Number(3)),
    (Call::Find(b'a', b'A'), Answer::Nothing),
    (Call::AddLoader(b'a'), Answer::Number(4)),
    (Call::Define(b'a', 1), Answer::Number(5)),
    (Call::Find(b'a', b'A'), Answer::Words(21)),
    (Call::Find(b'a', b'B'), Answer::Nothing),
    (Call::Find(b'b', b'A'), Answer::Nothing),
    (Call::AddLoader(b'b'), Answer::Number(6)),
    (Call::Define(b'b', 1), Answer::Number(7)),
    (Call::Find(b'b', b'A'), Answer::Words(21)),
    (Call::Close, Answer::Done),
    (Call::Find(b'b', b'A'), Answer::Words(21)),
    (Call::Seal, Answer::Group(1, 7, 0)),
];

#[test]
fn what_is_defined_is_found(rt: HostRuntime) -> Result<(), Fail> {
    let samples = [(b'A', 0), (b'A', 8)];
    assert_eq!(rt; first_other(rt.alloc(), 4, &samples, &FOUND)?, None);
    Ok(())
}

const REFUSALS: [(Call, Answer); 20] = [
    (Call::AddLoader(b' '), Answer::Refused(Refusal::BadName)),
    (Call::Tighten(b' '), Answer::Refused(Refusal::BadName)),
    (Call::Tighten(b'a'), Answer::Refused(Refusal::NoLoader)),
    (Call::Define(0x7F, 1), Answer::Refused(Refusal::BadName)),
    (Call::Define(b'a', 1), Answer::Refused(Refusal::NoLoader)),
    (Call::Unload(b'a'), Answer::Refused(Refusal::NoLoader)),
    (Call::AddLoader(b'a'), Answer::Number(1)),
    (Call::Tighten(b'a'), Answer::Refused(Refusal::NoMove)),
    (
        Call::AddLoader(b'a'),
        Answer::Refused(Refusal::LoaderExists),
    ),
    (Call::Define(b'a', 0), Answer::Number(2)),
    (Call::Define(b'a', 1), Answer::Refused(Refusal::ClassExists)),
    (Call::Tighten(b'a'), Answer::Refused(Refusal::NoMove)),
    (Call::Fail, Answer::Done),
    (Call::AddLoader(b' '), Answer::Refused(Refusal::Broken)),
    (Call::Tighten(b' '), Answer::Refused(Refusal::Broken)),
    (Call::Close, Answer::Done),
    (Call::Unload(b'a'), Answer::Refused(Refusal::Closed)),
    (Call::Tighten(b' '), Answer::Refused(Refusal::Closed)),
    (Call::Seal, Answer::Group(1, 2, 0)),
    (Call::Seal, Answer::Nothing),
];

#[test]
fn refusals_come_in_their_order(rt: HostRuntime) -> Result<(), Fail> {
    let samples = [(b'A', 0), (b'A', 8_033)];
    assert_eq!(rt; first_other(rt.alloc(), 1, &samples, &REFUSALS)?, None);
    Ok(())
}

// Whether a cache gives the numbers 1 to 65 to as many loaders.
fn adds_loaders(front: &mut Front) -> bool {
    for number in 1..66 {
        if add_loader(front, &[number + 0x20]) != Ok(u64::from(number)) {
            return false;
        }
    }
    true
}

/// How 65 loaders are handed out.
const HANDED_OUT: [(Call, Answer); 9] = [
    (Call::Seal, Answer::Group(1, 64, 0)),
    (Call::Learn(65), Answer::Nothing),
    (Call::Seal, Answer::Group(65, 1, 0)),
    (Call::Seal, Answer::Nothing),
    (Call::Learn(66), Answer::Nothing),
    (Call::Learn(65), Answer::Done),
    (Call::Learn(1), Answer::Done),
    (Call::AddLoader(b'z'), Answer::Number(66)),
    (Call::Seal, Answer::Group(66, 1, 65)),
];

// A cache gets 65 loaders, which are handed out: its last number and the order of its roots then.
fn seal_loaders(front: &mut Front) -> (bool, Option<usize>, u64, u32) {
    let are_added = adds_loaders(front);
    let wrong = first_wrong(front, &[], &HANDED_OUT);
    (are_added, wrong, front.number(), front.geometry().top())
}

#[test]
fn loaders_seal_in_groups_of_64(rt: HostRuntime) -> Result<(), Fail> {
    let mut front = empty(rt.alloc(), 3, 1)?;
    assert_eq!(rt; seal_loaders(&mut front), (true, None, 66, 3));
    Ok(())
}

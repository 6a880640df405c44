//! Which groups a committer takes.

use crate::committers::{new_committer, offer, store};
use crate::groups::Sample::{Class, Far, Loader, Move, Unload};
use crate::groups::{Sample, WORDS};
use cm_commit::{AdvanceFault, Committer};
use cm_disk::SimDisk;
use std::alloc::Global;
use std::test::*;

/// A loader with one class, at the front of the first root.
const FIRST: [Sample; 2] = [Loader(1, b'a'), Class(1, b'A', 0, 0, WORDS)];

/// Its next class.
const NEXT: [Sample; 1] = [Class(1, b'B', 0, WORDS, WORDS)];

/// How many calls a group takes or, if it is refused, whether it was handed back.
type Answer = Result<u64, bool>;

const REFUSED: Answer = Err(true);

/// The result of a group after the first one, then of the next class, and the number that is stored
/// at the end.
type Answers = (Answer, Answer, Option<u64>);

fn offer_both(
    alloc: Global,
    committer: &mut Committer<SimDisk>,
    first: u64,
    samples: &[Sample],
) -> Result<Answers, Fail> {
    let _taken = offer(alloc, committer, 1, &FIRST)?;
    let _stored = store(committer);
    let answer = offer(alloc, committer, first, samples)?;
    let next = offer(alloc, committer, 3, &NEXT)?;
    Ok((answer, next, store(committer)))
}

fn answers(alloc: Global, first: u64, samples: &[Sample]) -> Result<Answers, Fail> {
    let mut committer = new_committer(alloc)?;
    let answers = offer_both(alloc, &mut committer, first, samples);
    let _disk = committer.into_disk();
    answers
}

/// Groups that may come next, how many device calls each takes, and the number of its last entry.
const TAKEN: [(&[Sample], u64, u64); 7] = [
    (&NEXT, 5, 3),
    // after one another
    (
        &[
            Class(1, b'B', 0, WORDS, WORDS),
            Class(1, b'C', 0, 2 * WORDS, WORDS),
        ],
        6,
        4,
    ),
    // in another chunk, and in one of another root
    (&[Class(1, b'B', 128, 0, WORDS)], 5, 3),
    (&[Far(1, b'B')], 6, 3),
    // the same name in another loader, and in one that has the name of an unloaded loader
    (&[Loader(3, b'b'), Class(3, b'A', 128, 0, WORDS)], 5, 4),
    (
        &[Unload(1), Loader(4, b'a'), Class(4, b'A', 128, 0, WORDS)],
        5,
        5,
    ),
    (&[Unload(1)], 4, 3),
];

#[test]
fn a_group_that_may_come_next_is_taken(rt: HostRuntime) -> Result<(), Fail> {
    for (samples, steps, number) in &TAKEN {
        // the class after it is refused while it is under way
        let answers = answers(rt.alloc(), 3, samples)?;
        assert!(rt; answers == (Ok(*steps), REFUSED, Some(*number)));
    }
    Ok(())
}

/// The number of the first entry, and the entries.
const REFUSALS: [(u64, &[Sample]); 14] = [
    // numbers that aren't next
    (1, &NEXT),
    (2, &NEXT),
    (4, &NEXT),
    // entries that break a rule: of a loader that doesn't exist, a number that isn't its own, a
    // name that is taken, a place that is taken, the second entry
    (3, &[Unload(2)]),
    (3, &[Loader(4, b'b')]),
    (3, &[Loader(3, b'a')]),
    (3, &[Class(1, b'B', 0, 0, WORDS)]),
    (3, &[Class(1, b'B', 0, WORDS, WORDS), Unload(2)]),
    // a chunk that committed rows use, although the loader leaves it before
    (
        3,
        &[Unload(1), Loader(4, b'b'), Class(4, b'A', 0, 0, WORDS)],
    ),
    // a class twice: committed before, and in the group
    (3, &[Class(1, b'A', 0, WORDS, WORDS)]),
    (
        3,
        &[
            Class(1, b'B', 0, WORDS, WORDS),
            Class(1, b'B', 0, 2 * WORDS, WORDS),
        ],
    ),
    // a record of a length other than its row states
    (3, &[Class(1, b'B', 0, WORDS, WORDS + 1)]),
    (
        3,
        &[
            Class(1, b'B', 0, WORDS, WORDS),
            Class(1, b'C', 0, 2 * WORDS, WORDS - 1),
        ],
    ),
    // a move
    (3, &[Move(1, 0)]),
];

#[test]
fn another_group_comes_back_and_nothing_is_changed(rt: HostRuntime) -> Result<(), Fail> {
    for (first, samples) in &REFUSALS {
        let answers = answers(rt.alloc(), *first, samples)?;
        assert!(rt; answers == (REFUSED, Ok(5), Some(3)));
    }
    Ok(())
}

/// Makes the device fail after this many calls of the first group. Returns whether that is
/// reported, the result of the group afterwards, and how many calls are left.
fn fail_behind(
    alloc: Global,
    committer: &mut Committer<SimDisk>,
    calls: u64,
) -> Result<(bool, Answer, u64), Fail> {
    let _taken = offer(alloc, committer, 1, &FIRST)?;
    for _call in 0..calls {
        let _working = committer.advance();
    }
    committer.arm(0);
    let failed = committer.advance() == Err(AdvanceFault::Device);
    committer.disarm();
    let answer = offer(alloc, committer, 1, &FIRST)?;
    Ok((failed, answer, committer.steps_left()))
}

fn failed_behind(alloc: Global, calls: u64) -> Result<(bool, Answer, u64), Fail> {
    let mut committer = new_committer(alloc)?;
    let told = fail_behind(alloc, &mut committer, calls);
    let _disk = committer.into_disk();
    told
}

#[test]
fn a_broken_committer_takes_nothing(rt: HostRuntime) -> Result<(), Fail> {
    for calls in 0..6 {
        assert_eq!(rt;
            failed_behind(rt.alloc(), calls)?,
            (true, REFUSED, 0),
            "{calls} calls"
        );
    }
    Ok(())
}

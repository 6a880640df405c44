//! Moves: the records on a loader's last chunk go to a smaller one, and are found at each moment.

use crate::events::{Exchange, Happens, Told, first_other};
use cm_commands::Refusal;
use std::alloc::Global;
use std::test::*;

/// Two classes of a loader, stored and learnt, the second of which will move: it fills one block of
/// 128 words, of the two in its chunk.
const BEFORE: &[Exchange] = &[
    (Happens::Loader, Told::Number(1)),
    (Happens::Tighten, Told::Refused(Refusal::NoMove)),
    (Happens::Define, Told::Number(2)),
    (Happens::DefineB, Told::Number(3)),
    (Happens::Seal, Told::Group(1, 3)),
    (Happens::Advance, Told::Working),
    (Happens::Advance, Told::Working),
    (Happens::Advance, Told::Working),
    (Happens::Advance, Told::Working),
    (Happens::Advance, Told::Working),
    (Happens::Advance, Told::Working),
    (Happens::Advance, Told::Done(3)),
    (Happens::Learn, Told::Learnt(3)),
    (Happens::Tighten, Told::Number(4)),
    (Happens::Tighten, Told::Refused(Refusal::NoMove)),
    (Happens::Look, Told::Words(16)),
    (Happens::LookB, Told::Words(128)),
    (Happens::Seal, Told::Group(4, 4)),
];

/// The calls that store it: the record, the slots, a sync, the gate and a sync.
const CALLS: &[Exchange] = &[
    (Happens::Advance, Told::Working),
    (Happens::Advance, Told::Working),
    (Happens::Advance, Told::Working),
    (Happens::Advance, Told::Working),
    (Happens::Advance, Told::Done(4)),
];

/// The ways in which a file is opened, and whether each leaves the gate's byte if its write is the
/// last call that was made.
const OPENINGS: [(Happens, bool); 4] = [
    (Happens::Reopen, true),
    (Happens::Crash, true),
    (Happens::CrashTo(0), false),
    (Happens::CrashTo(0xA5), true),
];

/// The gate is written by the fourth call, and made durable by the fifth.
const GATE: usize = 4;

/// Both classes are found as before; and if the move isn't there, it can be made again.
const MOVED: &[Exchange] = &[
    (Happens::Look, Told::Words(16)),
    (Happens::LookB, Told::Words(128)),
    (Happens::Tighten, Told::Refused(Refusal::NoMove)),
];

const UNMOVED: &[Exchange] = &[
    (Happens::Look, Told::Words(16)),
    (Happens::LookB, Told::Words(128)),
    (Happens::Tighten, Told::Number(4)),
    (Happens::LookB, Told::Words(128)),
];

fn append(list: &mut Vec<Exchange>, part: &[Exchange]) -> Result<(), Fail> {
    list.extend_from_slice(part).ok().ok_or("memory")?;
    Ok(())
}

// Which event is the first with a wrong reply if the file is opened in this way after these events,
// and the move is there or not.
fn first_other_of_stop(
    alloc: Global,
    made: &[Exchange],
    opened: Happens,
    is_there: bool,
) -> Result<Option<usize>, Fail> {
    let mut list = Vec::new(alloc);
    append(&mut list, BEFORE)?;
    append(&mut list, made)?;
    let number = if is_there { 4 } else { 3 };
    append(&mut list, &[(opened, Told::Opened(number))])?;
    append(&mut list, if is_there { MOVED } else { UNMOVED })?;
    first_other(alloc, &list)
}

// The first way of opening with a wrong reply, after a stop after this many calls.
fn other_opening(alloc: Global, calls: usize) -> Result<Option<usize>, Fail> {
    let made = CALLS.get(..calls).ok_or("five calls")?;
    for (at, (opened, with_gate)) in OPENINGS.iter().enumerate() {
        let is_there = calls > GATE || calls == GATE && *with_gate;
        if first_other_of_stop(alloc, made, *opened, is_there)?.is_some() {
            return Ok(Some(at));
        }
    }
    Ok(None)
}

#[test]
fn a_stopped_move_leaves_both_classes(rt: HostRuntime) -> Result<(), Fail> {
    for calls in 0..6 {
        assert_eq!(rt;
            other_opening(rt.alloc(), calls)?,
            None,
            "after {calls} calls"
        );
    }
    Ok(())
}

/// A call that fails, how many bytes a write stored before, and whether the move may be there
/// afterwards.
const FAILED: [(usize, usize, bool); 6] = [
    (0, 5, false),
    (1, 0, false),
    (1, 5, false),
    (2, 0, false),
    (3, 0, false),
    (4, 0, true),
];

fn first_other_of_fault(
    alloc: Global,
    calls: usize,
    stores: usize,
    is_there: bool,
) -> Result<Option<usize>, Fail> {
    let made = CALLS.get(..calls).ok_or("five calls")?;
    let fault = [
        (Happens::Fault(stores), Told::Armed),
        (Happens::Advance, Told::DeviceFailed),
        (Happens::Advance, Told::Broken),
    ];
    let mut list = Vec::new(alloc);
    append(&mut list, made)?;
    append(&mut list, &fault)?;
    first_other_of_stop(alloc, &list, Happens::Reopen, is_there)
}

#[test]
fn a_failed_move_leaves_both_classes(rt: HostRuntime) -> Result<(), Fail> {
    for (calls, stores, is_there) in &FAILED {
        let other = first_other_of_fault(rt.alloc(), *calls, *stores, *is_there)?;
        assert_eq!(rt; other, None, "after {calls} calls");
    }
    Ok(())
}

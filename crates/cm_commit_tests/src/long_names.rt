//! Loaders whose names take two slots: what is refused, which commands join, where their slots lie,
//! and checkpoints.

use crate::events::{Exchange, Happens, Told, first_other_and_bytes};
use crate::small_files::{Head, heads};
use crate::turns::long_name;
use cm_commands::Refusal;
use std::alloc::Global;
use std::test::*;

/// Where half 0 begins, and how long a slot is.
const HALF_0: usize = 4_096;

const SLOT: usize = 64;

/// An open gate.
const OPEN: u16 = 0xA5;

const LONG: &[u8] = &[b'm'; 49];

/// A command that is handed out and stored alone, by this many device calls; its number.
fn push_stored(
    list: &mut Vec<Exchange>,
    number: u64,
    command: Happens,
    calls: usize,
) -> Option<()> {
    list.push((command, Told::Number(number))).ok()?;
    list.push((Happens::Seal, Told::Group(number, number)))
        .ok()?;
    for _call in 1..calls {
        list.push((Happens::Advance, Told::Working)).ok()?;
    }
    list.push((Happens::Advance, Told::Done(number))).ok()?;
    list.push((Happens::Learn, Told::Learnt(number))).ok()
}

/// Which event is the first with a wrong reply, and the heads at the end.
fn first_other_and_heads(
    alloc: Global,
    list: &[Exchange],
) -> Result<(Option<usize>, Option<[Head; 2]>), Fail> {
    let (other, bytes) = first_other_and_bytes(alloc, list)?;
    Ok((other, heads(&bytes)))
}

/// Whether a slot of half 0 begins with these bytes.
fn stands_in(bytes: &[u8], slot: usize, expected: &[u8]) -> bool {
    match bytes.get(HALF_0.wrapping_add(slot.wrapping_mul(SLOT))..) {
        Some(rest) => rest.starts_with(expected),
        None => false,
    }
}

/// The first name continues in the slot after its own.
const FIRST_NAME: [Exchange; 15] = [
    (Happens::Comes(LONG), Told::Number(1)),
    (Happens::Seal, Told::Group(1, 1)),
    (Happens::Advance, Told::Working),
    (Happens::Advance, Told::Working),
    (Happens::Advance, Told::Working),
    (Happens::Advance, Told::Done(1)),
    (Happens::Comes(b"a"), Told::Number(2)),
    (Happens::Seal, Told::Group(2, 2)),
    (Happens::Advance, Told::Working),
    (Happens::Advance, Told::Working),
    (Happens::Advance, Told::Working),
    (Happens::Advance, Told::Done(2)),
    (Happens::Reopen, Told::Opened(2)),
    (Happens::Comes(LONG), Told::Refused(Refusal::LoaderExists)),
    (Happens::Goes(LONG), Told::Number(3)),
];

#[test]
fn a_name_of_49_bytes_takes_two_slots(rt: HostRuntime) -> Result<(), Fail> {
    let (other, bytes) = first_other_and_bytes(rt.alloc(), &FIRST_NAME)?;
    assert_eq!(rt; other, None);
    // a head, the loader and its continuation slot, and the next group
    assert!(rt; stands_in(&bytes, 1, &[0xA5, 2, 2, 0, 0, 0, 0, 0, 1, 0]));
    assert!(rt;
        stands_in(
            &bytes,
            2,
            &[0, 0x11, 49, 0, 0, 0, 0, 0, 1, 0, 0, 0, 0, 0, 0, 0, b'm']
        )
    );
    assert!(rt;
        stands_in(
            &bytes,
            3,
            &[0, 0x16, 0, 0, 0, 0, 0, 0, 0, 0, 0, 0, 0, 0, 0, 0, b'm', 0]
        )
    );
    assert!(rt; stands_in(&bytes, 4, &[0xA5, 2, 1, 0, 0, 0, 0, 0, 2, 0]));
    assert!(rt; stands_in(&bytes, 5, &[0, 0x11, 1, 0, 0, 0, 0, 0, 2, 0]));
    assert!(rt; stands_in(&bytes, 6, &[0; 64]));
    Ok(())
}

/// Long names that are added first, each in a group of its own.
fn push_long_names(list: &mut Vec<Exchange>, count: usize) -> Option<()> {
    for turn in 0..count {
        let number = (turn as u64).wrapping_add(1);
        push_stored(list, number, Happens::Comes(long_name(turn)), 4)?;
    }
    Some(())
}

/// The results of names after 64 long ones, which take all slots that live rows may have.
const BEHIND_64: [Exchange; 11] = [
    (Happens::Comes(b"a"), Told::Refused(Refusal::JournalFull)),
    (Happens::Comes(LONG), Told::Refused(Refusal::JournalFull)),
    (Happens::Define, Told::Refused(Refusal::NoLoader)),
    (Happens::Comes(&[b'm'; 97]), Told::Refused(Refusal::BadName)),
    (Happens::Goes(&[b'm'; 97]), Told::Refused(Refusal::BadName)),
    (Happens::Goes(LONG), Told::Refused(Refusal::NoLoader)),
    (Happens::Goes(FIRST_LONG), Told::Number(65)),
    (Happens::Comes(b"a"), Told::Number(66)),
    (Happens::Comes(LONG), Told::Refused(Refusal::JournalFull)),
    (Happens::Define, Told::Number(67)),
    (Happens::DefineB, Told::Refused(Refusal::JournalFull)),
];

const FIRST_LONG: &[u8] = b"!#$%&'()*+-./0123456789:;<=>?@ABCDEFGHIJKLMNOPQRSTUVWXYZ[]^_`\
    abcdefghijklmnopqrstuvwxyz{|}~!#$%&";

#[test]
fn long_names_fill_a_journal_by_twos(rt: HostRuntime) -> Result<(), Fail> {
    let mut list = Vec::new(rt.alloc());
    push_long_names(&mut list, 64).ok_or("memory")?;
    list.extend_from_slice(&BEHIND_64)?;
    let told = first_other_and_heads(rt.alloc(), &list)?;
    assert_eq!(rt; told, (None, Some([[OPEN, 0, 1, 0], [0, 0, 0, 0]])));
    Ok(())
}

/// The results of 40 long names that are accepted before any is handed out.
const HANDED_OUT: [Exchange; 15] = [
    (Happens::Seal, Told::Group(1, 32)),
    (Happens::Seal, Told::Group(33, 40)),
    (Happens::Seal, Told::Nothing),
    (Happens::Advance, Told::Working),
    (Happens::Advance, Told::Working),
    (Happens::Advance, Told::Working),
    (Happens::Advance, Told::Done(32)),
    (Happens::Advance, Told::Working),
    (Happens::Advance, Told::Working),
    (Happens::Advance, Told::Working),
    (Happens::Advance, Told::Done(40)),
    (Happens::Advance, Told::Idle),
    (Happens::Reopen, Told::Opened(40)),
    (
        Happens::Comes(FIRST_LONG),
        Told::Refused(Refusal::LoaderExists),
    ),
    (Happens::Goes(FIRST_LONG), Told::Number(41)),
];

#[test]
fn long_names_are_in_groups_of_32(rt: HostRuntime) -> Result<(), Fail> {
    let mut list = Vec::new(rt.alloc());
    for turn in 0..40 {
        let number = (turn as u64).wrapping_add(1);
        list.push((Happens::Comes(long_name(turn)), Told::Number(number)))?;
    }
    list.extend_from_slice(&HANDED_OUT)?;
    let (other, bytes) = first_other_and_bytes(rt.alloc(), &list)?;
    assert_eq!(rt; other, None);
    // 64 slots after the first head, and 16 after the second
    assert!(rt; stands_in(&bytes, 1, &[0xA5, 2, 64, 0, 0, 0, 0, 0, 1, 0]));
    assert!(rt; stands_in(&bytes, 66, &[0xA5, 2, 16, 0, 0, 0, 0, 0, 33, 0]));
    assert!(rt; stands_in(&bytes, 83, &[0; 64]));
    Ok(())
}

/// The oldest names are unloaded and added again, each in a group of its own: two slots and three.
fn push_made_again(list: &mut Vec<Exchange>, number: u64, times: usize) -> Option<u64> {
    let mut number = number;
    for turn in 0..times {
        number = number.wrapping_add(1);
        push_stored(list, number, Happens::Goes(long_name(turn)), 4)?;
        number = number.wrapping_add(1);
        push_stored(list, number, Happens::Comes(long_name(turn)), 4)?;
    }
    Some(number)
}

/// How many long names are added, how many of them are made again, commands after that with how
/// many device calls each takes, and then the head of half 1.
type Border = (usize, usize, &'static [(Happens, usize)], Head);

const SHUT: Head = [0, 0, 0, 0];

// The half has 256 slots: one is its head, and each long name takes three, a name that is made
// again five.
const BORDERS: [Border; 4] = [
    // 63 and 12 leave six slots: two, two and two
    (
        63,
        12,
        &[
            (Happens::Goes(FIRST_LONG), 4),
            (Happens::Comes(b"a"), 4),
            (Happens::Comes(b"b"), 4),
        ],
        SHUT,
    ),
    // two, two, and three that have no room
    (
        63,
        12,
        &[
            (Happens::Goes(FIRST_LONG), 4),
            (Happens::Comes(b"a"), 4),
            (Happens::Comes(FIRST_LONG), 10),
        ],
        [OPEN, 125, 2, 89],
    ),
    // two, three, and two that have no room
    (
        63,
        12,
        &[
            (Happens::Goes(FIRST_LONG), 4),
            (Happens::Comes(FIRST_LONG), 4),
            (Happens::Comes(b"a"), 10),
        ],
        [OPEN, 126, 2, 89],
    ),
    // 59 and 15 leave three slots
    (
        59,
        15,
        &[(Happens::Comes(LONG), 4), (Happens::Goes(FIRST_LONG), 10)],
        [OPEN, 120, 2, 90],
    ),
];

fn push_border(list: &mut Vec<Exchange>, border: &Border) -> Option<()> {
    let (count, again, commands, _) = border;
    push_long_names(list, *count)?;
    let mut number = push_made_again(list, *count as u64, *again)?;
    for (command, calls) in *commands {
        number = number.wrapping_add(1);
        push_stored(list, number, *command, *calls)?;
    }
    list.push((Happens::Reopen, Told::Opened(number))).ok()?;
    let exists = Told::Refused(Refusal::LoaderExists);
    for turn in 1..*count {
        list.push((Happens::Comes(long_name(turn)), exists)).ok()?;
    }
    Some(())
}

#[test]
fn a_checkpoint_comes_where_a_long_name_has_no_room(rt: HostRuntime) -> Result<(), Fail> {
    for border in &BORDERS {
        let mut list = Vec::new(rt.alloc());
        push_border(&mut list, border).ok_or("memory")?;
        let told = first_other_and_heads(rt.alloc(), &list)?;
        assert_eq!(rt; told, (None, Some([[OPEN, 0, 1, 0], border.3])));
    }
    Ok(())
}

//! Commands that are accepted, handed over as groups and stored, and found when the file is opened
//! again.

use crate::calls::{Answer, Call, make};
use crate::commands::classes;
use crate::committers::{new_committer, offer, open_committer, store};
use crate::groups::{Sample, WORDS};
use cm_commands::Prepared;
use cm_commit::Committer;
use cm_disk::{Choice, SimDisk};
use cm_front::Front;
use cm_group::Receipt;
use cm_samples::{new_disk, small_geometry};
use std::alloc::Global;
use std::test::*;

/// The classes that are defined, `A` and `B`. Their attributes have no bytes.
const CLASSES: [(u8, u32); 2] = [(b'A', 0), (b'B', 0)];

/// Commands that make a group, how many device calls it takes, and the number of the last of them.
const GROUPS: [(&[Call], u64, u64); 5] = [
    // the slots, the gate and two syncs
    (&[Call::AddLoader(b'a')], 4, 1),
    // one more root and one more record
    (&[Call::Define(b'a', 0)], 6, 2),
    // two records in the root that exists
    (
        &[
            Call::Define(b'a', 1),
            Call::AddLoader(b'b'),
            Call::Define(b'b', 0),
        ],
        6,
        5,
    ),
    (&[Call::Unload(b'a')], 4, 6),
    (&[Call::Define(b'b', 1)], 5, 7),
];

fn accept_all(front: &mut Front, classes: &[Prepared], calls: &[Call]) -> bool {
    for call in calls {
        if !matches!(make(front, classes, *call), Answer::Number(_)) {
            return false;
        }
    }
    true
}

/// Hands over what was accepted, and stores it. Returns how many device calls that takes, and the
/// number that is stored.
pub fn commit(front: &mut Front, committer: &mut Committer<SimDisk>) -> Option<(u64, u64)> {
    let group = front.seal()?;
    if committer.offer(group).is_err() {
        return None;
    }
    let steps = committer.steps_left();
    let number = store(committer)?;
    match front.learn(Receipt { number }) {
        Ok(()) => Some((steps, number)),
        Err(_stranger) => None,
    }
}

// Which group is the first with a wrong result.
fn first_other(
    front: &mut Front,
    committer: &mut Committer<SimDisk>,
    classes: &[Prepared],
) -> Option<usize> {
    for (at, (calls, steps, number)) in GROUPS.iter().enumerate() {
        let are_accepted = accept_all(front, classes, calls);
        if !are_accepted || commit(front, committer) != Some((*steps, *number)) {
            return Some(at);
        }
    }
    None
}

fn words(front: &Front, loader: u8, class: u8) -> Option<u32> {
    let found = front.find(&[loader], &[class])?;
    Some(found.words())
}

fn find_three(front: &Front) -> [Option<u32>; 3] {
    [
        words(front, b'a', b'A'),
        words(front, b'b', b'A'),
        words(front, b'b', b'B'),
    ]
}

fn find_and_close(front: &Front, committer: Committer<SimDisk>) -> ([Option<u32>; 3], u64) {
    let number = committer.number();
    let _disk = committer.into_disk();
    (find_three(front), number)
}

/// How many words each class that is found has when the file is opened again, and the number of the
/// last command.
fn find_again(alloc: Global, disk: SimDisk) -> Result<([Option<u32>; 3], u64), Fail> {
    match open_committer(alloc, disk) {
        Ok((front, committer)) => Ok(find_and_close(&front, committer)),
        Err(fail) => Err(fail),
    }
}

fn store_and_close(
    front: &mut Front,
    committer: Committer<SimDisk>,
    classes: &[Prepared],
) -> (Option<usize>, SimDisk) {
    let mut committer = committer;
    let other = first_other(front, &mut committer, classes);
    (other, committer.into_disk())
}

/// Which group has a wrong result on a new file, and the disk after them.
fn store_groups(alloc: Global, classes: &[Prepared]) -> Result<(Option<usize>, SimDisk), Fail> {
    match open_committer(alloc, new_disk(alloc, small_geometry())?) {
        Ok((mut front, committer)) => Ok(store_and_close(&mut front, committer, classes)),
        Err(fail) => Err(fail),
    }
}

fn store_classes(alloc: Global) -> Result<(Option<usize>, SimDisk), Fail> {
    let classes = classes(alloc, &CLASSES)?;
    store_groups(alloc, &classes)
}

#[test]
fn what_is_stored_is_found_when_the_file_is_opened(rt: HostRuntime) -> Result<(), Fail> {
    let (other, disk) = store_classes(rt.alloc())?;
    let found = find_again(rt.alloc(), disk)?;
    assert_eq!(rt; other, None);
    assert_eq!(rt; found, ([None, Some(WORDS), Some(WORDS)], 7));
    Ok(())
}

/// Makes this many device calls of a group of two commands.
fn begin(alloc: Global, committer: &mut Committer<SimDisk>, calls: u64) -> Result<(), Fail> {
    let group = [Sample::Loader(1, b'a'), Sample::Class(1, b'A', 0, 0, WORDS)];
    if offer(alloc, committer, 1, &group)?.is_err() {
        return Err("the group may come".into());
    }
    for _call in 0..calls {
        let _working = committer.advance();
    }
    Ok(())
}

/// The disk after them.
fn begin_store(alloc: Global, calls: u64) -> Result<SimDisk, Fail> {
    let mut committer = new_committer(alloc)?;
    let begun = begin(alloc, &mut committer, calls);
    let disk = committer.into_disk();
    begun?;
    Ok(disk)
}

fn find_after_crash(alloc: Global, calls: u64, choice: &Choice) -> Result<u64, Fail> {
    let disk = begin_store(alloc, calls)?.crash(alloc, choice)?;
    let (_found, number) = find_again(alloc, disk)?;
    Ok(number)
}

/// The number that is found after a crash after this many device calls of a group, if the bytes
/// that may have stayed are these.
fn find_after(alloc: Global, calls: u64, fill: &[u8]) -> Result<u64, Fail> {
    let choice = Choice {
        len: 1 << 20,
        fill: Vec::from_slice(alloc, fill)?,
    };
    find_after_crash(alloc, calls, &choice)
}

/// The number that is found if what isn't synced is left as 0, and if it is left as written.
fn find_late_and_soon(alloc: Global, calls: u64) -> Result<[u64; 2], Fail> {
    let late = find_after(alloc, calls, b"\0")?;
    let soon = find_after(alloc, calls, b"")?;
    Ok([late, soon])
}

/// How many calls are made, and what is then found. The gate is written by the fifth call, and made
/// durable by the sixth.
const CRASHES: [(u64, [u64; 2]); 7] = [
    (0, [0, 0]),
    (1, [0, 0]),
    (2, [0, 0]),
    (3, [0, 0]),
    (4, [0, 0]),
    (5, [0, 2]),
    (6, [2, 2]),
];

#[test]
fn a_crash_leaves_a_group_or_nothing_of_it(rt: HostRuntime) -> Result<(), Fail> {
    for (calls, numbers) in &CRASHES {
        assert_eq!(rt;
            find_late_and_soon(rt.alloc(), *calls)?,
            *numbers,
            "{calls} calls"
        );
    }
    Ok(())
}

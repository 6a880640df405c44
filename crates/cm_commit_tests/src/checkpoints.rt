//! Checkpoints: if the half of the journal that counts has no room for a group, the live rows go
//! to the other half before it.

use crate::committers::open_committer;
use crate::events::{Exchange, Happens, first_other, first_other_and_bytes};
use crate::fronts::{add_loader, unload};
use crate::small_files::{HALF_1_AT, Head, file_of_loaders, head_at, heads};
use crate::stores::commit;
use crate::turns::{Course, Run, START, Stop, name, push_opening, push_runs, push_stop};
use cm_commands::Refusal;
use cm_commit::Committer;
use cm_disk::SimDisk;
use cm_front::Front;
use cm_maintenance::list_accepted;
use cm_samples::{bytes_of, disk_of, new_disk, small_geometry};
use std::alloc::Global;
use std::test::*;

/// Adds the loader of a turn, and stores it. Returns how many device calls that takes, and its
/// number.
fn store_loader(
    front: &mut Front,
    committer: &mut Committer<SimDisk>,
    turn: usize,
) -> Option<(u64, u64)> {
    if add_loader(front, name(turn)).is_err() {
        return None;
    }
    commit(front, committer)
}

/// Adds loaders until one takes a number of device calls other than four. Returns how many are
/// stored by then.
fn fill(front: &mut Front, committer: &mut Committer<SimDisk>) -> (usize, Option<(u64, u64)>) {
    for turn in 0..200 {
        let stored = store_loader(front, committer, turn);
        if stored != Some((4, turn as u64 + 1)) {
            return (turn, stored);
        }
    }
    (200, None)
}

/// How many loaders are stored by four device calls each, what the next takes and its number, and
/// the result of one more.
type Filled = ((usize, Option<(u64, u64)>), Result<u64, Refusal>);

fn fill_and_close(front: &mut Front, committer: Committer<SimDisk>) -> (Filled, SimDisk) {
    let mut committer = committer;
    let filled = fill(front, &mut committer);
    let full = add_loader(front, name(128));
    ((filled, full), committer.into_disk())
}

fn fill_new(alloc: Global) -> Result<(Filled, SimDisk), Fail> {
    match open_committer(alloc, new_disk(alloc, small_geometry())?) {
        Ok((mut front, committer)) => Ok(fill_and_close(&mut front, committer)),
        Err(fail) => Err(fail),
    }
}

/// Whether half 0 has the bytes of a file of 127 loaders; the head of half 1; and that of the group
/// in slot 128 there.
fn look_at(alloc: Global, bytes: &[u8]) -> Result<(bool, [Option<Head>; 2]), Fail> {
    let filled = file_of_loaders(alloc, 127)?;
    let is_left = bytes.get(..HALF_1_AT) == filled.get(..HALF_1_AT);
    let group = head_at(bytes, HALF_1_AT + 128 * 64);
    Ok((is_left, [head_at(bytes, HALF_1_AT), group]))
}

fn look(alloc: Global, disk: SimDisk) -> Result<(bool, [Option<Head>; 2]), Fail> {
    let mut disk = disk;
    let bytes = bytes_of(alloc, &mut disk)?;
    look_at(alloc, &bytes)
}

/// An open gate.
const OPEN: u16 = 0xA5;

#[test]
fn a_loader_more_than_a_half_holds_goes_to_the_other(rt: HostRuntime) -> Result<(), Fail> {
    let (filled, disk) = fill_new(rt.alloc())?;
    let left = look(rt.alloc(), disk)?;
    let full = Err(Refusal::JournalFull);
    assert_eq!(rt; filled, ((127, Some((10, 128))), full));
    let heads = [Some([OPEN, 127, 2, 127]), Some([OPEN, 0, 128, 0])];
    assert_eq!(rt; left, (true, heads));
    Ok(())
}

fn count_loaders(alloc: Global, front: &Front) -> Result<usize, Fail> {
    let loaders = list_accepted(alloc, front)?;
    Ok(loaders.len())
}

/// How many loaders a file has when it is opened again, and the number of its last command.
fn count_again(alloc: Global, disk: SimDisk) -> Result<(usize, u64), Fail> {
    match open_committer(alloc, disk) {
        Ok((front, committer)) => {
            let number = committer.number();
            let _disk = committer.into_disk();
            Ok((count_loaders(alloc, &front)?, number))
        }
        Err(fail) => Err(fail),
    }
}

/// The result of a loader after this many that are in a file's half 0, and of one more.
fn go_on_and_close(
    front: &mut Front,
    committer: Committer<SimDisk>,
    loaders: usize,
) -> ((Option<(u64, u64)>, Result<u64, Refusal>), SimDisk) {
    let mut committer = committer;
    let stored = store_loader(front, &mut committer, loaders);
    let next = add_loader(front, name(loaders.wrapping_add(1)));
    ((stored, next), committer.into_disk())
}

fn go_on(
    alloc: Global,
    loaders: usize,
) -> Result<((Option<(u64, u64)>, Result<u64, Refusal>), SimDisk), Fail> {
    let bytes = file_of_loaders(alloc, loaders)?;
    match open_committer(alloc, disk_of(alloc, &bytes)?) {
        Ok((mut front, committer)) => Ok(go_on_and_close(&mut front, committer, loaders)),
        Err(fail) => Err(fail),
    }
}

/// How many loaders are in half 0, each in a group of its own; how many device calls the next
/// takes; and the result of one more.
const STANDING: [(usize, u64, Result<u64, Refusal>); 3] = [
    (125, 4, Ok(127)),
    (126, 4, Ok(128)),
    (127, 10, Err(Refusal::JournalFull)),
];

#[test]
fn a_file_that_was_full_goes_on(rt: HostRuntime) -> Result<(), Fail> {
    for (loaders, calls, next) in &STANDING {
        let (told, disk) = go_on(rt.alloc(), *loaders)?;
        let number = *loaders as u64 + 1;
        assert_eq!(rt; told, (Some((*calls, number)), *next));
        assert_eq!(rt; count_again(rt.alloc(), disk)?, (*loaders + 1, number));
    }
    Ok(())
}

fn remove_first(front: &mut Front, committer: &mut Committer<SimDisk>) -> Option<(u64, u64)> {
    if unload(front, name(0)).is_err() {
        return None;
    }
    commit(front, committer)
}

/// Unloads and adds the first loader, this many times. Returns how many device calls that takes.
fn make_again(front: &mut Front, committer: &mut Committer<SimDisk>, times: usize) -> Option<u64> {
    let mut calls: u64 = 0;
    for _time in 0..times {
        let (gone, _) = remove_first(front, committer)?;
        let (come, _) = store_loader(front, committer, 0)?;
        calls = calls.wrapping_add(gone).wrapping_add(come);
    }
    Some(calls)
}

fn add_loaders(front: &mut Front, committer: &mut Committer<SimDisk>, count: usize) -> Option<u64> {
    let mut calls: u64 = 0;
    for turn in 0..count {
        let (come, _) = store_loader(front, committer, turn)?;
        calls = calls.wrapping_add(come);
    }
    Some(calls)
}

/// How many device calls 100 loaders take, and how many it takes to make the first one again 30
/// times.
type Calls = [Option<u64>; 2];

fn use_and_close(front: &mut Front, committer: Committer<SimDisk>) -> (Calls, SimDisk) {
    let mut committer = committer;
    let added = add_loaders(front, &mut committer, 100);
    let made_again = make_again(front, &mut committer, 30);
    ([added, made_again], committer.into_disk())
}

/// The calls, how many loaders are listed then, and the disk.
fn use_new(alloc: Global) -> Result<(Calls, usize, SimDisk), Fail> {
    match open_committer(alloc, new_disk(alloc, small_geometry())?) {
        Ok((mut front, committer)) => {
            let (calls, disk) = use_and_close(&mut front, committer);
            Ok((calls, count_loaders(alloc, &front)?, disk))
        }
        Err(fail) => Err(fail),
    }
}

#[test]
fn a_loader_is_made_again_and_again(rt: HostRuntime) -> Result<(), Fail> {
    let (calls, loaders, disk) = use_new(rt.alloc())?;
    // four for each of 160 commands, and six of one checkpoint
    assert_eq!(rt; (calls, loaders), ([Some(400), Some(246)], 100));
    assert_eq!(rt; count_again(rt.alloc(), disk)?, (100, 160));
    Ok(())
}

/// Groups on the border of a half, after each of which the file is opened again; and the heads of
/// both halves in the end.
const BORDERS: [(&[Run], [Head; 2]); 4] = [
    // 64, 64, 64 and 59 commands take the last slot
    (
        &[
            (1, (0, 64, 4)),
            (2, (32, 32, 4)),
            (1, (29, 30, 4)),
            (1, (0, 1, 10)),
        ],
        [[OPEN, 0, 1, 0], [OPEN, 65, 2, 251]],
    ),
    // 60 find one slot too few, and 64 just enough; then with no live row
    (
        &[
            (1, (0, 64, 4)),
            (2, (32, 32, 4)),
            (1, (30, 30, 10)),
            (1, (0, 64, 4)),
            (1, (64, 0, 4)),
            (1, (64, 0, 10)),
            (1, (0, 64, 4)),
            (1, (64, 0, 10)),
            (1, (0, 62, 4)),
            (1, (62, 0, 4)),
            (1, (0, 64, 10)),
        ],
        [[OPEN, 0, 5, 696], [OPEN, 64, 4, 508]],
    ),
    // as many live rows as there may be, and one checkpoint after another
    (
        &[
            (2, (0, 64, 4)),
            (1, (32, 32, 4)),
            (3, (32, 32, 10)),
            (1, (64, 0, 10)),
            (1, (0, 61, 4)),
            (1, (0, 3, 10)),
            (42, (1, 1, 4)),
            (1, (1, 0, 10)),
        ],
        [[OPEN, 128, 7, 596], [OPEN, 125, 6, 509]],
    ),
    // loaders that are added and unloaded one by one
    (
        &[
            (127, (0, 1, 4)),
            (1, (0, 1, 10)),
            (63, (1, 0, 4)),
            (1, (1, 0, 10)),
            (64, (1, 0, 4)),
            (1, (0, 59, 4)),
            (1, (59, 0, 10)),
            (1, (0, 64, 4)),
            (1, (64, 0, 4)),
            (1, (0, 4, 4)),
            (1, (4, 0, 10)),
        ],
        [[OPEN, 4, 5, 506], [OPEN, 59, 4, 315]],
    ),
];

fn opened_runs(alloc: Global, runs: &[Run]) -> Result<Vec<Exchange>, Fail> {
    let (mut list, mut course) = (Vec::new(alloc), START);
    push_runs(&mut list, &mut course, runs, true).ok_or("memory")?;
    Ok(list)
}

/// Which event is the first with a wrong reply, and the heads at the end.
fn first_other_of_runs(
    alloc: Global,
    runs: &[Run],
) -> Result<(Option<usize>, Option<[Head; 2]>), Fail> {
    let list = opened_runs(alloc, runs)?;
    let (other, bytes) = first_other_and_bytes(alloc, &list)?;
    Ok((other, heads(&bytes)))
}

#[test]
fn a_checkpoint_comes_exactly_where_a_group_has_no_room(rt: HostRuntime) -> Result<(), Fail> {
    for (runs, heads) in &BORDERS {
        assert_eq!(rt;
            first_other_of_runs(rt.alloc(), runs)?,
            (None, Some(*heads))
        );
    }
    Ok(())
}

/// Stops of a checkpoint that leave the half that counts before it: after each call, in each call,
/// with bytes of 00 and of A5 if a crash may change them, and without a crash.
const EARLY: [Stop; 30] = [
    (0, None, Happens::CrashTo(0)),
    (0, None, Happens::CrashTo(0xA5)),
    (1, None, Happens::CrashTo(0)),
    (1, None, Happens::CrashTo(0xA5)),
    (2, None, Happens::CrashTo(0)),
    (2, None, Happens::CrashTo(0xA5)),
    (3, None, Happens::CrashTo(0)),
    (3, None, Happens::CrashTo(0xA5)),
    (4, None, Happens::CrashTo(0)),
    (4, None, Happens::CrashTo(0xA5)),
    (5, None, Happens::CrashTo(0)),
    (0, Some(0), Happens::Reopen),
    (0, Some(0), Happens::CrashTo(0)),
    (0, Some(1), Happens::CrashTo(0xA5)),
    (0, Some(1), Happens::Reopen),
    (1, Some(0), Happens::CrashTo(0)),
    (1, Some(0), Happens::CrashTo(0xA5)),
    (1, Some(0), Happens::Reopen),
    (2, Some(0), Happens::CrashTo(0xA5)),
    (2, Some(5_000), Happens::CrashTo(0)),
    (2, Some(5_000), Happens::CrashTo(0xA5)),
    (2, Some(5_000), Happens::Reopen),
    (2, Some(16_383), Happens::Reopen),
    (3, Some(0), Happens::CrashTo(0)),
    (3, Some(0), Happens::CrashTo(0xA5)),
    (3, Some(0), Happens::Reopen),
    (4, Some(0), Happens::CrashTo(0)),
    (4, Some(1), Happens::CrashTo(0)),
    (4, Some(0), Happens::Reopen),
    (5, Some(0), Happens::CrashTo(0)),
];

/// Stops that leave the half that the checkpoint wrote.
const LATE: [Stop; 6] = [
    (4, Some(0), Happens::CrashTo(0xA5)),
    (4, Some(1), Happens::Reopen),
    (5, None, Happens::CrashTo(0xA5)),
    (5, Some(0), Happens::CrashTo(0xA5)),
    (5, Some(0), Happens::Reopen),
    (6, None, Happens::CrashTo(0)),
];

/// Groups after which a half that holds 128 live rows and three slots more, or one less, is full.
const UP_TO_BORDER: [Run; 2] = [(1, (32, 32, 4)), (1, (29, 29, 4))];

const UP_TO_FIRST_BORDER: [Run; 2] = [(1, (32, 32, 4)), (1, (30, 30, 4))];

// A checkpoint before a group of loaders that are unloaded and added is stopped early, again and
// again.
fn push_early(list: &mut Vec<Exchange>, course: &Course, group: (usize, usize)) -> Option<()> {
    for stop in &EARLY {
        push_stop(list, course, group, stop)?;
    }
    Some(())
}

// A checkpoint is stopped late: then its group has room.
fn push_late(
    list: &mut Vec<Exchange>,
    course: &mut Course,
    group: (usize, usize),
    stop: &Stop,
) -> Option<()> {
    push_stop(list, course, group, stop)?;
    push_runs(list, course, &[(1, (group.0, group.1, 4))], false)
}

// Checkpoints into a half that was never used.
fn push_first_stops(list: &mut Vec<Exchange>, course: &mut Course) -> Option<()> {
    push_runs(list, course, &[(127, (0, 1, 4))], false)?;
    push_early(list, course, (0, 1))?;
    push_late(list, course, (0, 1), &(5, None, Happens::CrashTo(0xA5)))?;
    push_runs(list, course, &UP_TO_FIRST_BORDER, false)
}

// Checkpoints into a half that was used before.
fn push_more_stops(list: &mut Vec<Exchange>, course: &mut Course) -> Option<()> {
    push_early(list, course, (1, 1))?;
    for stop in &LATE {
        push_late(list, course, (1, 1), stop)?;
        push_runs(list, course, &UP_TO_BORDER, false)?;
    }
    push_opening(list, course)
}

fn push_stops(list: &mut Vec<Exchange>) -> Option<()> {
    let mut course = START;
    push_first_stops(list, &mut course)?;
    push_more_stops(list, &mut course)
}

fn first_other_of_stops(alloc: Global) -> Result<Option<usize>, Fail> {
    let mut list = Vec::new(alloc);
    push_stops(&mut list).ok_or("memory")?;
    first_other(alloc, &list)
}

#[test]
fn a_stopped_checkpoint_leaves_what_is_committed(rt: HostRuntime) -> Result<(), Fail> {
    assert_eq!(rt; first_other_of_stops(rt.alloc())?, None);
    Ok(())
}

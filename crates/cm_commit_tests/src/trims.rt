//! Trims: a file is truncated after the last root that committed rows use.

use crate::committers::{new_committer, offer, store};
use crate::events::{Exchange, Happens, Told, first_other, first_other_and_bytes, push_parts};
use crate::groups::Sample::{Class, Far, Loader, Unload};
use crate::groups::{Sample, WORDS};
use cm_commit::{Committer, NotIdle, Progress};
use cm_disk::SimDisk;
use std::alloc::Global;
use std::test::*;

/// A loader with a class, stored and learnt; then the loader is unloaded, and that is stored too.
const UNLOADED: &[Exchange] = &[
    (Happens::Loader, Told::Number(1)),
    (Happens::Define, Told::Number(2)),
    (Happens::Seal, Told::Group(1, 2)),
    (Happens::Advance, Told::Working),
    (Happens::Advance, Told::Working),
    (Happens::Advance, Told::Working),
    (Happens::Advance, Told::Working),
    (Happens::Advance, Told::Working),
    (Happens::Advance, Told::Done(2)),
    (Happens::Learn, Told::Learnt(2)),
    (Happens::Trim, Told::NothingToTrim),
    (Happens::Unload, Told::Number(3)),
    (Happens::Seal, Told::Group(3, 3)),
    // a group that waits isn't under way, and isn't stored yet
    (Happens::Trim, Told::NothingToTrim),
    (Happens::Advance, Told::Working),
    (Happens::Trim, Told::NotIdle),
    (Happens::Advance, Told::Working),
    (Happens::Advance, Told::Working),
    (Happens::Advance, Told::Done(3)),
    (Happens::Learn, Told::Learnt(3)),
];

const TRIMMED: &[Exchange] = &[
    (Happens::Trim, Told::TrimDue),
    (Happens::Trim, Told::NotIdle),
    (Happens::Advance, Told::Working),
    (Happens::Advance, Told::Trimmed(0)),
    (Happens::Trim, Told::NothingToTrim),
    (Happens::Advance, Told::Idle),
];

/// The class again, in a new loader: it takes six device calls, like the first.
const AGAIN: &[Exchange] = &[
    (Happens::Loader, Told::Number(4)),
    (Happens::Define, Told::Number(5)),
    (Happens::Seal, Told::Group(4, 5)),
    (Happens::Advance, Told::Working),
    (Happens::Advance, Told::Working),
    (Happens::Advance, Told::Working),
    (Happens::Advance, Told::Working),
    (Happens::Advance, Told::Working),
    (Happens::Advance, Told::Done(5)),
    (Happens::Crash, Told::Opened(5)),
    (Happens::Look, Told::Words(16)),
];

/// How long a file of 256 slots in each half is without a root, and how long with one of 1,024
/// words.
const WITHOUT_ROOTS: usize = 36_864;

const WITH_ONE: usize = 45_056;

/// Which event of these parts is the first with a wrong reply, and how long the file then is.
fn other_and_length(alloc: Global, parts: &[&[Exchange]]) -> Result<(Option<usize>, usize), Fail> {
    let mut list = Vec::new(alloc);
    push_parts(&mut list, parts).ok_or("memory")?;
    let (other, bytes) = first_other_and_bytes(alloc, &list)?;
    Ok((other, bytes.len()))
}

#[test]
fn a_trim_gives_roots_back(rt: HostRuntime) -> Result<(), Fail> {
    let before = other_and_length(rt.alloc(), &[UNLOADED])?;
    assert_eq!(rt; before, (None, WITH_ONE));
    let trimmed = other_and_length(rt.alloc(), &[UNLOADED, TRIMMED])?;
    assert_eq!(rt; trimmed, (None, WITHOUT_ROOTS));
    let again = other_and_length(rt.alloc(), &[UNLOADED, TRIMMED, AGAIN])?;
    assert_eq!(rt; again, (None, WITH_ONE));
    Ok(())
}

/// The trim's first events, including a fault if the call after it fails; how the file is then
/// opened; and whether the root is still there.
const STOPS: [(&[Exchange], Happens, bool); 12] = [
    (&[], Happens::Crash, true),
    (&[], Happens::Reopen, true),
    (&CUT, Happens::Crash, true),
    (&CUT, Happens::CrashTo(0), true),
    (&CUT, Happens::CrashTo(0xA5), true),
    (&CUT, Happens::Reopen, false),
    (&FAILED_CUT, Happens::CrashTo(0xA5), true),
    (&FAILED_CUT, Happens::Reopen, true),
    (&FAILED_SYNC, Happens::CrashTo(0), true),
    (&FAILED_SYNC, Happens::CrashTo(0xA5), true),
    (&FAILED_SYNC, Happens::Reopen, false),
    (&CUT_AND_STORED, Happens::CrashTo(0xA5), false),
];

const CUT: [Exchange; 1] = [(Happens::Advance, Told::Working)];

const CUT_AND_STORED: [Exchange; 2] = [
    (Happens::Advance, Told::Working),
    (Happens::Advance, Told::Trimmed(0)),
];

const FAILED_CUT: [Exchange; 4] = [
    (Happens::Fault(0), Told::Armed),
    (Happens::Advance, Told::DeviceFailed),
    (Happens::Advance, Told::Broken),
    (Happens::Trim, Told::NotIdle),
];

const FAILED_SYNC: [Exchange; 5] = [
    (Happens::Advance, Told::Working),
    (Happens::Fault(0), Told::Armed),
    (Happens::Advance, Told::DeviceFailed),
    (Happens::Advance, Told::Broken),
    (Happens::Trim, Told::NotIdle),
];

/// A trim if the root is still there, and one if it isn't.
const WITH_ROOT: &[Exchange] = &[
    (Happens::Trim, Told::TrimDue),
    (Happens::Advance, Told::Working),
    (Happens::Advance, Told::Trimmed(0)),
];

const WITHOUT_ROOT: &[Exchange] = &[(Happens::Trim, Told::NothingToTrim)];

fn first_other_of_stop(
    alloc: Global,
    made: &[Exchange],
    opened: Happens,
    trimmed: &[Exchange],
) -> Result<Option<usize>, Fail> {
    let begins = [(Happens::Trim, Told::TrimDue)];
    let ends = [(opened, Told::Opened(3)), (Happens::Look, Told::Words(0))];
    let mut list = Vec::new(alloc);
    let parts = [UNLOADED, &begins, made, &ends, trimmed, AGAIN];
    push_parts(&mut list, &parts).ok_or("memory")?;
    first_other(alloc, &list)
}

#[test]
fn a_stopped_trim_leaves_what_is_committed(rt: HostRuntime) -> Result<(), Fail> {
    for (made, opened, is_left) in &STOPS {
        let trimmed = if *is_left { WITH_ROOT } else { WITHOUT_ROOT };
        let other = first_other_of_stop(rt.alloc(), made, *opened, trimmed)?;
        assert_eq!(rt; other, None);
    }
    Ok(())
}

/// A group that is stored, how many roots rows then use, and whether a trim is due.
const STORED: [(u64, &[Sample], u32, bool); 4] = [
    (1, &[Loader(1, b'a'), Class(1, b'A', 0, 0, WORDS)], 1, false),
    (3, &[Loader(3, b'b'), Far(3, b'B')], 2, false),
    (5, &[Unload(3)], 1, true),
    (6, &[Unload(1)], 0, true),
];

/// How many roots rows use, whether a trim is due, and how many device calls are then left.
type Trim = (u32, Result<bool, NotIdle>, u64);

fn trim(committer: &mut Committer<SimDisk>) -> Trim {
    let due = committer.trim();
    (committer.roots(), due, committer.steps_left())
}

/// Stores a group, and begins a trim: one while the group is under way, and one after it.
fn trims(
    alloc: Global,
    committer: &mut Committer<SimDisk>,
    first: u64,
    samples: &[Sample],
) -> Result<(Result<bool, NotIdle>, Trim), Fail> {
    let _taken = offer(alloc, committer, first, samples)?;
    let busy = committer.trim();
    let _stored = store(committer);
    Ok((busy, trim(committer)))
}

fn first_other_trim(
    alloc: Global,
    committer: &mut Committer<SimDisk>,
) -> Result<Option<usize>, Fail> {
    for (at, (first, samples, roots, due)) in STORED.iter().enumerate() {
        let steps = if *due { 2 } else { 0 };
        let trims = trims(alloc, committer, *first, samples)?;
        if trims != (Err(NotIdle), (*roots, Ok(*due), steps)) || !finish(committer, *roots, *due) {
            return Ok(Some(at));
        }
    }
    Ok(None)
}

/// Makes the calls of a trim that is due. Returns whether it takes two, and reports this many
/// roots.
fn finish(committer: &mut Committer<SimDisk>, roots: u32, due: bool) -> bool {
    if !due {
        return true;
    }
    let cut = committer.advance();
    let stored = committer.advance();
    cut == Ok(Progress::Working) && stored == Ok(Progress::Trimmed(roots))
}

#[test]
fn a_trim_is_due_where_a_root_is_left_behind(rt: HostRuntime) -> Result<(), Fail> {
    let mut committer = new_committer(rt.alloc())?;
    let other = first_other_trim(rt.alloc(), &mut committer);
    let _disk = committer.into_disk();
    assert_eq!(rt; other?, None);
    Ok(())
}

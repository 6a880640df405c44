//! Files that were changed, before they are viewed or after.

use crate::answers::Said::{Damaged, Nothing, Words};
use crate::answers::{Said, all_said};
use crate::viewed_file::{ROOT, ROOTS_AT, viewed_file};
use cm_verdict::{Damage, FileFault};
use cm_view::{View, ViewFault};
use std::alloc::Global;
use std::test::*;

/// Where half 0 begins, and how long a slot is.
const ZERO: usize = 4_096;

const SLOT: usize = 64;

/// The first byte of the names that the records of the classes of `a` show.
const FIRST_NAME: usize = ROOTS_AT + 8 * 13;

const SECOND_NAME: usize = ROOTS_AT + ROOT + 8 * 16;

/// What is said of the whole file.
const WHOLE: [Said; 6] = [Words(16), Words(645), Nothing, Words(16), Nothing, Nothing];

/// How a file is changed.
#[derive(Clone, Copy)]
enum Change {
    Put(usize, u8),
    Cut(usize),
}

use Change::{Cut, Put};

fn changed(alloc: Global, change: Change) -> Result<Vec<u8>, Fail> {
    let mut bytes = viewed_file(alloc)?;
    match change {
        Put(at, byte) => {
            if let Some(there) = bytes.get_mut(at) {
                *there = byte;
            }
        }
        Cut(long) => bytes.truncate(long),
    }
    Ok(bytes)
}

/// Changes before the file is viewed, and what is said of it then.
const SAID: [(Change, [Said; 6]); 6] = [
    (Put(ZERO, 0xA5), WHOLE),
    // version 1
    (Put(ZERO + 2, 1), WHOLE),
    // the group of the last class isn't there
    (
        Put(ZERO + 9 * SLOT, 0),
        [Words(16), Words(645), Nothing, Nothing, Nothing, Nothing],
    ),
    // a record of another length than it says, and one of another name
    (
        Put(ROOTS_AT, 17),
        [Damaged(4), Words(645), Nothing, Words(16), Nothing, Nothing],
    ),
    (
        Put(FIRST_NAME, b'C'),
        [Nothing, Words(645), Words(16), Words(16), Nothing, Nothing],
    ),
    // a byte that no record has
    (Put(ROOTS_AT + ROOT - 1, 1), WHOLE),
];

#[test]
fn changed_files_are_viewed(rt: HostRuntime) -> Result<(), Fail> {
    let alloc = rt.alloc();
    for (change, wanted) in &SAID {
        let bytes = changed(alloc, *change)?;
        let view = View::open(alloc, &bytes)?;
        assert_eq!(rt;
            all_said(alloc, &view, &bytes)?.as_slice(),
            wanted.as_slice()
        );
    }
    Ok(())
}

/// Changes after which there is no view, and why.
const REFUSED: [(Change, ViewFault); 7] = [
    (Cut(ZERO - 1), ViewFault::File(FileFault::NotACache)),
    (
        Cut(ROOTS_AT - 1),
        ViewFault::File(FileFault::Damaged {
            what: Damage::Length,
            slot: 0,
        }),
    ),
    (
        Put(ZERO + 4 * SLOT, 1),
        ViewFault::File(FileFault::Damaged {
            what: Damage::Slot,
            slot: 4,
        }),
    ),
    (Cut(ROOTS_AT), ViewFault::CutOff { slot: 4 }),
    (Cut(ROOTS_AT + 2 * ROOT - 1), ViewFault::CutOff { slot: 6 }),
    // the class itself is at index 0
    (Put(ROOTS_AT + 10, 0), ViewFault::NoName { slot: 4 }),
    (Put(SECOND_NAME, b'A'), ViewFault::SameName { slot: 6 }),
];

#[test]
fn some_changed_files_are_refused(rt: HostRuntime) -> Result<(), Fail> {
    let alloc = rt.alloc();
    for (change, wanted) in &REFUSED {
        match View::open(alloc, &changed(alloc, *change)?) {
            Ok(_) => return Err("there is a view".into()),
            Err(fault) => assert_eq!(rt; fault, *wanted),
        }
    }
    Ok(())
}

/// Changes after the file was viewed, and what is said then.
const LATER: [(Change, [Said; 6]); 2] = [
    (
        Put(FIRST_NAME, b'C'),
        [Nothing, Words(645), Nothing, Words(16), Nothing, Nothing],
    ),
    (
        Cut(ROOTS_AT + ROOT),
        [Words(16), Nothing, Nothing, Words(16), Nothing, Nothing],
    ),
];

#[test]
fn bytes_may_change_after_a_view_is_opened(rt: HostRuntime) -> Result<(), Fail> {
    let alloc = rt.alloc();
    let view = View::open(alloc, &viewed_file(alloc)?)?;
    for (change, wanted) in &LATER {
        let bytes = changed(alloc, *change)?;
        assert_eq!(rt;
            all_said(alloc, &view, &bytes)?.as_slice(),
            wanted.as_slice()
        );
    }
    Ok(())
}

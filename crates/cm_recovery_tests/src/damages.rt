//! What is found in the front of a small file, and which damage is reported first.

use crate::file_samples::put;
use crate::found::Found::{Damaged, NotACache, Sound};
use crate::found::{Found, Summary};
use crate::halves::{Told, find_half, small_front};
use cm_verdict::Damage;
use std::alloc::Global;
use std::test::*;

/// What the small file holds, and one without its last group.
const WHOLE: Summary = Summary {
    rows: 3,
    number: 3,
    end: 7,
};

const SHORT: Summary = Summary {
    rows: 2,
    number: 2,
    end: 5,
};

/// Where half 0 and half 1 begin, and how long a slot is.
const ZERO: usize = 4_096;

const ONE: usize = 20_480;

const SLOT: usize = 64;

/// The position of a byte, its new value, and what is then found.
const CHANGES: [(usize, u8, Found<Summary>); 28] = [
    // nothing changed
    (ZERO, 0xA5, Sound(WHOLE)),
    // the superblock: its magic, its gate, its version, a size, a byte after them
    (0, 0, NotACache),
    (4_095, 0xA4, NotACache),
    (8, 2, Damaged(Damage::Superblock, 0)),
    (12, 2, Damaged(Damage::Superblock, 0)),
    (100, 1, Damaged(Damage::Superblock, 0)),
    // more slots than the file has room for
    (21, 2, Damaged(Damage::Length, 0)),
    // no half is open; the head of half 0 is of an unknown version, or of an epoch that doesn't
    // exist or is too late; the head of half 1 is blank
    (ZERO, 0, Damaged(Damage::Halves, 0)),
    (ZERO + 2, 0, Damaged(Damage::Head, 0)),
    (ZERO + 2, 3, Damaged(Damage::Head, 0)),
    (ZERO + 8, 0, Damaged(Damage::Head, 0)),
    (ZERO + 8, 3, Damaged(Damage::Head, 0)),
    (ONE, 0xA5, Damaged(Damage::Head, 256)),
    // version 1, and the epoch of a file that was upgraded when it was empty
    (ZERO + 2, 1, Sound(WHOLE)),
    (ZERO + 8, 2, Sound(WHOLE)),
    // a group of no entries, of a wrong number, of 65 entries
    (ZERO + SLOT + 2, 0, Damaged(Damage::Head, 1)),
    (ZERO + 3 * SLOT + 8, 3, Damaged(Damage::Head, 3)),
    (ZERO + 3 * SLOT + 2, 65, Damaged(Damage::Head, 3)),
    // a group whose gate isn't open isn't there
    (ZERO + 5 * SLOT, 0xA4, Sound(SHORT)),
    (ZERO + 5 * SLOT, 0, Sound(SHORT)),
    (ZERO + 5 * SLOT, 0xFF, Sound(SHORT)),
    // no entry; padding that isn't 0
    (ZERO + 4 * SLOT + 1, 0x15, Damaged(Damage::Slot, 4)),
    (ZERO + 4 * SLOT + 63, 1, Damaged(Damage::Slot, 4)),
    // a name of no bytes, a loader of a wrong number, a class of no loader
    (ZERO + 2 * SLOT + 2, 0, Damaged(Damage::Slot, 2)),
    (ZERO + 2 * SLOT + 8, 2, Damaged(Damage::Rows, 2)),
    (ZERO + 4 * SLOT + 8, 2, Damaged(Damage::Rows, 4)),
    // an order of four billion, and a record that begins inside the one before it
    (ZERO + 4 * SLOT + 23, 238, Damaged(Damage::Chunks, 4)),
    (ZERO + 6 * SLOT + 28, 15, Damaged(Damage::Chunks, 6)),
];

// What is found with another byte at a position.
fn find_damage(alloc: Global, front: &[u8], at: usize, byte: u8) -> Result<Told, Fail> {
    let mut bytes = Vec::from_slice(alloc, front)?;
    put(&mut bytes, at, byte);
    find_half(alloc, &bytes)
}

// Which change is the first after which something else is found.
fn first_other_change(alloc: Global, front: &[u8]) -> Result<Option<(usize, u8)>, Fail> {
    for (at, byte, found) in &CHANGES {
        if find_damage(alloc, front, *at, *byte)? != found.in_bytes() {
            return Ok(Some((*at, *byte)));
        }
    }
    Ok(None)
}

#[test]
fn the_first_damage_is_told(rt: HostRuntime) -> Result<(), Fail> {
    let front = small_front(rt.alloc())?;
    assert_eq!(rt; first_other_change(rt.alloc(), &front)?, None);
    Ok(())
}

/// How many bytes there are, and what is found in them.
const BEGINNINGS: [(usize, Found<Summary>); 5] = [
    (0, NotACache),
    (4_095, NotACache),
    (4_096, Damaged(Damage::Length, 0)),
    (36_863, Damaged(Damage::Length, 0)),
    (36_864, Sound(WHOLE)),
];

// Which beginning is the first in which something else is found.
fn first_other_beginning(alloc: Global, front: &[u8]) -> Result<Option<usize>, Fail> {
    for (long, found) in &BEGINNINGS {
        let bytes = front.get(..*long).ok_or("not longer")?;
        if find_half(alloc, bytes)? != found.in_bytes() {
            return Ok(Some(*long));
        }
    }
    Ok(None)
}

#[test]
fn a_short_file_is_no_cache_or_damaged(rt: HostRuntime) -> Result<(), Fail> {
    let front = small_front(rt.alloc())?;
    assert_eq!(rt; first_other_beginning(rt.alloc(), &front)?, None);
    Ok(())
}

const NUMBERS: [(Damage, u8); 9] = [
    (Damage::Superblock, 1),
    (Damage::Length, 2),
    (Damage::Halves, 3),
    (Damage::Head, 4),
    (Damage::Slot, 5),
    (Damage::Rows, 6),
    (Damage::Chunks, 7),
    (Damage::Record, 8),
    (Damage::ClassTwice, 9),
];

#[test]
fn damages_have_their_numbers(rt: HostRuntime) {
    for (what, number) in &NUMBERS {
        assert_eq!(rt; what.number(), *number);
    }
}

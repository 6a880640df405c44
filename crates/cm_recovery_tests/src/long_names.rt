//! Loaders whose names take two slots: what is found in the front of a file, and which damage is
//! reported first.

use crate::file_samples::put;
use crate::found::Found::{Damaged, Sound};
use crate::found::{Found, Summary};
use crate::halves::{find_half, small_front};
use cm_layout::{
    ENTRY_VERSION, GroupHead, HalfHead, LoaderRow, OLDEST_VERSION, SlotName, Superblock,
};
use cm_samples::least_geometry;
use cm_verdict::{Damage, FileFault};
use std::alloc::Global;
use std::test::*;

/// Where half 0 begins, and how long a slot is.
const ZERO: usize = 4_096;

const SLOT: usize = 64;

/// How long a front is, up to its roots.
const LONG: usize = 36_864;

/// The greatest number that a file may have.
const LAST: u64 = 1 << 63;

/// Names: two of 49 bytes that differ only in the last one, and one of 96.
const FIRST: &[u8] = b"aaaaaaaaaaaaaaaaaaaaaaaaaaaaaaaaaaaaaaaaaaaaaaaaa";

const SECOND: &[u8] = b"aaaaaaaaaaaaaaaaaaaaaaaaaaaaaaaaaaaaaaaaaaaaaaaab";

const THIRD: &[u8] = &[b'e'; 96];

/// A group: how many slots its entries take, as its head says, and the names of its loaders.
type Group<'a> = (u16, &'a [&'a [u8]]);

/// What a half holds: the head's version, slots of live rows, epoch and base; the numbers and names
/// of the live loaders; and groups.
#[derive(Clone, Copy)]
struct Sample<'a> {
    head: HalfHead,
    live: &'a [(u64, &'a [u8])],
    groups: &'a [Group<'a>],
}

fn push_loader(bytes: &mut Vec<u8>, number: u64, name: &[u8]) -> Result<(), Fail> {
    let name = SlotName::new(name).ok_or("two slots have room for it")?;
    let loader = LoaderRow { number, name }.encode();
    bytes.extend_from_slice(loader.as_bytes())?;
    Ok(())
}

/// Adds a group, and returns the number of the last command then.
fn push_group(bytes: &mut Vec<u8>, number: u64, group: Group<'_>) -> Result<u64, Fail> {
    let (count, names) = group;
    let mut number = number;
    let first = number.wrapping_add(1);
    bytes.extend_from_slice(&GroupHead { count, first }.encode())?;
    for name in names {
        number = number.wrapping_add(1);
        push_loader(bytes, number, name)?;
    }
    Ok(number)
}

fn push_half(bytes: &mut Vec<u8>, sample: &Sample<'_>) -> Result<(), Fail> {
    bytes.extend_from_slice(&sample.head.encode())?;
    for (number, name) in sample.live {
        push_loader(bytes, *number, name)?;
    }
    let mut number = sample.head.base;
    for group in sample.groups {
        number = push_group(bytes, number, *group)?;
    }
    Ok(())
}

/// The front of a file with this half 0. Half 1 was never used.
fn front_of(alloc: Global, sample: &Sample<'_>) -> Result<Vec<u8>, Fail> {
    let geometry = least_geometry();
    let mut bytes = Superblock { geometry }.encode(alloc)?;
    push_half(&mut bytes, sample)?;
    bytes.resize(LONG, 0)?;
    Ok(bytes)
}

/// The head of a new file's half, and one of three slots of live rows.
const NEW: HalfHead = HalfHead {
    version: ENTRY_VERSION,
    live: 0,
    epoch: 1,
    base: 0,
};

const LATER: HalfHead = HalfHead {
    version: ENTRY_VERSION,
    live: 3,
    epoch: 2,
    base: 3,
};

/// Which change is the first after which something else is found.
fn first_other(
    alloc: Global,
    sample: &Sample<'_>,
    changes: &[(usize, u8, Found<Summary>)],
) -> Result<Option<(usize, u8)>, Fail> {
    let front = front_of(alloc, sample)?;
    for (at, byte, found) in changes {
        let mut bytes = Vec::from_slice(alloc, &front)?;
        put(&mut bytes, *at, *byte);
        if find_half(alloc, &bytes)? != found.in_bytes() {
            return Ok(Some((*at, *byte)));
        }
    }
    Ok(None)
}

/// Groups of loaders in slots 1 to 3, 4 to 6, 7 and 8, and 9 to 12.
const IN_GROUPS: Sample<'_> = Sample {
    head: NEW,
    live: &[],
    groups: &[
        (2, &[FIRST]),
        (2, &[SECOND]),
        (1, &[b"c"]),
        (3, &[b"d", THIRD]),
    ],
};

const FIVE: Summary = Summary {
    rows: 5,
    number: 5,
    end: 13,
};

const CHANGED_GROUPS: [(usize, u8, Found<Summary>); 34] = [
    // nothing changed
    (ZERO, 0xA5, Sound(FIVE)),
    // another name
    (ZERO + 3 * SLOT + 16, b'~', Sound(FIVE)),
    (ZERO + 12 * SLOT + 63, b'!', Sound(FIVE)),
    // version 1 has no name of 49 bytes
    (ZERO + 2, 1, Damaged(Damage::Slot, 2)),
    // no continuation slot after the loader: another slot, a gate that is open
    (ZERO + 3 * SLOT + 1, 0x00, Damaged(Damage::Slot, 2)),
    (ZERO + 3 * SLOT + 1, 0x11, Damaged(Damage::Slot, 2)),
    (ZERO + 3 * SLOT + 1, 0x17, Damaged(Damage::Slot, 2)),
    (ZERO + 3 * SLOT, 0xA5, Damaged(Damage::Slot, 2)),
    // a byte of the continuation slot that has to be 0
    (ZERO + 3 * SLOT + 2, 1, Damaged(Damage::Slot, 2)),
    (ZERO + 3 * SLOT + 15, 1, Damaged(Damage::Slot, 2)),
    (ZERO + 3 * SLOT + 17, b'a', Damaged(Damage::Slot, 2)),
    (ZERO + 3 * SLOT + 63, b'a', Damaged(Damage::Slot, 2)),
    (ZERO + 6 * SLOT + 17, b'b', Damaged(Damage::Slot, 5)),
    // a byte of the loader's own slot that has to be 0
    (ZERO + 2 * SLOT + 3, 1, Damaged(Damage::Slot, 2)),
    // the length of another name, for which the continuation slot has too many bytes
    (ZERO + 11 * SLOT + 2, 95, Damaged(Damage::Slot, 11)),
    (ZERO + 2 * SLOT + 2, 97, Damaged(Damage::Slot, 2)),
    (ZERO + 2 * SLOT + 2, 255, Damaged(Damage::Slot, 2)),
    // the length of a name that needs no continuation slot, which is there nevertheless
    (ZERO + 2 * SLOT + 2, 48, Damaged(Damage::Slot, 3)),
    (ZERO + 5 * SLOT + 2, 48, Damaged(Damage::Slot, 6)),
    // a byte that no name has, in either slot
    (ZERO + 2 * SLOT + 16, 0x20, Damaged(Damage::Rows, 2)),
    (ZERO + 2 * SLOT + 63, 0x7F, Damaged(Damage::Rows, 2)),
    (ZERO + 3 * SLOT + 16, 0x20, Damaged(Damage::Rows, 2)),
    (ZERO + 3 * SLOT + 16, 0x7F, Damaged(Damage::Rows, 2)),
    (ZERO + 3 * SLOT + 16, 0x00, Damaged(Damage::Rows, 2)),
    (ZERO + 2 * SLOT + 2, 50, Damaged(Damage::Rows, 2)),
    (ZERO + 12 * SLOT + 63, 0x20, Damaged(Damage::Rows, 11)),
    // the name of a live loader
    (ZERO + 6 * SLOT + 16, b'a', Damaged(Damage::Rows, 5)),
    // a wrong number
    (ZERO + 5 * SLOT + 8, 3, Damaged(Damage::Rows, 5)),
    // a group that ends between the two slots
    (ZERO + SLOT + 2, 1, Damaged(Damage::Slot, 2)),
    (ZERO + 9 * SLOT + 2, 2, Damaged(Damage::Slot, 11)),
    // a continuation slot first in its group, and one after a short name
    (ZERO + 8 * SLOT + 1, 0x16, Damaged(Damage::Slot, 8)),
    (ZERO + 11 * SLOT + 1, 0x16, Damaged(Damage::Slot, 11)),
    // a group that counts the continuation slot before it, and one whose gate isn't open
    (ZERO + 4 * SLOT + 8, 3, Damaged(Damage::Head, 4)),
    (
        ZERO + 4 * SLOT,
        0,
        Sound(Summary {
            rows: 1,
            number: 1,
            end: 4,
        }),
    ),
];

#[test]
fn a_rest_belongs_to_the_loader_before_it(rt: HostRuntime) -> Result<(), Fail> {
    let other = first_other(rt.alloc(), &IN_GROUPS, &CHANGED_GROUPS)?;
    assert_eq!(rt; other, None);
    Ok(())
}

/// Writes the continuation slot of the name `FIRST` over a slot of half 0.
fn put_rest(bytes: &mut [u8], slot: usize) {
    let at = ZERO.wrapping_add(slot.wrapping_mul(SLOT));
    for place in 0..SLOT {
        put(bytes, at.wrapping_add(place), 0);
    }
    put(bytes, at.wrapping_add(1), 0x16);
    put(bytes, at.wrapping_add(16), b'a');
}

/// Slots that are overwritten with that continuation slot, and what is then found.
const RESTS: [(usize, Found<Summary>); 6] = [
    // its own
    (3, Sound(FIVE)),
    // that of the name which differs only there
    (6, Damaged(Damage::Rows, 5)),
    // first in a group, of one slot and of more
    (8, Damaged(Damage::Slot, 8)),
    (10, Damaged(Damage::Slot, 10)),
    // after a short name
    (11, Damaged(Damage::Slot, 11)),
    // after a name of 96 bytes, 47 of which are then 0: it is spelled, but no loader may have it
    (12, Damaged(Damage::Rows, 11)),
];

#[test]
fn a_rest_elsewhere_is_damage(rt: HostRuntime) -> Result<(), Fail> {
    let front = front_of(rt.alloc(), &IN_GROUPS)?;
    for (slot, found) in &RESTS {
        let mut bytes = Vec::from_slice(rt.alloc(), &front)?;
        put_rest(&mut bytes, *slot);
        assert_eq!(rt;
            find_half(rt.alloc(), &bytes)?,
            found.in_bytes(),
            "in slot {slot}"
        );
    }
    Ok(())
}

#[test]
fn a_rest_behind_a_class_is_damage(rt: HostRuntime) -> Result<(), Fail> {
    // the group of the first class has one more slot, where the second class's group begins
    let mut front = small_front(rt.alloc())?;
    put(&mut front, ZERO + 3 * SLOT + 2, 2);
    put_rest(&mut front, 5);
    let damage = FileFault::Damaged {
        what: Damage::Slot,
        slot: 5,
    };
    assert_eq!(rt; find_half(rt.alloc(), &front)?, Err(damage));
    Ok(())
}

/// Live rows in slots 1 and 2, and 3, and a group in slots 4 to 6.
const LIVING: Sample<'_> = Sample {
    head: LATER,
    live: &[(1, FIRST), (3, b"c")],
    groups: &[(2, &[THIRD])],
};

const THREE: Summary = Summary {
    rows: 3,
    number: 4,
    end: 7,
};

const CHANGED_ROWS: [(usize, u8, Found<Summary>); 14] = [
    // nothing changed
    (ZERO, 0xA5, Sound(THREE)),
    (ZERO + 2, 1, Damaged(Damage::Slot, 1)),
    // no slot of live rows, one, two, and four, where a group's head is
    (
        ZERO + 4,
        0,
        Sound(Summary {
            rows: 0,
            number: 3,
            end: 1,
        }),
    ),
    (ZERO + 4, 1, Damaged(Damage::Slot, 1)),
    (
        ZERO + 4,
        2,
        Sound(Summary {
            rows: 1,
            number: 3,
            end: 3,
        }),
    ),
    (ZERO + 4, 4, Damaged(Damage::Slot, 4)),
    // another slot instead of the continuation slot, a byte in it that no name has, and one that
    // has to be 0
    (ZERO + 2 * SLOT + 1, 0x11, Damaged(Damage::Slot, 1)),
    (ZERO + 2 * SLOT + 16, 0x20, Damaged(Damage::Rows, 1)),
    (ZERO + 2 * SLOT + 17, 0x61, Damaged(Damage::Slot, 1)),
    // a continuation slot after a short name, after another one, and first of all
    (ZERO + SLOT + 2, 48, Damaged(Damage::Slot, 2)),
    (ZERO + 3 * SLOT + 1, 0x16, Damaged(Damage::Slot, 3)),
    (ZERO + SLOT + 1, 0x16, Damaged(Damage::Slot, 1)),
    // a number past the base, and one that isn't above those before it
    (ZERO + SLOT + 8, 4, Damaged(Damage::Rows, 1)),
    (ZERO + 3 * SLOT + 8, 1, Damaged(Damage::Rows, 3)),
];

#[test]
fn live_rows_have_rests_too(rt: HostRuntime) -> Result<(), Fail> {
    let other = first_other(rt.alloc(), &LIVING, &CHANGED_ROWS)?;
    assert_eq!(rt; other, None);
    Ok(())
}

/// A version, a base, a group after it, and what is then found. A continuation slot takes no
/// number.
const NUMBERS: [(u16, u64, Group<'_>, Found<Summary>); 7] = [
    (
        ENTRY_VERSION,
        LAST - 1,
        (2, &[FIRST]),
        Sound(Summary {
            rows: 1,
            number: LAST,
            end: 4,
        }),
    ),
    (ENTRY_VERSION, LAST, (2, &[FIRST]), Damaged(Damage::Head, 1)),
    (
        ENTRY_VERSION,
        LAST - 1,
        (2, &[b"a", b"b"]),
        Damaged(Damage::Head, 1),
    ),
    (
        ENTRY_VERSION,
        LAST - 1,
        (3, &[FIRST, b"b"]),
        Damaged(Damage::Head, 1),
    ),
    (
        ENTRY_VERSION,
        LAST - 2,
        (4, &[FIRST, SECOND]),
        Sound(Summary {
            rows: 2,
            number: LAST,
            end: 6,
        }),
    ),
    // in version 1 each slot takes one
    (
        OLDEST_VERSION,
        LAST - 1,
        (2, &[FIRST]),
        Damaged(Damage::Head, 1),
    ),
    (
        OLDEST_VERSION,
        LAST - 2,
        (2, &[FIRST]),
        Damaged(Damage::Slot, 2),
    ),
];

#[test]
fn a_rest_takes_no_number(rt: HostRuntime) -> Result<(), Fail> {
    for (version, base, group, found) in &NUMBERS {
        let head = HalfHead {
            version: *version,
            live: 0,
            epoch: 1,
            base: *base,
        };
        let sample = Sample {
            head,
            live: &[],
            groups: &[*group],
        };
        let front = front_of(rt.alloc(), &sample)?;
        assert_eq!(rt; find_half(rt.alloc(), &front)?, found.in_bytes());
    }
    Ok(())
}

/// One of up to 100 long names: each ends with two digits of its own.
fn long_name(at: usize) -> [u8; 96] {
    let mut name = [b'l'; 96];
    name[94] = b'0' + (at / 10 % 10) as u8;
    name[95] = b'0' + (at % 10) as u8;
    name
}

/// How many long names a half holds, each in a group of its own; the names in one more; and what is
/// then found. Live rows take at most 128 slots.
const FULL: [(usize, Group<'_>, Found<Summary>); 6] = [
    (
        63,
        (2, &[FIRST]),
        Sound(Summary {
            rows: 64,
            number: 64,
            end: 193,
        }),
    ),
    (
        63,
        (2, &[b"a", b"b"]),
        Sound(Summary {
            rows: 65,
            number: 65,
            end: 193,
        }),
    ),
    (63, (3, &[b"a", FIRST]), Damaged(Damage::Rows, 192)),
    (64, (1, &[b"a"]), Damaged(Damage::Rows, 194)),
    (64, (2, &[FIRST]), Damaged(Damage::Rows, 194)),
    (
        62,
        (4, &[FIRST, SECOND]),
        Sound(Summary {
            rows: 64,
            number: 64,
            end: 192,
        }),
    ),
];

fn front_of_long_names(alloc: Global, count: usize, more: Group<'_>) -> Result<Vec<u8>, Fail> {
    let geometry = least_geometry();
    let mut bytes = Superblock { geometry }.encode(alloc)?;
    bytes.extend_from_slice(&NEW.encode())?;
    let mut number = 0;
    for at in 0..count {
        number = push_group(&mut bytes, number, (2, &[&long_name(at)]))?;
    }
    push_group(&mut bytes, number, more)?;
    bytes.resize(LONG, 0)?;
    Ok(bytes)
}

#[test]
fn long_names_count_twice(rt: HostRuntime) -> Result<(), Fail> {
    for (count, more, found) in &FULL {
        let front = front_of_long_names(rt.alloc(), *count, *more)?;
        assert_eq!(rt; find_half(rt.alloc(), &front)?, found.in_bytes(), "{count}");
    }
    Ok(())
}

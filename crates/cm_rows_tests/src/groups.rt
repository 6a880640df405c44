//! Groups of entries: how many they take, and which join.
use cm_group::{CarriedEntry, Group};
use cm_layout::{LoaderRow, SlotName, Unload};
use std::alloc::{AllocGlobal, Global};
use std::process::Abort;
use std::test::Fail;

/// `count` entries, the first of which has this number.
fn group_of(alloc: Global, first: u64, count: u64) -> Result<Group, Fail> {
    if first == 0 || first > 1_000 {
        return Err("a first number from 1 to 1000".into());
    }
    let mut group = Group::new(alloc, first, unload_group(alloc, 1))?;
    for _ in 1..count {
        push_one(alloc, &mut group);
    }
    Ok(group)
}

fn push_one(alloc: Global, group: &mut Group) -> bool {
    let next = group.first() + group.count() as u64;
    next <= 1 << 63 && group.push(unload_group(alloc, 1)).is_ok()
}

fn unload_group(alloc: Global, loader: u64) -> CarriedEntry {
    CarriedEntry::unload(alloc, Unload { loader })
}

fn takes_64(rt: &(impl Abort + AllocGlobal), group: &mut Group) {
    let (first, learnt, full) = (group.first(), group.learnt_number(), group.count());
    let is_pushed = push_one(rt.alloc(), group);
    assert_eq!(rt; (first, learnt, full), (5, 0, 64));
    assert!(rt; !is_pushed && group.count() == 64);
}

#[test]
fn a_group_takes_64_entries_and_no_more(rt: HostRuntime) -> Result<(), Fail> {
    let mut group = group_of(rt.alloc(), 5, 64)?;
    takes_64(&rt, &mut group);
    Ok(())
}

fn loader_entry(alloc: Global, name: &[u8]) -> Result<CarriedEntry, Fail> {
    let name = SlotName::new(name).ok_or("two slots have room for it")?;
    Ok(CarriedEntry::loader(alloc, LoaderRow { number: 1, name }))
}

// Whether a group takes a loader of this name.
fn takes_loader(alloc: Global, group: &mut Group, name: &[u8]) -> Result<bool, Fail> {
    let next = group.first() + group.count() as u64;
    let entry = loader_entry(alloc, name)?;
    Ok(next <= 1 << 63 && group.push(entry).is_ok())
}

// A group of this many loaders of 96 bytes.
fn group_of_long_names(alloc: Global, first: u64, count: u64) -> Result<Group, Fail> {
    if first == 0 || first > 1_000 {
        return Err("a first number from 1 to 1000".into());
    }
    let mut group = Group::new(alloc, first, loader_entry(alloc, &[b'n'; 96])?)?;
    for _ in 1..count {
        let _pushed = takes_loader(alloc, &mut group, &[b'n'; 96])?;
    }
    Ok(group)
}

fn takes_32_long_names(rt: &(impl Abort + AllocGlobal), group: &mut Group) -> Result<(), Fail> {
    assert_eq!(rt; (group.count(), group.slots()), (32, 64));
    assert!(rt; !takes_loader(rt.alloc(), group, b"a")?);
    Ok(())
}

#[test]
fn a_group_takes_32_long_names(rt: HostRuntime) -> Result<(), Fail> {
    let mut group = group_of_long_names(rt.alloc(), 1, 40)?;
    takes_32_long_names(&rt, &mut group)
}

// Names for a group of 31 long ones, and whether it takes each after the ones before.
const BEHIND_31: [(&[u8], bool, usize); 5] = [
    (b"a", true, 63),
    (&[b'm'; 49], false, 63),
    (&[b'm'; 96], false, 63),
    (&[b'm'; 48], true, 64),
    (b"b", false, 64),
];

fn takes_what_has_slots(rt: &(impl Abort + AllocGlobal), group: &mut Group) -> Result<(), Fail> {
    for (name, is_taken, slots) in &BEHIND_31 {
        let found = takes_loader(rt.alloc(), group, name)?;
        assert_eq!(rt; (found, group.slots()), (*is_taken, *slots));
    }
    Ok(())
}

#[test]
fn a_group_takes_what_it_has_slots_for(rt: HostRuntime) -> Result<(), Fail> {
    let mut group = group_of_long_names(rt.alloc(), 1, 31)?;
    takes_what_has_slots(&rt, &mut group)
}

// Whether the second group joins the first, and how many entries and slots the first then has.
fn join_long_names(alloc: Global, count: u64, more: u64) -> Result<(bool, usize, usize), Fail> {
    let mut group = group_of_long_names(alloc, 1, count)?;
    let other = group_of_long_names(alloc, count.wrapping_add(1), more)?;
    let joins = group.add(other).is_ok();
    Ok((joins, group.count(), group.slots()))
}

#[test]
fn groups_join_by_their_slots(rt: HostRuntime) -> Result<(), Fail> {
    assert_eq!(rt; join_long_names(rt.alloc(), 16, 16)?, (true, 32, 64));
    assert_eq!(rt; join_long_names(rt.alloc(), 16, 17)?, (false, 16, 32));
    assert_eq!(rt; join_long_names(rt.alloc(), 32, 8)?, (false, 32, 64));
    Ok(())
}

// Whether a group that has learnt such a number joins.
fn is_taken(group: &mut Group, mut other: Group, learnt: u64) -> bool {
    if learnt < other.first() {
        other.set_learnt(learnt);
    }
    group.add(other).is_ok()
}

// First number and length of two groups, and what the second has learnt.
type Pair = (u64, u64, u64, u64, u64);

// Whether they join, and then the first number, the length and the learnt number of the first.
fn join_groups(alloc: Global, pair: Pair) -> Result<(bool, u64, u64, u64), Fail> {
    let (first, count, next, more, learnt) = pair;
    let mut group = group_of(alloc, first, count)?;
    let joins = is_taken(&mut group, group_of(alloc, next, more)?, learnt);
    Ok((
        joins,
        group.first(),
        group.count() as u64,
        group.learnt_number(),
    ))
}

const PAIRS: [(Pair, bool); 6] = [
    ((5, 3, 8, 2, 4), true),
    ((5, 3, 9, 2, 4), false),
    ((5, 3, 7, 2, 4), false),
    ((5, 3, 8, 2, 5), false),
    ((5, 32, 37, 32, 0), true),
    ((5, 32, 37, 33, 0), false),
];

#[test]
fn groups_join_where_one_goes_on(rt: HostRuntime) -> Result<(), Fail> {
    for (pair, joins) in &PAIRS {
        let (first, count, _, more, learnt) = *pair;
        let found = join_groups(rt.alloc(), *pair)?;
        let (entries, known) = if *joins {
            (count.saturating_add(more), learnt)
        } else {
            (count, 0)
        };
        assert_eq!(rt; found, (*joins, first, entries, known));
    }
    Ok(())
}

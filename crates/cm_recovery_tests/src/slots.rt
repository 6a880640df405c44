//! Slots of heads, rows and entries, written and read.
use crate::file_samples::put;
use cm_layout::{
    ClassRow, ENTRY_VERSION, Entry, GroupHead, HalfHead, LoaderNumbers, LoaderRow, Move,
    OLDEST_VERSION, Row, SLOT_BYTES, SlotName, Slots, Unload, UnloadAll, is_loader_name,
};
use cm_pool::{Chunk, Place};
use std::test::*;

fn chunk(root: u32, order: u32, at: u32) -> Chunk {
    Chunk { root, order, at }
}

/// Whether a slot has these bytes at a position.
fn has(slot: &[u8], at: usize, bytes: &[u8]) -> bool {
    match slot.get(at..) {
        Some(rest) => rest.starts_with(bytes),
        None => false,
    }
}

fn is_half_head(slot: &[u8; SLOT_BYTES], head: HalfHead) -> bool {
    HalfHead::decode(slot) == Some(head) && GroupHead::decode(slot).is_none()
}

#[test]
fn heads_of_halves_are_written_and_read(rt: HostRuntime) {
    let head = HalfHead {
        version: 1,
        live: 3,
        epoch: 2,
        base: 127,
    };
    let slot = head.encode();
    assert!(rt; has(&slot, 0, &[0xA5, 1, 1, 0]) && has(&slot, 16, &[127]));
    assert!(rt; is_half_head(&slot, head));
}

#[test]
fn heads_of_groups_are_written_and_read(rt: HostRuntime) {
    let group = GroupHead {
        count: 64,
        first: 258,
    };
    let slot = group.encode();
    assert!(rt; has(&slot, 0, &[0xA5, 2, 64, 0]) && has(&slot, 8, &[2, 1]));
    assert_eq!(rt; GroupHead::decode(&slot), Some(group));
}

/// The entry that a slot spells by itself, in the version that is written.
fn entry_in(slot: &[u8; SLOT_BYTES]) -> Option<Entry<()>> {
    Entry::decode(ENTRY_VERSION, slot)
}

fn is_class(slot: &[u8; SLOT_BYTES], class: ClassRow) -> bool {
    let is_loader = LoaderRow::decode(ENTRY_VERSION, slot).is_some();
    ClassRow::decode(slot) == Some(class) && !is_loader
}

#[test]
fn classes_are_written_and_read(rt: HostRuntime) {
    let class = ClassRow {
        loader: 1,
        place: Place {
            chunk: chunk(2, 8, 0),
            offset: 0,
            words: 16,
        },
    };
    let slot = class.encode();
    assert!(rt; has(&slot, 1, &[0x12]) && has(&slot, 4, &[16]) && has(&slot, 16, &[2]));
    assert!(rt; is_class(&slot, class));
}

fn loader_slots(name: &[u8]) -> Result<Slots, Fail> {
    let name = SlotName::new(name).ok_or("two slots have room for it")?;
    let loader: Row<()> = Row::Loader(LoaderRow { number: 9, name });
    Ok(Entry::Live(loader).encode())
}

/// The loader with which these slots begin, read as an entry and as a row, which agree.
fn loader_in(version: u16, slots: &[u8]) -> Option<LoaderRow> {
    if slots.len() < SLOT_BYTES {
        return None;
    }
    let row = LoaderRow::decode(version, slots)?;
    match Entry::decode(version, slots) {
        Some(Entry::Live(Row::Loader(loader))) => {
            let is_same = loader.number == row.number
                && loader.name.as_bytes() == row.name.as_bytes();
            if is_same { Some(row) } else { None }
        }
        _ => None,
    }
}

/// Whether these slots begin with loader 9, of this name.
fn is_loader(version: u16, slots: &[u8], name: &[u8]) -> bool {
    match loader_in(version, slots) {
        Some(row) => row.number == 9 && row.name.as_bytes() == name,
        None => false,
    }
}

#[test]
fn loaders_are_written_and_read(rt: HostRuntime) -> Result<(), Fail> {
    let slots = loader_slots(b"app")?;
    let bytes = slots.as_bytes();
    assert!(rt; bytes.len() == 64 && has(bytes, 0, &[0, 0x11, 3]) && has(bytes, 16, b"app\0"));
    assert!(rt; is_loader(ENTRY_VERSION, bytes, b"app"));
    assert!(rt; is_loader(OLDEST_VERSION, bytes, b"app"));
    Ok(())
}

#[test]
fn a_name_of_49_bytes_goes_on_in_the_next_slot(rt: HostRuntime) -> Result<(), Fail> {
    let slots = loader_slots(&[b'a'; 49])?;
    let bytes = slots.as_bytes();
    assert!(rt; bytes.len() == 128 && has(bytes, 0, &[0, 0x11, 49, 0, 0, 0, 0, 0, 9, 0]));
    assert!(rt; has(bytes, 63, &[b'a', 0, 0x16, 0]) && has(bytes, 79, &[0, b'a', 0]));
    assert!(rt; is_loader(ENTRY_VERSION, bytes, &[b'a'; 49]));
    // version 1 has no such name, and one slot is too few for it
    assert!(rt; loader_in(OLDEST_VERSION, bytes).is_none());
    let first = bytes.get(..64).ok_or("two slots")?;
    assert!(rt; loader_in(ENTRY_VERSION, first).is_none());
    Ok(())
}

#[test]
fn a_name_of_48_bytes_fills_its_slot_and_one_of_96_both(rt: HostRuntime) -> Result<(), Fail> {
    let slots = loader_slots(&[b'a'; 48])?;
    let bytes = slots.as_bytes();
    assert!(rt; bytes.len() == 64 && has(bytes, 2, &[48]) && has(bytes, 16, &[b'a'; 48]));
    assert!(rt; is_loader(OLDEST_VERSION, bytes, &[b'a'; 48]));
    let slots = loader_slots(&[b'z'; 96])?;
    let bytes = slots.as_bytes();
    assert!(rt; bytes.len() == 128 && has(bytes, 2, &[96]));
    assert!(rt; has(bytes, 16, &[b'z'; 48]) && has(bytes, 80, &[b'z'; 48]));
    assert!(rt; is_loader(ENTRY_VERSION, bytes, &[b'z'; 96]));
    Ok(())
}

/// Positions in the two slots of a name of 49 bytes, bytes there, and how long the name then read
/// is, if there is one.
const LONG_NAMES: [(usize, u8, Option<usize>); 14] = [
    (63, b'a', Some(49)),
    // a byte that no name has is still read
    (63, 0, Some(49)),
    (80, b' ', Some(49)),
    // its length says how many slots it has
    (2, 48, Some(48)),
    (2, 50, Some(50)),
    (2, 96, Some(96)),
    (2, 97, None),
    // a continuation slot of a wrong form
    (64, 1, None),
    (65, 0x11, None),
    (66, 1, None),
    (79, 1, None),
    (81, b'a', None),
    (127, 1, None),
    // a loader's slot of a wrong form
    (3, 1, None),
];

#[test]
fn a_rest_of_another_form_makes_no_loader(rt: HostRuntime) -> Result<(), Fail> {
    let slots = loader_slots(&[b'a'; 49])?;
    for (at, byte, long) in &LONG_NAMES {
        let mut bytes = Vec::from_slice(rt.alloc(), slots.as_bytes())?;
        put(&mut bytes, *at, *byte);
        let row = loader_in(ENTRY_VERSION, &bytes);
        let found = row.map(|row| row.name.as_bytes().len());
        assert_eq!(rt; found, *long, "{byte} at {at}");
    }
    Ok(())
}

#[test]
fn a_rest_alone_is_no_entry(rt: HostRuntime) -> Result<(), Fail> {
    let slots = loader_slots(&[b'a'; 49])?;
    let rest = slots.as_bytes().get(64..).ok_or("two slots")?;
    let rest = rest.first_chunk::<SLOT_BYTES>().ok_or("a slot")?;
    assert!(rt; entry_in(rest).is_none());
    assert!(rt; Entry::decode(OLDEST_VERSION, rest).is_none());
    Ok(())
}

fn is_unload(slot: &[u8; SLOT_BYTES], unload: Unload) -> bool {
    let is_entry = matches!(entry_in(slot), Some(Entry::Unload(_)));
    is_entry && Unload::decode(slot) == Some(unload)
}

#[test]
fn unloadings_are_written_and_read(rt: HostRuntime) {
    let unload = Unload { loader: 258 };
    let slot = unload.encode();
    assert!(rt; has(&slot, 0, &[0, 0x13]) && has(&slot, 8, &[2, 1, 0]));
    assert!(rt; is_unload(&slot, unload));
}

fn is_move(slot: &[u8; SLOT_BYTES], moved: Move) -> bool {
    let is_entry = matches!(entry_in(slot), Some(Entry::Move(_)));
    is_entry && Move::decode(slot) == Some(moved)
}

#[test]
fn moves_are_written_and_read(rt: HostRuntime) {
    let moved = Move {
        loader: 1,
        from: chunk(0, 1, 256),
        to: chunk(0, 0, 128),
    };
    let slot = moved.encode();
    assert!(rt; has(&slot, 0, &[0, 0x14]));
    assert!(rt; has(&slot, 16, &[0, 0, 0, 0, 1, 0, 0, 0, 0, 1, 0, 0]));
    assert!(rt; has(&slot, 28, &[0, 0, 0, 0, 0, 0, 0, 0, 128, 0, 0, 0]));
    assert!(rt; is_move(&slot, moved));
}

fn is_unload_all(slot: &[u8; SLOT_BYTES], loaders: &[u64]) -> bool {
    match entry_in(slot) {
        Some(Entry::UnloadAll(entry)) => entry.loaders.as_slice() == loaders,
        _ => false,
    }
}

fn unload_all_slot(loaders: &[u64]) -> Result<[u8; SLOT_BYTES], Fail> {
    let loaders = LoaderNumbers::new(loaders).ok_or("one to seven loaders")?;
    Ok(UnloadAll { loaders }.encode())
}

#[test]
fn unloadings_of_several_are_written_and_read(rt: HostRuntime) -> Result<(), Fail> {
    let slot = unload_all_slot(&[2, 1])?;
    assert!(rt; has(&slot, 0, &[0, 0x15, 2, 0, 0, 0, 0, 0]));
    assert!(rt; has(&slot, 8, &[2, 0, 0, 0, 0, 0, 0, 0, 1, 0, 0, 0, 0, 0, 0, 0]));
    assert!(rt; slot[24..] == [0; 40]);
    assert!(rt; is_unload_all(&slot, &[2, 1]));
    let seven = [1, 2, 3, 4, 5, 6, 7];
    assert!(rt; is_unload_all(&unload_all_slot(&seven)?, &seven));
    Ok(())
}

/// Positions in the slot of an unloading of two loaders, and bytes there that make it invalid.
const NO_UNLOADINGS: [(usize, u8); 6] = [(0, 1), (2, 0), (2, 1), (2, 8), (3, 1), (63, 1)];

#[test]
fn no_and_eight_loaders_are_no_list(rt: HostRuntime) -> Result<(), Fail> {
    assert!(rt; LoaderNumbers::new(&[]).is_none() && LoaderNumbers::new(&[1; 8]).is_none());
    for (at, byte) in &NO_UNLOADINGS {
        let mut slot = unload_all_slot(&[2, 1])?;
        slot[*at] = *byte;
        assert!(rt; entry_in(&slot).is_none());
    }
    Ok(())
}

#[test]
fn a_byte_that_has_to_be_0_counts(rt: HostRuntime) {
    let mut slot = GroupHead { count: 1, first: 1 }.encode();
    slot[63] = 1;
    assert_eq!(rt; GroupHead::decode(&slot), None);
}

/// Names, and whether a loader may have them.
const NAMES: [(&[u8], bool); 9] = [
    (b"app", true),
    (b"", false),
    (&[b'~'; 48], true),
    (&[b'!'; 49], true),
    (&[b'~'; 96], true),
    (&[b'!'; 97], false),
    (b"my app", false),
    (b"caf\xc3\xa9", false),
    (
        b"this-name-takes-two-slots-and-its-last-byte-is-one-outside\x7f",
        false,
    ),
];

#[test]
fn names_of_97_bytes_are_refused(rt: HostRuntime) {
    assert!(rt; SlotName::new(&[b'a'; 96]).is_some());
    assert!(rt; SlotName::new(&[b'a'; 97]).is_none());
    for (name, expected) in &NAMES {
        assert_eq!(rt; is_loader_name(name), *expected);
    }
}

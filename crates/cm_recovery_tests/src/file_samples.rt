//! Files of one loader with two classes, each in a group of its own, with their records.

use cm_commands::{Prepared, prepare};
use cm_layout::{
    ClassRow, ENTRY_VERSION, GroupHead, HalfHead, LoaderRow, SLOT_BYTES, SUPERBLOCK_BYTES,
    SlotName, Superblock,
};
use cm_pool::{Chunk, Place};
use cm_samples::{class, padded_class_file, small_geometry};
use std::alloc::Global;
use std::test::Fail;

/// Where the roots begin.
pub const ROOTS_AT: usize = 36_864;

/// Writes a byte at a position, if there is one.
pub fn put(bytes: &mut [u8], at: usize, byte: u8) {
    if let Some(there) = bytes.get_mut(at) {
        *there = byte;
    }
}

fn record_bytes(alloc: Global, class: &Prepared) -> Result<Vec<u8>, Fail> {
    let mut bytes = Vec::from_elem(alloc, 0, 8 * class.words() as usize)?;
    class.record().bytes_into(&mut bytes);
    Ok(bytes)
}

fn class_row(offset: u32, words: u32) -> ClassRow {
    ClassRow {
        loader: 1,
        place: Place {
            chunk: Chunk {
                root: 0,
                order: 0,
                at: 0,
            },
            offset,
            words,
        },
    }
}

// A group of one entry.
fn push_group(bytes: &mut Vec<u8>, first: u64, entry: &[u8]) -> Result<(), Fail> {
    bytes.extend_from_slice(&GroupHead { count: 1, first }.encode())?;
    bytes.extend_from_slice(entry)?;
    Ok(())
}

/// Halves of 256 slots: loader `a` and two classes, whose records have this many words, in slots 1
/// to 6 of half 0.
pub fn push_halves(bytes: &mut Vec<u8>, first: u32, second: u32) -> Result<(), Fail> {
    let head = HalfHead {
        version: ENTRY_VERSION,
        live: 0,
        epoch: 1,
        base: 0,
    };
    let name = SlotName::new(b"a").ok_or("a short name")?;
    bytes.extend_from_slice(&head.encode())?;
    let loader = LoaderRow { number: 1, name }.encode();
    push_group(bytes, 1, loader.as_bytes())?;
    push_group(bytes, 2, &class_row(0, first).encode())?;
    push_group(bytes, 3, &class_row(first, second).encode())?;
    bytes.resize(SUPERBLOCK_BYTES + 2 * 256 * SLOT_BYTES, 0)?;
    Ok(())
}

fn push_record(alloc: Global, bytes: &mut Vec<u8>, class: &Prepared) -> Result<(), Fail> {
    let record = record_bytes(alloc, class)?;
    bytes.extend_from_slice(&record)?;
    Ok(())
}

// All that follows the superblock.
fn push_rest(
    alloc: Global,
    bytes: &mut Vec<u8>,
    first: &Prepared,
    second: &Prepared,
) -> Result<(), Fail> {
    push_halves(bytes, first.words(), second.words())?;
    push_record(alloc, bytes, first)?;
    push_record(alloc, bytes, second)?;
    bytes.resize(ROOTS_AT + 8_192, 0)?;
    Ok(())
}

/// The bytes of a file with one root, in which these classes are defined.
pub fn file_of(alloc: Global, first: &Prepared, second: &Prepared) -> Result<Vec<u8>, Fail> {
    let geometry = small_geometry();
    let mut bytes = Superblock { geometry }.encode(alloc)?;
    push_rest(alloc, &mut bytes, first, second)?;
    Ok(bytes)
}

/// The same with the class `A`, whose record has 16 words, and the class `B` with an attribute of
/// no bytes, whose record has 20.
pub fn file_of_two(alloc: Global) -> Result<Vec<u8>, Fail> {
    let first = class(alloc, b"A")?;
    let second = prepare(alloc, &padded_class_file(alloc, b"B", 0)?)?;
    file_of(alloc, &first, &second)
}

//! Groups that are made by hand, of entries that are values, so that a test is a table of groups.

use crate::fronts::class;
use cm_group::{CarriedEntry, Group, MovedRecords};
use cm_layout::{ClassRow, LoaderRow, Move, SlotName, Unload};
use cm_pool::{Chunk, Place};
use std::alloc::Global;
use std::test::Fail;

/// An entry. Loaders and classes have names of one letter; each chunk has 128 words.
#[derive(Clone, Copy)]
pub enum Sample {
    Loader(u64, u8),
    /// A class of a loader, by its name, with the first word of its chunk in the first root, its
    /// offset and how many words its row states.
    Class(u64, u8, u32, u32, u32),
    /// The same with its chunk at the front of the second root.
    Far(u64, u8),
    Unload(u64),
    /// A loader's chunk, by its first word, moves to the chunk after it.
    Move(u64, u32),
}

/// How many words the record of each class has. Its attribute has no bytes.
pub const WORDS: u32 = 20;

fn chunk(root: u32, at: u32) -> Chunk {
    Chunk { root, order: 0, at }
}

fn class_entry(alloc: Global, loader: u64, name: u8, place: Place) -> Result<CarriedEntry, Fail> {
    let class = class(alloc, name, 0)?;
    let row = ClassRow { loader, place };
    Ok(CarriedEntry::class(alloc, row, class.into_record()))
}

fn loader_entry(alloc: Global, number: u64, name: u8) -> Result<CarriedEntry, Fail> {
    let name = SlotName::new(&[name]).ok_or("a short name")?;
    Ok(CarriedEntry::loader(alloc, LoaderRow { number, name }))
}

fn move_entry(alloc: Global, loader: u64, at: u32) -> Result<CarriedEntry, Fail> {
    let entry = Move {
        loader,
        from: chunk(0, at),
        to: chunk(0, at.saturating_add(128)),
    };
    Ok(CarriedEntry::of_move(entry, MovedRecords::none(alloc)))
}

fn entry_of(alloc: Global, sample: Sample) -> Result<CarriedEntry, Fail> {
    match sample {
        Sample::Loader(number, name) => loader_entry(alloc, number, name),
        Sample::Class(loader, name, at, offset, words) => {
            let chunk = chunk(0, at);
            class_entry(
                alloc,
                loader,
                name,
                Place {
                    chunk,
                    offset,
                    words,
                },
            )
        }
        Sample::Far(loader, name) => {
            let (chunk, offset, words) = (chunk(1, 0), 0, WORDS);
            class_entry(
                alloc,
                loader,
                name,
                Place {
                    chunk,
                    offset,
                    words,
                },
            )
        }
        Sample::Unload(loader) => Ok(CarriedEntry::unload(alloc, Unload { loader })),
        Sample::Move(loader, at) => move_entry(alloc, loader, at),
    }
}

fn push(group: &mut Group, entry: CarriedEntry) -> bool {
    let next = group.first() + group.count() as u64;
    next <= 1 << 63 && group.push(entry).is_ok()
}

fn push_all(alloc: Global, group: &mut Group, samples: &[Sample]) -> Result<(), Fail> {
    for sample in samples {
        let _pushed = push(group, entry_of(alloc, *sample)?);
    }
    Ok(())
}

/// The group of these entries, the first of which has this number.
pub fn group_of(alloc: Global, first: u64, samples: &[Sample]) -> Result<Group, Fail> {
    if first == 0 || first > 1 << 63 {
        return Err("a number of a command".into());
    }
    let Some((one, more)) = samples.split_first() else {
        return Err("an entry".into());
    };
    let mut group = Group::new(alloc, first, entry_of(alloc, *one)?)?;
    push_all(alloc, &mut group, more)?;
    Ok(group)
}

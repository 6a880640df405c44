//! What slots spell.

ghost use Rattle.std.specs.Prelude.{◌≡◌, ◌<◌, ◌≤◌, ◌^◌, length, IfSome};
ghost use Rattle.std.specs.List.{AllByRecursion};
ghost use Rattle.cm_layout.specs.Slots.{FitsHalfHead, FitsGroupHead, FitsLoader, FitsClass};
ghost use Rattle.cm_layout.specs.Slots.{FitsUnload, FitsUnloadAll, FitsChunk, FitsMove, FitsRow};
ghost use Rattle.cm_layout.specs.Slots.{FitsEntry};
ghost use Rattle.cm_layout.specs.Offsets.{slot_size};
ghost use Rattle.cm_layout.specs.Rows.{slots_of_row, slots_of};
ghost use Rattle.cm_verdict.specs.Decoding.{half_head_in as half_head_spelled};
ghost use Rattle.cm_verdict.specs.Decoding.{group_head_in as group_head_spelled};
ghost use Rattle.cm_verdict.specs.Decoding.{row_in as row_spelled, entry_in as entry_spelled};
ghost use Rattle.cm_verdict.specs.Decoding.{AreTaken};

use cm_layout::{
    ClassRow, Entry, GroupHead, HalfHead, LoaderRow, Move, Row, SLOT_BYTES, Unload, UnloadAll,
};
use cm_pool::Chunk;

/// The head of a half that a slot with an open gate spells.
pub(crate) fn half_head_in(slot: &[u8; SLOT_BYTES]) -> Option<HalfHead>
    ensures { result ≡ half_head_spelled slot.now }
{
    let head = HalfHead::decode(slot)?;
    fits_half_head(&head);
    Some(head)
}

/// The head of a group that a slot with an open gate spells.
pub(crate) fn group_head_in(slot: &[u8; SLOT_BYTES]) -> Option<GroupHead>
    ensures { result ≡ group_head_spelled slot.now }
{
    let head = GroupHead::decode(slot)?;
    fits_group_head(&head);
    Some(head)
}

/// The entry of this version that slots begin with.
pub(crate) fn entry_in(version: u16, slots: &[u8]) -> Option<Entry<()>>
    requires { slot_size ≤ length slots.now }
    ensures value { result ≡ entry_spelled version slots.now }
    ensures taken { IfSome result (λ entry. AreTaken slots.now (slots_of entry)) }
{
    let entry = Entry::decode(version, slots)?;
    fits_entry(&entry);
    Some(entry)
}

/// The live row of this version that slots begin with, that of a loader or of a class.
pub(crate) fn row_in(version: u16, slots: &[u8]) -> Option<Row<()>>
    requires { slot_size ≤ length slots.now }
    ensures value { result ≡ row_spelled version slots.now }
    ensures taken { IfSome result (λ row. AreTaken slots.now (slots_of_row row)) }
{
    let entry = entry_in(version, slots)?;
    match entry {
        Entry::Live(row) => Some(row),
        Entry::Unload(_) => None,
        Entry::Move(_) => None,
        Entry::UnloadAll(_) => None,
    }
}

// Where the numbers of a type are read, they are known to fit the fields of its slot.

fn fits_half_head(head: &HalfHead)
    ensures { FitsHalfHead head.now }
{
    let _version = head.version;
    let _live = head.live;
    let _epoch = head.epoch;
    let _base = head.base;
}

fn fits_group_head(head: &GroupHead)
    ensures { FitsGroupHead head.now }
{
    let _count = head.count;
    let _first = head.first;
}

fn fits_loader(row: &LoaderRow)
    ensures { FitsLoader row.now }
{
    let _number = row.number;
    let _name = row.name.as_bytes();
}

fn fits_chunk(chunk: &Chunk)
    ensures { FitsChunk chunk.now }
{
    let _root = chunk.root;
    let _order = chunk.order;
    let _at = chunk.at;
}

fn fits_class(row: &ClassRow)
    ensures { FitsClass row.now }
{
    fits_chunk(&row.place.chunk);
    let _loader = row.loader;
    let _words = row.place.words;
    let _offset = row.place.offset;
}

fn fits_unload(entry: &Unload)
    ensures { FitsUnload entry.now }
{
    let _loader = entry.loader;
}

fn fits_move(entry: &Move)
    ensures { FitsMove entry.now }
{
    fits_chunk(&entry.from);
    fits_chunk(&entry.to);
    let _loader = entry.loader;
}

fn fits_unload_all(entry: &UnloadAll)
    ensures { FitsUnloadAll entry.now }
{
    fits_numbers(entry.loaders.as_slice());
}

fn fits_numbers(numbers: &[u64])
    ensures { AllByRecursion (λ u. u < 2 ^ 64) numbers.now }
{
    for number in numbers {
        let _number = *number;
    }
}

fn fits_row(row: &Row<()>)
    ensures { FitsRow row.now }
{
    match row {
        Row::Loader(row) => fits_loader(row),
        Row::Class(row, _) => fits_class(row),
    }
}

fn fits_entry(entry: &Entry<()>)
    ensures { FitsEntry entry.now }
{
    match entry {
        Entry::Live(row) => fits_row(row),
        Entry::Unload(entry) => fits_unload(entry),
        Entry::Move(entry) => fits_move(entry),
        Entry::UnloadAll(entry) => fits_unload_all(entry),
    }
}

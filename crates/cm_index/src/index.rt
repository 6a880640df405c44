//! Rows by name: an index sorted by fingerprint, owner and name.

ghost use Rattle.std.specs.Prelude.{◌≡◌, ◌+◌, ◌^◌, ◌<◌, ◌≤◌, IfOk, take, length, vec_len};
ghost use Rattle.std.specs.Prelude.{vec_capacity};
ghost use Rattle.std.specs.Prelude.{[], ◌∷◌, ◌++◌, true, get_or, drop};
ghost use Rattle.std.specs.List.{find, AllByRecursion};
ghost use Rattle.std.specs.Option.{option_copied};
ghost use Rattle.cm_index.specs.Index.{rank, is_named, IsIndex, LivesAt, renewed};
ghost use Rattle.cm_index.specs.Sought.{name_sought, IsKey};
ghost use Rattle.cm_index.specs.Living.{living, swept};
ghost use Rattle.cm_index.specs.Blocks.{half_size, joined, place_of, room_of, AreBlocks, IsTaken};

use crate::block::IndexBlock;
use crate::blocks::{blocks_for, clear, empty_blocks, entry_at, pack, put_entry, set_entry};
use crate::kept::Kept;
use crate::search::{BlockPlace, search};
use crate::slot::BookSlot;
use crate::sought::Sought;
use crate::sweep::{count_places, sweep_blocks};
use cm_layout::Row;
use std::alloc::{AllocError, Global};
use std::marker::Model;

/// Where a row is, and the fingerprint of its owner and its name.
#[derive(Clone, Copy, Debug)]
pub struct IndexEntry {
    pub fingerprint: u32,
    pub at: u32,
}

/// The entries of an index in order. Contracts see them as one list, together with how many there
/// is room for. The memory for these is allocated when the index is made.
///
/// The entries are in blocks, so that inserting one moves at most a block's entries. A full block
/// gives half of its entries to a spare one, which is inserted after it.
#[derive(Drop)]
pub struct Index {
    /// The blocks in order, of which all but the first are at least half full.
    blocks: Vec<IndexBlock>,
    /// Blocks with no entries.
    spare: Vec<IndexBlock>,
}

impl Model for Index {
    ghost use Rattle.std.specs.Prelude.{vec_capacity};
    ghost use Rattle.cm_index.specs.Blocks.{Entries, joined, room_of, AreBlocks};

    ghost Value = { Entries };

    ghost view = { λ i. record {
      items = joined i.blocks.items;
      room = room_of i.blocks.items i.spare.items;
    } };

    ghost invariant = { λ i. AreBlocks 0 i.blocks.items i.spare.items (vec_capacity i.blocks)
        (vec_capacity i.spare) };
}

impl Index {
    /// An index with no entries, and with room for `count` of them.
    pub fn with_room(alloc: Global, count: usize) -> Result<Index, AllocError>
        ensures empty { IfOk result (λ index. index.items ≡ []) }
        ensures room { IfOk result (λ index. count ≤ index.room) }
    {
        let many = blocks_for(count);
        let blocks = empty_blocks(alloc, 1, many)?;
        let spare = empty_blocks(alloc, many - 1, many)?;
        Ok(Index { blocks, spare })
    }

    /// Leaves no entry.
    pub fn clear(&mut self)
        ensures items { self.new.items ≡ [] }
        ensures room { self.new.room ≡ self.old.room }
    {
        clear(&mut self.blocks, &mut self.spare);
    }

    /// The first living row of an owner that has this name.
    pub fn find<'a, P: Kept>(
        &self,
        slots: &'a [BookSlot<Row<P>>],
        sought: &Sought<P>,
    ) -> Option<&'a Row<P>>
        requires index { IsIndex P.mark P.name slots.now self.now.items }
        requires key { IsKey P.mark P.name sought.now }
        ensures { option_copied result ≡ find
            (is_named P.name (rank sought.now.owner) (name_sought P.name sought.now.name))
            (living slots.now) }
    {
        let Ok(spot) = search(&self.blocks, slots, sought) else {
            return None;
        };
        let entry = entry_at(&self.blocks, &spot);
        let slot = &slots[entry.at as usize];
        if slot.live { Some(&slot.item) } else { None }
    }

    /// Adds the next row, which lives, to an index of those before it, if there is room for it. An
    /// entry that leads to a dead row of its owner and name leads to the new row from then on.
    pub fn add<P: Kept>(&mut self, slots: &[BookSlot<Row<P>>], at: usize)
        requires index { IsIndex P.mark P.name (take at slots.now) self.old.items }
        requires within { at < length slots.now }
        requires lives { LivesAt slots.now at }
        requires fits { at < 2 ^ 32 }
        requires room { at < self.old.room }
        ensures index { IsIndex P.mark P.name (take (at + 1) slots.now) self.new.items }
        ensures room { self.new.room ≡ self.old.room }
    {
        add_entry(&mut self.blocks, &mut self.spare, slots, at);
    }

    /// Turns the index of all places into that of the places of live rows alone. `places` is
    /// overwritten.
    pub fn sweep<P: Kept>(&mut self, places: &mut Vec<u32>, slots: &[BookSlot<Row<P>>])
        requires index { IsIndex P.mark P.name slots.now self.old.items }
        requires fits { length slots.now ≤ 2 ^ 31 }
        requires room { length slots.now ≤ vec_capacity places.old }
        ensures index { IsIndex P.mark P.name (swept slots.now) self.new.items }
        ensures room { self.new.room ≡ self.old.room }
        ensures places { vec_capacity places.old ≤ vec_capacity places.new }
    {
        count_places(places, slots);
        sweep_blocks(&mut self.blocks, places, slots);
        pack(&mut self.blocks, &mut self.spare);
    }
}

/// Puts the next row's entry among those in an index's blocks.
fn add_entry<P: Kept>(
    blocks: &mut Vec<IndexBlock>,
    spare: &mut Vec<IndexBlock>,
    slots: &[BookSlot<Row<P>>],
    at: usize,
)
    requires blocks { AreBlocks 0 blocks.old.items spare.old.items (vec_capacity blocks.old)
        (vec_capacity spare.old) }
    requires index { IsIndex P.mark P.name (take at slots.now) (joined blocks.old.items) }
    requires within { at < length slots.now }
    requires lives { LivesAt slots.now at }
    requires fits { at < 2 ^ 32 }
    requires room { at < room_of blocks.old.items spare.old.items }
    ensures index { IsIndex P.mark P.name (take (at + 1) slots.now) (joined blocks.new.items) }
    ensures room { room_of blocks.new.items spare.new.items
        ≡ room_of blocks.old.items spare.old.items }
    ensures blocks { AreBlocks 0 blocks.new.items spare.new.items (vec_capacity blocks.new)
        (vec_capacity spare.new) }
{
    let sought = Sought::row(&slots[at].item);
    let entry = IndexEntry {
        fingerprint: sought.fingerprint,
        at: at as u32,
    };
    match search(blocks, &slots[..at], &sought) {
        Ok(spot) => renew(blocks, slots, &spot, entry),
        Err(spot) => put_entry(blocks, spare, spot, entry),
    }
}

/// Puts an entry in the place of one that leads to a dead row.
fn renew<P>(
    blocks: &mut Vec<IndexBlock>,
    slots: &[BookSlot<Row<P>>],
    spot: &BlockPlace,
    entry: IndexEntry,
)
    requires taken { IsTaken blocks.old.items spot.now }
    requires leads { (d : IndexEntry) → (get_or (joined blocks.old.items)
        (place_of blocks.old.items spot.now) d).at < length slots.now }
    requires half { AllByRecursion (λ b. half_size ≤ length b) (drop 1 blocks.old.items) }
    ensures items { joined blocks.new.items
        ≡ renewed slots.now (joined blocks.old.items) (place_of blocks.old.items spot.now) entry }
    ensures half { AllByRecursion (λ b. half_size ≤ length b) (drop 1 blocks.new.items) }
    ensures count { length blocks.new.items ≡ length blocks.old.items }
    ensures capacity { vec_capacity blocks.new ≡ vec_capacity blocks.old }
{
    let before = entry_at(blocks, spot);
    if !slots[before.at as usize].live {
        set_entry(blocks, spot, entry);
    }
}

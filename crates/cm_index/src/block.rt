//! A block of an index's entries.

ghost use Rattle.std.specs.Prelude.{◌≡◌, ◌≤◌, ◌<◌, ◌++◌, ◌==◌, List, [], length, take, drop};
ghost use Rattle.std.specs.Prelude.{get_or, IfOk};
ghost use Rattle.std.specs.Prelude.{slice_set, vec_capacity};
ghost use Rattle.std.specs.List.{insert, AllByRecursion};
ghost use Rattle.cm_index.specs.Sweep.{swept_entries};
ghost use Rattle.cm_index.specs.Blocks.{block_size, half_size, IsFilled};

use crate::index::IndexEntry;
use crate::slot::BookSlot;
use crate::sweep::sweep_entries;
use cm_layout::Row;
use std::alloc::{AllocError, Global};
use std::marker::Model;

/// How many entries a block has room for.
const BLOCK: usize = 1024;

/// How many entries a full block keeps when it is halved.
pub const HALF: usize = 512;

/// Some entries of an index, one after another. Its memory is allocated when it is made.
#[derive(Drop)]
pub struct IndexBlock {
    entries: Vec<IndexEntry>,
}

impl Model for IndexBlock {
    ghost use Rattle.std.specs.Prelude.{List, length, ◌≤◌, vec_capacity};
    ghost use Rattle.cm_index.specs.declared.index.IndexEntry.{IndexEntry};

    ghost Value = { List IndexEntry };

    ghost view = { λ b. b.entries.items };

    ghost invariant = { λ b. (length b.entries.items ≤ 1024) × (1024 ≤ vec_capacity b.entries) };
}

impl IndexBlock {
    /// A block with no entries.
    pub fn new(alloc: Global) -> Result<IndexBlock, AllocError>
        ensures { IfOk result (λ block. block ≡ []) }
    {
        let entries = Vec::with_capacity(alloc, BLOCK)?;
        Ok(IndexBlock { entries })
    }

    /// The entries in order.
    pub fn entries(&self) -> &[IndexEntry]
        ensures { result.now ≡ self.now }
    {
        &self.entries
    }

    /// The entry at a place.
    pub fn at(&self, place: usize) -> IndexEntry
        requires { place < length self.now }
        ensures { (d : IndexEntry) → result ≡ get_or self.now place d }
    {
        self.entries[place]
    }

    /// Whether there is no entry.
    pub fn is_empty(&self) -> bool
        ensures { result ≡ (length self.now == 0) }
    {
        self.entries.is_empty()
    }

    /// Whether there is no room for another entry.
    pub fn is_full(&self) -> bool
        ensures full { result ≡ (length self.now == block_size) }
        ensures most { length self.now ≤ block_size }
    {
        self.entries.len() == BLOCK
    }

    /// Puts an entry in the place of another.
    pub fn set(&mut self, place: usize, entry: IndexEntry)
        requires { place < length self.old }
        ensures { self.new ≡ slice_set self.old place entry }
    {
        self.entries[place] = entry;
    }

    /// Puts an entry at a place, before those from there on.
    pub fn insert(&mut self, place: usize, entry: IndexEntry)
        requires within { place ≤ length self.old }
        requires room { length self.old < block_size }
        ensures { self.new ≡ insert self.old place entry }
    {
        self.entries.insert(place, entry).unwrap();
    }

    /// Moves the upper half of a full block to an empty one.
    pub fn halve(&mut self, upper: &mut IndexBlock)
        requires full { length self.old ≡ block_size }
        requires empty { length upper.old ≡ 0 }
        ensures lower { self.new ≡ take half_size self.old }
        ensures upper { upper.new ≡ drop half_size self.old }
    {
        upper
            .entries
            .extend_from_slice(&self.entries[HALF..])
            .unwrap();
        self.entries.truncate(HALF);
    }

    /// Takes the last entries of the block before, as many as there is room for.
    pub fn fill(&mut self, before: &mut IndexBlock)
        ensures both { before.new ++ self.new ≡ before.old ++ self.old }
        ensures filled { IsFilled before.new self.new }
    {
        let count = before.entries.len().min(BLOCK - self.entries.len());
        let kept = before.entries.len() - count;
        self.entries
            .extend_from_slice(&before.entries[kept..])
            .unwrap();
        self.entries.rotate_right(count);
        before.entries.truncate(kept);
    }

    /// Keeps the entries that lead to live rows, and redirects each to its row's new place.
    pub fn sweep<P>(&mut self, slots: &[BookSlot<Row<P>>], places: &[u32])
        requires { AllByRecursion (λ e. e.at < length places.now) self.old }
        ensures { self.new ≡ swept_entries slots.now places.now self.old }
    {
        sweep_entries(&mut self.entries, slots, places);
    }

    /// Leaves no entry.
    pub fn clear(&mut self)
        ensures { self.new ≡ [] }
    {
        self.entries.clear();
    }
}

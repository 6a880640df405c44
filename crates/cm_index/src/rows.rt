//! Rows in places, and what finds them by name.

ghost use Rattle.std.specs.Prelude.{◌≡◌, ◌&&◌, ◌<◌, ◌≤◌, ◌^◌, ◌++◌, ◌∷◌, [], ℕ, Some, IfOk};
ghost use Rattle.std.specs.Prelude.{length, true, is_none, vec_len, vec_capacity};
ghost use Rattle.std.specs.List.{AllByRecursion};
ghost use Rattle.std.specs.Option.{option_copied};
ghost use Rattle.cm_layout.specs.Names.{is_loader_name};
ghost use Rattle.cm_layout.specs.Rows.{number_of};
ghost use Rattle.cm_index.specs.Index.{class_of, number_in, kept_in};
ghost use Rattle.cm_index.specs.Living.{living, swept};
ghost use Rattle.cm_index.specs.IndexedRows.{IsIndexed, HasNoRows, HasRoom};

use crate::index::Index;
use crate::kept::Kept;
use crate::slot::BookSlot;
use crate::sought::Sought;
use cm_layout::{Row, is_loader_name};
use std::alloc::{AllocError, Global};

/// Rows in places, and an index to the living ones of each owner and name.
///
/// Whoever ends rows, moves their records or replaces them sets the places themselves: the index
/// leads to the right ones again once all rows of a loader have ended, but not in between.
#[derive(Drop)]
pub struct IndexedRows<P> {
    /// The rows, and between them dead ones that aren't swept out yet.
    pub slots: Vec<BookSlot<Row<P>>>,
    pub index: Index,
    /// Room for the new places while rows are swept.
    pub places: Vec<u32>,
}

impl<P: Kept> IndexedRows<P> {
    /// No rows, with room for `count` of them.
    pub fn with_room(alloc: Global, count: usize) -> Result<IndexedRows<P>, AllocError>
        ensures none { IfOk result (λ rows. HasNoRows rows) }
        ensures room { IfOk result (λ rows. HasRoom rows count) }
    {
        let slots = Vec::with_capacity(alloc, count)?;
        let index = Index::with_room(alloc, count)?;
        let places = Vec::with_capacity(alloc, count)?;
        Ok(IndexedRows {
            slots,
            index,
            places,
        })
    }

    /// Removes all rows.
    pub fn clear(&mut self)
        ensures none { HasNoRows self.new }
        ensures room { (n : ℕ) → HasRoom self.old n → HasRoom self.new n }
    {
        self.slots.clear();
        self.index.clear();
    }

    /// The number of the live loader of a name.
    pub fn loader(&self, name: &[u8]) -> Option<u64>
        requires { IsIndexed P.mark P.name self.now }
        ensures { result ≡ number_of name.now (living self.now.slots.items) }
    {
        let sought = Sought::of_name(None, name);
        let Some(row) = self.index.find(&self.slots, &sought) else {
            return None;
        };
        number_in(row)
    }

    /// What is kept of the class of a name in the loader of a number.
    pub fn class(&self, loader: u64, name: &[u8]) -> Option<&P>
        requires { IsIndexed P.mark P.name self.now }
        ensures { option_copied result
            ≡ class_of P.name loader name.now (living self.now.slots.items) }
    {
        let sought = Sought::of_name(Some(loader), name);
        let Some(row) = self.index.find(&self.slots, &sought) else {
            return None;
        };
        value_in(row)
    }

    /// What is kept of the class that has the name of this one in the loader of a number.
    pub fn class_like(&self, loader: u64, class: &P) -> Option<&P>
        requires { IsIndexed P.mark P.name self.now }
        ensures { option_copied result
            ≡ class_of P.name loader (P.name class.now) (living self.now.slots.items) }
    {
        let sought = Sought::class(loader, class);
        let Some(row) = self.index.find(&self.slots, &sought) else {
            return None;
        };
        value_in(row)
    }

    /// Whether a loader can be given this name: it is a loader's name, and no live loader has it.
    pub fn is_new_loader_name(&self, name: &[u8]) -> bool
        requires { IsIndexed P.mark P.name self.now }
        ensures { result ≡ (is_loader_name name.now
            && is_none (number_of name.now (living self.now.slots.items))) }
    {
        is_loader_name(name) && self.loader(name).is_none()
    }

    /// Appends a row to the others, if there is room for it.
    pub fn push_row(&mut self, row: Row<P>)
        requires index { IsIndexed P.mark P.name self.old }
        requires fits { vec_len self.old.slots < 2 ^ 32 }
        requires room { vec_len self.old.slots < vec_capacity self.old.slots }
        requires index_room { vec_len self.old.slots < self.old.index.room }
        ensures slots { self.new.slots.items
            ≡ self.old.slots.items ++ record { item = row; live = true } ∷ [] }
        ensures index { IsIndexed P.mark P.name self.new }
        ensures capacity { vec_capacity self.old.slots ≤ vec_capacity self.new.slots }
        ensures index_room { self.new.index.room ≡ self.old.index.room }
        ensures places { self.new.places ≡ self.old.places }
    {
        let at = self.slots.len();
        self.slots
            .push(BookSlot {
                item: row,
                live: true,
            })
            .unwrap();
        self.index.add(&self.slots, at);
    }

    /// Indexes rows that were put in the place of the others and all live.
    pub fn index_anew(&mut self)
        requires live { AllByRecursion (λ s. s.live ≡ true) self.old.slots.items }
        requires fits { length self.old.slots.items ≤ 2 ^ 32 }
        requires room { length self.old.slots.items ≤ self.old.index.room }
        ensures index { IsIndexed P.mark P.name self.new }
        ensures room { self.new.index.room ≡ self.old.index.room }
        ensures slots { self.new.slots ≡ self.old.slots }
        ensures places { self.new.places ≡ self.old.places }
    {
        self.index.clear();
        for at in 0..self.slots.len() {
            self.index.add(&self.slots, at);
        }
    }

    /// Sweeps the dead rows out of the places.
    pub fn sweep(&mut self)
        requires index { IsIndexed P.mark P.name self.old }
        requires fits { length self.old.slots.items ≤ 2 ^ 31 }
        requires room { length self.old.slots.items ≤ vec_capacity self.old.places }
        ensures slots { self.new.slots.items ≡ swept self.old.slots.items }
        ensures index { IsIndexed P.mark P.name self.new }
        ensures capacity { vec_capacity self.new.slots ≡ vec_capacity self.old.slots }
        ensures index_room { self.new.index.room ≡ self.old.index.room }
        ensures places { vec_capacity self.old.places ≤ vec_capacity self.new.places }
    {
        self.index.sweep(&mut self.places, &self.slots);
        sweep_slots(&mut self.slots);
    }
}

/// Removes dead items.
pub fn sweep_slots<T: Drop>(slots: &mut Vec<BookSlot<T>>)
    ensures slots { slots.new.items ≡ swept slots.old.items }
    ensures capacity { vec_capacity slots.new ≡ vec_capacity slots.old }
{
    slots.retain(|slot| slot.live);
}

fn number_in<P>(row: &Row<P>) -> Option<u64>
    ensures { result ≡ number_in (Some row.now) }
{
    match row {
        Row::Loader(row) => Some(row.number),
        Row::Class(_, _) => None,
    }
}

fn value_in<P>(row: &Row<P>) -> Option<&P>
    ensures { option_copied result ≡ kept_in (Some row.now) }
{
    match row {
        Row::Loader(_) => None,
        Row::Class(_, kept) => Some(kept),
    }
}

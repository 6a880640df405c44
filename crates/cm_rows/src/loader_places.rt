//! The places of loaders.

ghost use Rattle.std.specs.Prelude.{◌≡◌, ◌<◌, ◌≤◌, ◌++◌, ◌∷◌, [], ℕ, Some, None, IfOk};
ghost use Rattle.std.specs.Prelude.{vec_len, vec_capacity};
ghost use Rattle.cm_rows.specs.Loaders.{living_loader, HasEnded};
ghost use Rattle.cm_rows.specs.Places.{HasNoLoaders, HasLoaderRoom};

use crate::links::push_place;
use crate::live_loader::{LiveLoader, living_end, push_loader};
use cm_index::BookSlot;
use std::alloc::{AllocError, Global};

/// The places of loaders, sorted by number.
#[derive(Drop)]
pub struct LoaderPlaces {
    /// The loaders, and between them those that are dead.
    pub slots: Vec<BookSlot<LiveLoader>>,
    /// For each loader the place of its last row.
    pub newest: Vec<Option<u32>>,
}

impl LoaderPlaces {
    /// No loaders, with room for `count` of them.
    pub fn with_room(alloc: Global, count: usize) -> Result<LoaderPlaces, AllocError>
        ensures none { IfOk result (λ loaders. HasNoLoaders loaders) }
        ensures room { IfOk result (λ loaders. HasLoaderRoom loaders count) }
    {
        let slots = Vec::with_capacity(alloc, count)?;
        let newest = Vec::with_capacity(alloc, count)?;
        Ok(LoaderPlaces { slots, newest })
    }

    /// Removes all loaders.
    pub fn clear(&mut self)
        ensures none { HasNoLoaders self.new }
        ensures room { (n : ℕ) → HasLoaderRoom self.old n → HasLoaderRoom self.new n }
    {
        self.slots.clear();
        self.newest.clear();
    }

    /// Appends a loader with no class to the others, with the place of its row, if there is room
    /// for it.
    pub fn push(&mut self, number: u64, place: u32)
        requires room { vec_len self.old.slots < vec_capacity self.old.slots }
        requires newest_room { vec_len self.old.newest < vec_capacity self.old.newest }
        ensures slots { self.new.slots.items
            ≡ self.old.slots.items ++ living_loader number None ∷ [] }
        ensures newest { self.new.newest.items ≡ self.old.newest.items ++ Some place ∷ [] }
        ensures capacity { vec_capacity self.old.slots ≤ vec_capacity self.new.slots }
        ensures newest_capacity { vec_capacity self.old.newest ≤ vec_capacity self.new.newest }
    {
        let loader = LiveLoader { number, last: None };
        push_loader(&mut self.slots, loader);
        push_place(&mut self.newest, Some(place));
    }

    /// Ends a loader. It keeps its place as long as one after it lives.
    pub fn end(&mut self, at: usize, number: u64)
        requires within { at < vec_len self.old.slots }
        requires beside { vec_len self.old.newest ≡ vec_len self.old.slots }
        ensures ended { HasEnded self.old at number self.new }
        ensures capacity { vec_capacity self.new.slots ≡ vec_capacity self.old.slots }
        ensures newest_capacity { vec_capacity self.new.newest ≡ vec_capacity self.old.newest }
    {
        self.slots[at] = BookSlot {
            item: LiveLoader { number, last: None },
            live: false,
        };
        self.newest[at] = None;
        let count = living_end(&self.slots);
        self.slots.truncate(count);
        self.newest.truncate(count);
    }
}

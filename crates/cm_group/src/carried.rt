//! An entry with the records that it writes.

ghost use Rattle.std.specs.Prelude.{◌≡◌, [], map, Some, None, MatchOption};
ghost use Rattle.std.specs.Arc.{arc_value};
ghost use Rattle.std.specs.List.{AllByRecursion, slice_get};
ghost use Rattle.cm_group.specs.Groups.{Carried, CarriesRight, IsRightRecord, class_made};
ghost use Rattle.cm_group.specs.Groups.{offsets_from};
ghost use Rattle.cm_layout.specs.Frames.{bare_entry};
ghost use Rattle.cm_layout.specs.Rows.{slots_of, entry_with};
ghost use Rattle.cm_layout.specs.declared.entry.Entry.TheVariants as variant;
ghost use Rattle.cm_layout.specs.declared.row.Row.TheVariants.{Loader, Class};

use crate::moved::MovedRecords;
use cm_layout::{ClassRow, Entry, LoaderRow, Move, Row, Unload, UnloadAll};
use cm_record::Record;
use std::alloc::Global;
use std::marker::Model;
use std::sync::Arc;

/// An entry with the records that it writes, each of a class that keeps the class rules: for a
/// class its own, for a move those on the old chunk, for any other entry none. Records are shared,
/// never copied.
#[derive(Drop)]
pub struct CarriedEntry {
    entry: Entry<Arc<Record, Global>>,
    /// For a move the records that move; else none.
    moved: MovedRecords,
}

impl Model for CarriedEntry {
    ghost use Rattle.std.specs.Arc.{arc_value};
    ghost use Rattle.cm_layout.specs.Rows.{entry_with};
    ghost use Rattle.cm_group.specs.Groups.{Carried, CarriesRight};

    ghost Value = { Carried };

    ghost view = { λ c. record { entry = entry_with arc_value c.entry; moved = c.moved } };

    ghost invariant = { λ c.
        CarriesRight (record { entry = entry_with arc_value c.entry; moved = c.moved }) };
}

impl CarriedEntry {
    /// A loader's row, which writes no record.
    pub fn loader(alloc: Global, row: LoaderRow) -> CarriedEntry
        ensures { result ≡ record { entry = variant.Live (Loader row); moved = [] } }
    {
        CarriedEntry {
            entry: Entry::Live(Row::Loader(row)),
            moved: MovedRecords::none(alloc),
        }
    }

    /// A class's row, which writes its record.
    pub fn class(alloc: Global, row: ClassRow, class: Arc<Record, Global>) -> CarriedEntry
        requires right { IsRightRecord (arc_value class) }
        ensures { result
            ≡ record { entry = variant.Live (Class row (arc_value class)); moved = [] } }
    {
        CarriedEntry {
            entry: Entry::Live(Row::Class(row, class)),
            moved: MovedRecords::none(alloc),
        }
    }

    /// The unloading of a loader, which writes no record.
    pub fn unload(alloc: Global, entry: Unload) -> CarriedEntry
        ensures { result ≡ record { entry = variant.Unload entry; moved = [] } }
    {
        CarriedEntry {
            entry: Entry::Unload(entry),
            moved: MovedRecords::none(alloc),
        }
    }

    /// The unloading of several loaders at once, which writes no record.
    pub fn unload_all(alloc: Global, entry: UnloadAll) -> CarriedEntry
        ensures { result ≡ record { entry = variant.UnloadAll entry; moved = [] } }
    {
        CarriedEntry {
            entry: Entry::UnloadAll(entry),
            moved: MovedRecords::none(alloc),
        }
    }

    /// The move of a loader's last chunk, with the records on it, in order. Doesn't allocate.
    pub fn of_move(entry: Move, moved: MovedRecords) -> CarriedEntry
        requires right { AllByRecursion IsRightRecord moved }
        ensures { result ≡ record { entry = variant.Move entry; moved = moved } }
    {
        CarriedEntry {
            entry: Entry::Move(entry),
            moved,
        }
    }

    /// The entry as the journal has it, with nothing kept of a class.
    pub fn bare(&self) -> Entry<()>
        ensures { result ≡ bare_entry self.now.entry }
    {
        self.entry.bare()
    }

    /// The class that it makes, with its record, if it makes one.
    pub fn class_made(&self) -> Option<(&ClassRow, &Arc<Record, Global>)>
        ensures class { MatchOption result (class_made self.now.entry ≡ None)
            (λ d. class_made self.now.entry ≡ Some (d.0.now, arc_value d.1.now)) }
        ensures right { CarriesRight self.now }
    {
        match &self.entry {
            Entry::Live(Row::Class(row, class)) => Some((row, class)),
            Entry::Live(Row::Loader(_)) | Entry::Unload(_) | Entry::Move(_) | Entry::UnloadAll(_) =>
                None,
        }
    }

    /// The records that move with it, in order: none unless it is a move.
    pub fn moved(&self) -> &[Arc<Record, Global>]
        ensures { map arc_value result.now ≡ self.now.moved }
    {
        self.moved.records()
    }

    /// The record of this number among those that move with it, and its offset on the chunk.
    pub fn moved_at(&self, number: usize) -> Option<(u32, &Arc<Record, Global>)>
        ensures record { MatchOption result (slice_get self.now.moved number ≡ None)
            (λ m. slice_get self.now.moved number ≡ Some (arc_value m.1.now)) }
        ensures offset { MatchOption result (slice_get self.now.moved number ≡ None)
            (λ m. slice_get (offsets_from 0 self.now.moved) number ≡ Some m.0) }
    {
        self.moved.at(number)
    }

    /// How many slots it takes in its group.
    pub(crate) fn slots(&self) -> usize
        ensures value { result ≡ slots_of (bare_entry self.now.entry) }
        ensures right { CarriesRight self.now }
    {
        self.entry.bare().slots()
    }

    /// The entry; a class with its record.
    pub fn into_entry(self) -> Entry<Arc<Record, Global>>
        ensures { entry_with arc_value result ≡ self.entry }
    {
        let CarriedEntry { entry, .. } = self;
        entry
    }
}

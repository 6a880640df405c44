//! The entries of the journal: what one command leaves in a group.

ghost use Rattle.std.specs.Prelude.{◌≡◌, ◌≤◌, ◌*◌, ◌++◌, length, take, IfSome, Some};
ghost use Rattle.cm_layout.specs.Offsets.{slot_size};

use crate::class_row::ClassRow;
use crate::loader_row::LoaderRow;
use crate::move_entry::Move;
use crate::row::Row;
use crate::slot::front_slot;
use crate::slots::Slots;
use crate::unload::Unload;
use crate::unload_all::UnloadAll;

/// How many slots a group's entries may take.
pub const GROUP_SLOTS: usize = 64;

/// What one command leaves in the journal.
#[derive(Debug, Drop)]
pub enum Entry<P> {
    /// A loader or a class lives from here on.
    Live(Row<P>),
    Unload(Unload),
    Move(Move),
    UnloadAll(UnloadAll),
}

impl<P> Entry<P> {
    ghost use Rattle.cm_layout.specs.Slots.{entry_slots};
    ghost use Rattle.cm_layout.specs.Rows.{slots_of};
    ghost use Rattle.cm_layout.specs.Frames.{bare_entry};

    /// The entry with nothing kept of a class.
    pub fn bare(&self) -> Entry<()>
        ensures { result ≡ bare_entry self.now }
    {
        match self {
            Entry::Live(row) => Entry::Live(row.bare()),
            Entry::Unload(entry) => Entry::Unload(*entry),
            Entry::Move(entry) => Entry::Move(*entry),
            Entry::UnloadAll(entry) => Entry::UnloadAll(*entry),
        }
    }

    /// How many slots it takes in its group.
    pub fn slots(&self) -> usize
        ensures { result ≡ slots_of self.now }
    {
        match self {
            Entry::Live(row) => row.slots(),
            Entry::Unload(_) | Entry::Move(_) | Entry::UnloadAll(_) => 1,
        }
    }

    /// The slots of this entry. They hold nothing of a class but its place.
    pub fn encode(&self) -> Slots
        ensures { result ≡ entry_slots self.now }
    {
        match self {
            Entry::Live(row) => row.encode(),
            Entry::Unload(entry) => Slots::one(&entry.encode()),
            Entry::Move(entry) => Slots::one(&entry.encode()),
            Entry::UnloadAll(entry) => Slots::one(&entry.encode()),
        }
    }
}

impl Entry<()> {
    ghost use Rattle.cm_layout.specs.Slots.{entry_slots, FitsEntry, EntryOfVersion};
    ghost use Rattle.cm_layout.specs.Rows.{slots_of};

    /// The entry that these slots begin with, if they begin with one of this version. It takes as
    /// many of them as [`slots`](Entry::slots) says.
    pub fn decode(version: u16, slots: &[u8]) -> Option<Entry<()>>
        requires { slot_size ≤ length slots.now }
        ensures found { IfSome result (λ entry.
            take (slot_size * slots_of entry) slots.now ≡ entry_slots entry) }
        ensures version { IfSome result (EntryOfVersion version) }
        ensures only { (entry : _) (behind : _) → FitsEntry entry → EntryOfVersion version entry
            → slots.now ≡ entry_slots entry ++ behind → result ≡ Some entry }
    {
        if let Some(row) = LoaderRow::decode(version, slots) {
            return Some(Entry::Live(Row::Loader(row)));
        }
        let slot = front_slot(slots);
        if let Some(row) = ClassRow::decode(slot) {
            return Some(Entry::Live(Row::Class(row, ())));
        }
        if let Some(entry) = Unload::decode(slot) {
            return Some(Entry::Unload(entry));
        }
        if let Some(entry) = Move::decode(slot) {
            return Some(Entry::Move(entry));
        }
        let entry = UnloadAll::decode(slot)?;
        Some(Entry::UnloadAll(entry))
    }
}

//! Rows: what lives in a cache, each with what is kept of it.

ghost use Rattle.std.specs.Prelude.{◌≡◌};

use crate::class_row::ClassRow;
use crate::loader_row::LoaderRow;
use crate::slots::Slots;

/// What lives: a loader, or a class with what is kept of it (nothing, its record's words, its
/// class).
#[derive(Debug, Drop)]
pub enum Row<P> {
    Loader(LoaderRow),
    Class(ClassRow, P),
}

impl<P> Row<P> {
    ghost use Rattle.cm_layout.specs.Slots.{row_slots};
    ghost use Rattle.cm_layout.specs.Rows.{slots_of_row};
    ghost use Rattle.cm_layout.specs.Frames.{bare_row};

    /// The row with nothing kept of a class.
    pub fn bare(&self) -> Row<()>
        ensures { result ≡ bare_row self.now }
    {
        match self {
            Row::Loader(row) => Row::Loader(*row),
            Row::Class(row, _) => Row::Class(*row, ()),
        }
    }

    /// How many slots it takes as a live row.
    pub fn slots(&self) -> usize
        ensures { result ≡ slots_of_row self.now }
    {
        match self {
            Row::Loader(row) => row.name.slots(),
            Row::Class(_, _) => 1,
        }
    }

    /// The slots of this row. They hold nothing of a class but its place.
    pub fn encode(&self) -> Slots
        ensures { result ≡ row_slots self.now }
    {
        match self {
            Row::Loader(row) => row.encode(),
            Row::Class(row, _) => Slots::one(&row.encode()),
        }
    }
}

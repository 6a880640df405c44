//! A class's row, and the bytes of its record.
ghost use Rattle.std.specs.Prelude.{◌≡◌};
ghost use Rattle.cm_view_index.specs.Rows.{row_bytes as bytes_of_row, name_of as name_of_row};

use cm_shown_names::name_shown;
use std::mem::size_of;

/// A live class of a file: where its record is, and what it is found by. It borrows nothing, so
/// whoever holds the file's bytes may keep rows wherever they like.
#[repr(C)]
#[derive(Clone, Copy, Debug, PartialEq, Eq)]
pub struct ViewRow {
    /// The number of its loader.
    pub loader: u64,
    /// Where the record's bytes begin in the file.
    pub at: u64,
    /// How many words the record has.
    pub words: u32,
    /// The slot of the entry that defined the class, counted over both halves of the journal.
    pub slot: u32,
    /// A number that depends on the loader and the class's name alone.
    pub mark: u32,
}

// Whoever keeps rows elsewhere relies on this.
const _: () = prove!(size_of::<ViewRow>() == 32);

/// The bytes of a row's record, as far as the file has them.
pub fn row_bytes<'a>(bytes: &'a [u8], row: &ViewRow) -> &'a [u8]
    ensures { result.now ≡ bytes_of_row bytes.now row.now }
{
    if row.at > bytes.len() as u64 {
        return &[];
    }
    let rest = bytes.split_at(row.at as usize).1;
    rest.split_at(rest.len().min(8 * row.words as usize)).0
}

/// The name that a row's record shows; none is the empty name, which no class has.
pub fn name_of<'a>(bytes: &'a [u8], row: &ViewRow) -> &'a [u8]
    ensures { result.now ≡ name_of_row bytes.now row.now }
{
    match name_shown(row_bytes(bytes, row)) {
        Some(name) => name,
        None => &[],
    }
}

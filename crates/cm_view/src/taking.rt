//! Judges the record of a row.
ghost use Rattle.std.specs.Prelude.{◌≡◌, true, false, IfOk};
ghost use Rattle.cm_view_index.specs.Rows.{row_bytes as bytes_of_row};
ghost use Rattle.cm_view.specs.Taking.{IsThere, IsTaken};

use cm_record::Record;
use cm_record_layout::MAX_WORDS;
use cm_verdict::read_record;
use cm_view_index::{ViewRow, row_bytes};
use cm_words::WordBuf;
use std::alloc::{AllocError, Global};

// Whether the file has all bytes of a row's record, and they are no more than any may have.
fn is_there(bytes: &[u8], row: &ViewRow) -> bool
    ensures yes { result ≡ true → IsThere bytes.now row.now }
    ensures no { result ≡ false → IsThere bytes.now row.now → ⊥ }
{
    let long = bytes.len() as u64;
    u64::from(row.words) <= MAX_WORDS && row.at <= long && 8 * u64::from(row.words) <= long - row.at
}

/// The record of a row, if its class keeps the class rules. Its class is spelled in `buffer` if a
/// look at its words doesn't show that; one buffer serves for any number of records.
pub fn take_record(
    alloc: Global,
    buffer: &mut Vec<u8>,
    bytes: &[u8],
    row: &ViewRow,
) -> Result<Option<Record>, AllocError>
    ensures { IfOk result (IsTaken bytes.now row.now) }
{
    if !is_there(bytes, row) {
        return Ok(None);
    }
    let words = WordBuf::from_bytes(alloc, row_bytes(bytes, row))?;
    read_record(alloc, buffer, words)
}

//! Finds a class.
ghost use Rattle.std.specs.Prelude.{◌≡◌, None, IfOk, IfErr, IfSome};
ghost use Rattle.cm_view_index.specs.Index.{IsIndexOf};
ghost use Rattle.cm_view.specs.Finding.{IsFound, HasNone, IsFaultAmong};

use crate::fault::FindFault;
use crate::laws::rows_show_names;
use crate::taking::take_record;
use cm_record::Record;
use cm_view_index::{ViewRow, find_row};
use std::alloc::Global;

/// The record of the class of this name in the loader of this number. Whatever the bytes and the
/// rows are, what is found is the record of one of these rows: a class of this loader that keeps
/// the class rules and has this name. That there is none holds if the rows are an index of these
/// bytes.
pub fn find(
    alloc: Global,
    buffer: &mut Vec<u8>,
    bytes: &[u8],
    rows: &[ViewRow],
    loader: u64,
    name: &[u8],
) -> Result<Option<Record>, FindFault>
    ensures found { IfOk result (λ found. IfSome found (λ words.
        IsFound bytes.now rows.now loader name.now words)) }
    ensures none { IfOk result (λ found. found ≡ None → IsIndexOf bytes.now rows.now
        → HasNone bytes.now rows.now loader name.now) }
    ensures fault { IfErr result (λ e. IsFaultAmong bytes.now rows.now loader e) }
{
    rows_show_names(bytes);
    let Some(row) = find_row(bytes, rows, loader, name) else {
        return Ok(None);
    };
    match take_record(alloc, buffer, bytes, row) {
        Ok(Some(record)) => Ok(Some(record)),
        Ok(None) => Err(FindFault::Damaged { slot: row.slot }),
        Err(_) => Err(FindFault::NoMemory),
    }
}

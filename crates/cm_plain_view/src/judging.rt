//! Judges the record of a row of a view.

ghost use Rattle.std.specs.Prelude.{IfOk};
ghost use Rattle.cm_plain_view.specs.Views.{IsJudged};

use cm_view::{rows_show_names, take_record};
use cm_view_index::ViewRow;
use std::alloc::{AllocError, Global};

/// Whether the record of a row is that of a class that keeps the class rules. If it is, the class
/// has the name that the row shows.
pub fn judge_row(alloc: Global, bytes: &[u8], row: &ViewRow) -> Result<bool, AllocError>
    ensures { IfOk result (IsJudged bytes.now row.now) }
{
    rows_show_names(bytes);
    let mut buffer = Vec::new(alloc);
    match take_record(alloc, &mut buffer, bytes, row) {
        Ok(Some(_)) => Ok(true),
        Ok(None) => Ok(false),
        Err(error) => Err(error),
    }
}

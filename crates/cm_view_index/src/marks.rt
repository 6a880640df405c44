//! Marks of loaders and names.
ghost use Rattle.std.specs.Prelude.{◌≡◌, IfSome, IfNone, None};
ghost use Rattle.cm_shown_names.specs.Shown.{name_shown as name_shown_by};
ghost use Rattle.cm_view_index.specs.Rows.{row_bytes as bytes_of_row, mark_of as mark_of_name};
ghost use Rattle.cm_view_index.specs.Rows.{IsMarked};

use crate::row::{ViewRow, row_bytes};
use cm_record::fingerprint;
use cm_shown_names::name_shown;

/// The mark of a class: by it rows are compared before their records are looked at. Whoever
/// chooses the names can produce equal marks.
pub fn mark_of(loader: u64, name: &[u8]) -> u32
    ensures { result ≡ mark_of_name loader name.now }
{
    fingerprint(loader, name)
}

/// The row with the mark of the name that its record shows, if it shows one.
pub fn marked(bytes: &[u8], row: ViewRow) -> Option<ViewRow>
    ensures some { IfSome result (IsMarked bytes.now row) }
    ensures none { IfNone result (name_shown_by (bytes_of_row bytes.now row) ≡ None) }
{
    match name_shown(row_bytes(bytes, &row)) {
        Some(name) => {
            let mark = mark_of(row.loader, name);
            Some(ViewRow { mark, ..row })
        }
        None => None,
    }
}

//! Rows in order, and looking them up.
ghost use Rattle.std.specs.Prelude.{◌≡◌, ◌↔◌, ◌<◌, length, IfSome, IfNone, IsTrue};
ghost use Rattle.std.specs.List.Sorted.{IsPermutation};
ghost use Rattle.cm_view_index.specs.Index.{IsInOrder, IsIndexOf, IsRowAt, IsRowFor, HasNoRow};
ghost use Rattle.cm_view_index.specs.Rows.{name_of as name_of_row};
ghost use Rattle.cm_view_index.specs.Index.{AreAlike, HasTwin, NamesDiffer};

use crate::marks::mark_of;
use crate::order::{cmp_rows, is_before};
use crate::row::{ViewRow, name_of};

/// Sorts rows by mark, then loader, then the name that they show.
pub fn sort_rows(bytes: &[u8], rows: &mut Vec<ViewRow>)
    ensures same { IsPermutation rows.old.items rows.new.items }
    ensures order { IsInOrder bytes.now rows.new.items }
{
    rows.sort_unstable_by(|one, other| cmp_rows(bytes, one, other));
}

/// Whether a row is of this loader and shows this name.
fn is_for(bytes: &[u8], row: &ViewRow, loader: u64, name: &[u8]) -> bool
    ensures owner { IsTrue result → row.now.loader ≡ loader }
    ensures named { IsTrue result → name_of_row bytes.now row.now ≡ name.now }
    ensures no { row.now.loader ≡ loader → name_of_row bytes.now row.now ≡ name.now
        → IsTrue result }
{
    row.loader == loader && name_of(bytes, row) == name
}

/// Where a row of this loader that shows this name is among the rows. If the rows are an index of
/// these bytes and there is none, none shows it. About a logarithm of the rows is looked at,
/// whatever names they show.
pub fn find_at(bytes: &[u8], rows: &[ViewRow], loader: u64, name: &[u8]) -> Option<usize>
    ensures some { IfSome result (IsRowAt bytes.now rows.now loader name.now) }
    ensures none { IfNone result
        (IsIndexOf bytes.now rows.now → HasNoRow bytes.now rows.now loader name.now) }
{
    let mark = mark_of(loader, name);
    let at = rows.partition_point(|row| is_before(bytes, row, mark, loader, name));
    if at < rows.len() && is_for(bytes, &rows[at], loader, name) {
        Some(at)
    } else {
        None
    }
}

/// The row that [`find_at`] finds.
pub fn find_row<'a>(
    bytes: &[u8],
    rows: &'a [ViewRow],
    loader: u64,
    name: &[u8],
) -> Option<&'a ViewRow>
    ensures some { IfSome result (λ row. IsRowFor bytes.now rows.now loader name.now row.now) }
    ensures none { IfNone result
        (IsIndexOf bytes.now rows.now → HasNoRow bytes.now rows.now loader name.now) }
{
    match find_at(bytes, rows, loader, name) {
        Some(at) => Some(&rows[at]),
        None => None,
    }
}

/// Whether two rows have one mark and one loader, and show one name.
fn are_alike(bytes: &[u8], one: &ViewRow, other: &ViewRow) -> bool
    ensures { IsTrue result ↔ AreAlike bytes.now one.now other.now }
{
    one.mark == other.mark
        && one.loader == other.loader
        && name_of(bytes, one) == name_of(bytes, other)
}

/// The first of rows in order that shows the name of another one of its loader.
pub fn first_twin<'a>(bytes: &[u8], rows: &'a [ViewRow]) -> Option<&'a ViewRow>
    ensures some { IfSome result (λ row. HasTwin bytes.now rows.now row.now) }
    ensures none { IfNone result (IsIndexOf bytes.now rows.now → NamesDiffer bytes.now rows.now) }
{
    for at in 1..rows.len() {
        if are_alike(bytes, &rows[at - 1], &rows[at]) {
            return Some(&rows[at]);
        }
    }
    None
}

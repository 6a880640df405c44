//! Applies entries to live rows, one after another.

ghost use Rattle.std.specs.Prelude.{◌≡◌, ◌+◌, ◌^◌, ◌≤◌, IsTrue, length, true};
ghost use Rattle.std.specs.Arc.{arc_value};
ghost use Rattle.cm_layout.specs.Rows.{rows_after_all, rows_with, bare};
ghost use Rattle.cm_commit.specs.Offers.{rows_after_group};
ghost use Rattle.cm_rows.specs.Rows.{is_above};
ghost use Rattle.cm_group.specs.Groups.{entries_in};
ghost use Rattle.cm_commit.specs.Keeping.{keep_rules};

use cm_group::CarriedEntry;
use cm_record::Record;
use cm_rows::LiveRows;
use std::alloc::Global;
use std::sync::Arc;

/// Applies entries, the first of which has this number, and returns whether all of them keep the
/// rules. If one breaks a rule, only those before it are applied.
pub(crate) fn apply_all(book: &mut LiveRows<()>, first: u64, entries: &[CarriedEntry]) -> bool
    requires above { IsTrue (is_above first book.old.rows) }
    requires from { 1 ≤ first }
    requires numbers { first + length entries.now ≤ 2 ^ 63 + 1 }
    ensures kept { result ≡ keep_rules book.old.sizes book.old.rows first (entries_in entries.now) }
    ensures rows { IsTrue result
        → book.new ≡ record book.old
        { rows = rows_after_all book.old.rows (entries_in entries.now) } }
    ensures sizes { book.new.sizes ≡ book.old.sizes }
{
    let mut number = first;
    for carried in entries {
        if book.apply(number, carried.bare()).is_some() {
            return false;
        }
        number += 1;
    }
    true
}

/// Applies entries that keep the rules, the first of which has this number, each class with its
/// record.
pub(crate) fn fill_all(
    book: &mut LiveRows<Arc<Record, Global>>,
    first: u64,
    entries: Vec<CarriedEntry>,
)
    requires above { IsTrue (is_above first book.old.rows) }
    requires from { 1 ≤ first }
    requires numbers { first + length entries.items ≤ 2 ^ 63 + 1 }
    requires kept { keep_rules book.old.sizes (bare book.old.rows) first (entries_in entries.items)
        ≡ true }
    ensures rows { rows_with arc_value book.new.rows
        ≡ rows_after_group (rows_with arc_value book.old.rows) entries.items }
    ensures sizes { book.new.sizes ≡ book.old.sizes }
{
    let mut number = first;
    for carried in entries {
        let _kept = book.apply(number, carried.into_entry()); // breaks none
        number += 1;
    }
}

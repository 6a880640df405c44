//! Whether the entries of a group may join what is committed.

ghost use Rattle.std.specs.Prelude.{◌≡◌, ◌≤◌, ◌+◌, ◌^◌, ◌&&◌, ◌==◌, ◌↔◌, IsTrue, true, nat_le};
ghost use Rattle.std.specs.Prelude.{nat_lt, length, is_none, [], map, if◌then◌else◌};
ghost use Rattle.std.specs.Arc.{arc_value};
ghost use Rattle.std.specs.List.{list_all, list_any, AllByRecursion};
ghost use Rattle.std.specs.Str.{bytes_eq};
ghost use Rattle.cm_pool.specs.Geometry.{IsGeometry};
ghost use Rattle.cm_record.specs.Names.{class_name_in};
ghost use Rattle.cm_layout.specs.Rows.{bare, rows_with, rows_after_all, used_words};
ghost use Rattle.cm_layout.specs.Rules.{is_last_chunk};
ghost use Rattle.cm_state.specs.State.{words_show, class_among};
ghost use Rattle.cm_state.specs.Entries.{AreCacheRows};
ghost use Rattle.cm_group.specs.Groups.{IsGroup, entries_in, slots_taken};
ghost use Rattle.cm_commit.specs.Offers.{carries_own, writes_apart, MayCome};
ghost use Rattle.cm_commit.specs.Joining.{makes_class, is_new, are_new, entry_is_inside};
ghost use Rattle.cm_commit.specs.Joining.{are_inside};
ghost use Rattle.cm_commit.specs.Joining.{entries_are_apart, may_join};
ghost use Rattle.cm_commit.specs.Laws.{AreTold, TellsWords};

use crate::applying::apply_all;
use crate::journal_end::JournalEnd;
use crate::move_records::all_move_them;
use cm_group::{CarriedEntry, Group};
use cm_layout::{ClassRow, Entry, Row};
use cm_record::{Record, words_tell_name};
use cm_rows::LiveRows;
use std::alloc::Global;
use std::sync::Arc;

/// Whether a record has `words` words.
fn has_words(class: &Record, words: u32) -> bool
    ensures own { result ≡ (length class.now == words) }
    ensures told { AreTold class.now }
{
    class.bytes_tell_words(); // the proof uses this
    class.words() == words
}

/// Does nothing at run time: each record's words can be recovered from their bytes.
fn tell_words(records: &[Arc<Record, Global>])
    ensures { AllByRecursion AreTold (map arc_value records.now) }
{
    for record in records {
        record.bytes_tell_words();
    }
}

/// Whether an entry carries the records that it needs: for a class its own record, which has as
/// many words as its row says; for a move any records, which [`moves_them`] checks.
fn carries_own(carried: &CarriedEntry) -> bool
    ensures own { result ≡ carries_own carried.now }
    ensures told { IsTrue result → TellsWords carried.now }
{
    if let Some((row, class)) = carried.class_made() {
        return carried.moved().is_empty() && has_words(class, row.place.words);
    }
    match carried.bare() {
        Entry::Live(_) | Entry::Unload(_) => carried.moved().is_empty(),
        Entry::UnloadAll(entry) => {
            entry.loaders.invariant_holds();
            carried.moved().is_empty()
        }
        Entry::Move(_) => {
            tell_words(carried.moved());
            true
        }
    }
}

/// Whether each entry carries the records that it needs.
fn all_carry_own(entries: &[CarriedEntry]) -> bool
    ensures own { result ≡ list_all carries_own entries.now }
    ensures told { IsTrue result → AllByRecursion TellsWords entries.now }
{
    for carried in entries {
        if !carries_own(carried) {
            return false;
        }
    }
    true
}

/// Whether a class's record lies after all others on the last chunk of its loader.
fn is_behind_last(rows: &LiveRows<Arc<Record, Global>>, row: &ClassRow) -> bool
    ensures { result ≡ (is_last_chunk row.now.loader row.now.place.chunk rows.now.rows
        && nat_le (used_words row.now.place.chunk rows.now.rows) row.now.place.offset) }
{
    match rows.last(row.loader) {
        Some(last) => last.chunk == row.place.chunk && last.used <= row.place.offset,
        None => false,
    }
}

/// Whether an entry writes into no chunk that committed rows use, other than after the records on
/// its loader's last one.
fn writes_apart(rows: &mut LiveRows<Arc<Record, Global>>, entry: &Entry<()>) -> bool
    requires inside { entry_is_inside rows.old.sizes entry.now ≡ true }
    ensures apart { result ≡ writes_apart rows.old.rows entry.now }
    ensures same { rows.new ≡ rows.old }
{
    match entry {
        Entry::Live(Row::Class(row, ())) => {
            rows.is_unused(&row.place.chunk) || is_behind_last(rows, row)
        }
        Entry::Move(entry) => rows.is_unused(&entry.to),
        Entry::Live(Row::Loader(_)) | Entry::Unload(_) | Entry::UnloadAll(_) => true,
    }
}

/// Whether each entry writes where [`writes_apart`] allows it.
fn all_write_apart(rows: &mut LiveRows<Arc<Record, Global>>, entries: &[CarriedEntry]) -> bool
    requires inside { are_inside rows.old.sizes entries.now ≡ true }
    ensures apart { result ≡ entries_are_apart rows.old.rows entries.now }
    ensures same { rows.new ≡ rows.old }
{
    for carried in entries {
        if !writes_apart(rows, &carried.bare()) {
            return false;
        }
    }
    true
}

/// Whether two records are of classes with one name.
fn have_one_name(one: &Record, other: &Record) -> bool
    ensures { result ≡ bytes_eq (class_name_in one.now) (class_name_in other.now) }
{
    words_tell_name();
    one.invariant_holds();
    other.invariant_holds();
    one.same_name(other)
}

/// Whether an entry makes a class in this loader that has the name of this one.
fn makes_class(loader: u64, class: &Record, carried: &CarriedEntry) -> bool
    ensures { result ≡ makes_class loader (class_name_in class.now) carried.now }
{
    match carried.class_made() {
        Some((row, made)) => row.loader == loader && have_one_name(made, class),
        None => false,
    }
}

/// Whether one of the entries makes a class in this loader that has the name of this one.
fn is_made(loader: u64, class: &Record, entries: &[CarriedEntry]) -> bool
    ensures { result ≡ list_any (makes_class loader (class_name_in class.now)) entries.now }
{
    for carried in entries {
        if makes_class(loader, class, carried) {
            return true;
        }
    }
    false
}

/// Whether no committed class of this loader has the name of this one.
fn is_absent(rows: &LiveRows<Arc<Record, Global>>, loader: u64, class: &Arc<Record, Global>) -> bool
    ensures { result ≡ is_none (class_among words_show loader (class_name_in (arc_value class.now))
        (rows_with arc_value rows.now.rows)) }
{
    rows.class_like(loader, class).is_none()
}

/// Whether the class that an entry makes, if it makes one, is new in its loader, by what is
/// committed and by the entries before it.
fn is_new(
    rows: &LiveRows<Arc<Record, Global>>,
    before: &[CarriedEntry],
    carried: &CarriedEntry,
) -> bool
    ensures { result
        ≡ is_new (rows_with arc_value rows.now.rows) before.now carried.now.entry }
{
    match carried.class_made() {
        Some((row, class)) => {
            is_absent(rows, row.loader, class) && !is_made(row.loader, class, before)
        }
        None => true,
    }
}

/// Whether each class that entries make is new in its loader. A group has few entries, so each is
/// compared with those before it.
fn are_new(rows: &LiveRows<Arc<Record, Global>>, entries: &[CarriedEntry]) -> bool
    ensures { result ≡ are_new (rows_with arc_value rows.now.rows) [] entries.now }
{
    for (at, carried) in entries.iter().enumerate() {
        if !is_new(rows, &entries[..at], carried) {
            return false;
        }
    }
    true
}

/// Whether entries may join, where the first has the number after `number`. If so, they are applied
/// to the next rows; otherwise some of them may be.
fn may_join(
    rows: &mut LiveRows<Arc<Record, Global>>,
    next: &mut LiveRows<()>,
    number: u64,
    entries: &[CarriedEntry],
) -> bool
    requires next_is { next.old ≡ record { sizes = rows.old.sizes; rows = bare rows.old.rows } }
    requires cache { AreCacheRows words_show rows.old.sizes number
        (rows_with arc_value rows.old.rows) }
    requires numbers { number + length entries.now ≤ 2 ^ 63 }
    ensures joins { result ≡ may_join rows.old.sizes (rows_with arc_value rows.old.rows) number
        entries.now }
    ensures told { IsTrue result → AllByRecursion TellsWords entries.now }
    ensures next { IsTrue result → next.new
        ≡ record next.old { rows = rows_after_all next.old.rows (entries_in entries.now) } }
    ensures sizes { next.new.sizes ≡ next.old.sizes }
    ensures same { rows.new ≡ rows.old }
{
    if !all_carry_own(entries) {
        return false;
    }
    if !apply_all(next, number + 1, entries) {
        return false;
    }
    all_write_apart(rows, entries) && are_new(rows, entries)
}

/// Whether a group begins one past the last committed command.
fn goes_on(number: u64, group: &Group) -> bool
    requires { number ≤ 2 ^ 63 }
    ensures on { result ≡ (group.now.first == number + 1) }
    ensures lawful { IsGroup group.now }
{
    group.first() == number + 1
}

/// Whether a group may come next. If so, the next rows become those after it; otherwise nothing is
/// changed.
pub(crate) fn take_group(
    journal: &JournalEnd,
    rows: &mut LiveRows<Arc<Record, Global>>,
    next: &mut LiveRows<()>,
    group: &Group,
) -> bool
    requires lawful { IsGeometry journal.now.geometry }
    requires sizes { rows.old.sizes ≡ journal.now.geometry }
    requires number { journal.now.number ≤ 2 ^ 63 }
    requires next_is { next.old ≡ record { sizes = rows.old.sizes; rows = bare rows.old.rows } }
    requires cache { AreCacheRows words_show journal.now.geometry journal.now.number
        (rows_with arc_value rows.old.rows) }
    ensures comes { IsTrue result ↔ MayCome journal.now.geometry
        (rows_with arc_value rows.old.rows) journal.now.number group.now }
    ensures told { IsTrue result → AllByRecursion TellsWords group.now.entries }
    ensures next { next.new ≡ (if result
        then record next.old { rows = rows_after_all next.old.rows (entries_in group.now.entries) }
        else next.old) }
    ensures same { rows.new ≡ rows.old }
    ensures group { IsGroup group.now }
{
    let number = journal.number;
    if !goes_on(number, group) {
        return false;
    }
    let entries = group.entries();
    let joins = may_join(rows, next, number, entries) && all_move_them(rows, entries);
    if !joins {
        next.copy_from(rows);
    }
    joins
}

//! Whether the moves of a group carry the records that lie on the chunks that they leave.

ghost use Rattle.std.specs.Prelude.{◌≡◌, ◌↔◌, ◌++◌, ◌∷◌, [], IsTrue, MatchOption, List, ℕ, map};
ghost use Rattle.std.specs.Arc.{arc_value};
ghost use Rattle.cm_layout.specs.Rows.{rows_with};
ghost use Rattle.cm_commit.specs.Joining.{committed_on, records_on, MovesThem, AllMoveThem};
ghost use Rattle.cm_commit.specs.Moving.{EndsIn, DoesntEndIn, AreThen};

use cm_group::CarriedEntry;
use cm_layout::{Entry, Move};
use cm_pool::Chunk;
use cm_record::Record;
use cm_rows::{LastKept, LiveRows};
use std::alloc::Global;
use std::sync::Arc;

/// What an entry does to the records on a chunk.
enum OnChunk<'a> {
    /// It leaves them unchanged.
    Same,
    /// It adds one more after them.
    More(&'a Record),
    /// It writes the first one there.
    First(&'a Record),
    /// It moves these there.
    All(&'a [Arc<Record, Global>]),
}

/// The records without the last one, if that is this record.
fn without_last<'a>(
    records: &'a [Arc<Record, Global>],
    last: &Record,
) -> Option<&'a [Arc<Record, Global>]>
    ensures { MatchOption result (DoesntEndIn (map arc_value records.now) last.now)
        (λ rest. EndsIn (map arc_value records.now) last.now (map arc_value rest.now)) }
{
    let (newest, rest) = records.split_last()?;
    if newest.has_same_words(last) {
        Some(rest)
    } else {
        None
    }
}

/// Whether these are the records that are kept.
fn are_kept(records: &[Arc<Record, Global>], kept: LastKept<'_, Arc<Record, Global>>) -> bool
    ensures { IsTrue result ↔ (map arc_value records.now ≡ map arc_value kept.entry) }
{
    let mut kept = kept;
    let mut left = records;
    while let Some(last) = kept.next() {
        match without_last(left, last) {
            Some(rest) => left = rest,
            None => return false,
        }
    }
    left.is_empty()
}

/// The records on a chunk, by what is committed, if it is a loader's last one.
fn committed<'a>(
    rows: &'a LiveRows<Arc<Record, Global>>,
    loader: u64,
    chunk: &Chunk,
) -> Option<LastKept<'a, Arc<Record, Global>>>
    ensures { MatchOption result
        (committed_on loader chunk.now (rows_with arc_value rows.now.rows) ≡ [])
        (λ kept. committed_on loader chunk.now (rows_with arc_value rows.now.rows)
        ≡ map arc_value kept) }
{
    let last = rows.last(loader)?;
    if last.chunk != *chunk {
        return None;
    }
    rows.last_kept(loader)
}

/// Whether these are the records on a loader's last chunk, by what is committed.
fn are_committed(
    rows: &LiveRows<Arc<Record, Global>>,
    loader: u64,
    chunk: &Chunk,
    records: &[Arc<Record, Global>],
) -> bool
    ensures { IsTrue result ↔ (map arc_value records.now
        ≡ committed_on loader chunk.now (rows_with arc_value rows.now.rows)) }
{
    match committed(rows, loader, chunk) {
        Some(kept) => are_kept(records, kept),
        None => records.is_empty(),
    }
}

/// What an entry does to the records on a chunk.
fn then_on<'a>(carried: &'a CarriedEntry, chunk: &Chunk) -> OnChunk<'a>
    ensures { AreThen chunk.now carried.now result }
{
    if let Some((row, class)) = carried.class_made() {
        return if row.place.chunk != *chunk {
            OnChunk::Same
        } else if row.place.offset == 0 {
            OnChunk::First(class)
        } else {
            OnChunk::More(class)
        };
    }
    match carried.bare() {
        Entry::Move(entry) if entry.to == *chunk => OnChunk::All(carried.moved()),
        _ => OnChunk::Same,
    }
}

/// Whether these are the same records as `others`.
fn are_same(records: &[Arc<Record, Global>], others: &[Arc<Record, Global>]) -> bool
    ensures { IsTrue result ↔ (map arc_value records.now ≡ map arc_value others.now) }
{
    let mut left = records;
    let mut behind = others;
    while let Some((last, before)) = behind.split_last() {
        match without_last(left, last) {
            Some(rest) => left = rest,
            None => return false,
        }
        behind = before;
    }
    left.is_empty()
}

/// Whether this is the one record.
fn is_alone(records: &[Arc<Record, Global>], class: &Record) -> bool
    ensures { IsTrue result ↔ (map arc_value records.now ≡ class.now ∷ []) }
{
    match without_last(records, class) {
        Some(rest) => rest.is_empty(),
        None => false,
    }
}

/// Whether these are the records on a loader's last chunk, by what is committed and by the entries
/// before. The search runs from the newest entry back.
fn are_on(
    rows: &LiveRows<Arc<Record, Global>>,
    before: &[CarriedEntry],
    entry: &Move,
    records: &[Arc<Record, Global>],
) -> bool
    ensures { IsTrue result ↔ (map arc_value records.now
        ≡ records_on (rows_with arc_value rows.now.rows) before.now entry.now.loader
        entry.now.from) }
{
    let mut left = records;
    let mut count = before.len();
    while count > 0 {
        count -= 1;
        match then_on(&before[count], &entry.from) {
            OnChunk::Same => {}
            OnChunk::More(last) => match without_last(left, last) {
                Some(rest) => left = rest,
                None => return false,
            },
            OnChunk::First(class) => return is_alone(left, class),
            OnChunk::All(moved) => return are_same(left, moved),
        }
    }
    are_committed(rows, entry.loader, &entry.from, left)
}

/// Whether an entry, if it is a move, carries the records on the chunk that it leaves.
fn moves_them(
    rows: &LiveRows<Arc<Record, Global>>,
    before: &[CarriedEntry],
    carried: &CarriedEntry,
) -> bool
    ensures { IsTrue result ↔ MovesThem (rows_with arc_value rows.now.rows) before.now
        carried.now.entry carried.now.moved }
{
    match carried.bare() {
        Entry::Move(entry) => are_on(rows, before, &entry, carried.moved()),
        Entry::Live(_) | Entry::Unload(_) | Entry::UnloadAll(_) => true,
    }
}

/// Whether each move carries the records on the chunk that it leaves.
pub(crate) fn all_move_them(rows: &LiveRows<Arc<Record, Global>>, entries: &[CarriedEntry]) -> bool
    ensures { IsTrue result ↔ AllMoveThem (rows_with arc_value rows.now.rows) [] entries.now }
{
    for (at, carried) in entries.iter().enumerate() {
        if !moves_them(rows, &entries[..at], carried) {
            return false;
        }
    }
    true
}

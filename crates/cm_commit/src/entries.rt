//! What the entries of a group write.

ghost use Rattle.std.specs.Prelude.{◌≡◌, ◌<◌, ◌≤◌, ◌+◌, ◌^◌, Some, None, MatchOption};
ghost use Rattle.std.specs.Prelude.{[], ◌∷◌, length, ℕ};
ghost use Rattle.std.specs.List.{slice_get};
ghost use Rattle.cm_commit.specs.declared.journal_end.JournalEnd.{JournalEnd};
ghost use Rattle.cm_guards.specs.Stages.{calls_left};
ghost use Rattle.cm_commit.specs.GroupPlans.{writes_of, all_writes};
ghost use Rattle.cm_commit.specs.GroupPlans.{roots_of_entry, roots_of_entries};
ghost use Rattle.cm_commit.specs.Steps.{stages_at, writes_from, HaveOffsets};
ghost use Rattle.cm_group.specs.Groups.{entries_in};

use crate::step::CommitStep;
use cm_group::CarriedEntry;
use cm_layout::{Entry, Row};
use cm_pool::Place;
use cm_record::Record;

/// How many roots the records of an entry need: one more than the root of its record.
fn roots_of(entry: &Entry<()>) -> u32
    requires { roots_of_entry entry.now < 2 ^ 32 }
    ensures { result ≡ roots_of_entry entry.now }
{
    match entry {
        Entry::Live(Row::Class(row, ())) => row.place.chunk.root + 1,
        Entry::Move(entry) => entry.to.root + 1,
        Entry::Live(Row::Loader(_)) | Entry::Unload(_) | Entry::UnloadAll(_) => 0,
    }
}

/// How many roots the records of entries need.
pub(crate) fn roots_needed(entries: &[CarriedEntry]) -> u32
    requires { roots_of_entries (entries_in entries.now) < 2 ^ 32 }
    ensures { result ≡ roots_of_entries (entries_in entries.now) }
{
    let mut needed = 0;
    for carried in entries {
        needed = needed.max(roots_of(&carried.bare()));
    }
    needed
}

/// The record of this number among those that an entry writes, with its place.
fn write_of(carried: &CarriedEntry, number: usize) -> Option<(Place, &Record)>
    requires { HaveOffsets (writes_of carried.now.entry carried.now.moved) }
    ensures { MatchOption result
        (slice_get (writes_of carried.now.entry carried.now.moved) number ≡ None)
        (λ w. slice_get (writes_of carried.now.entry carried.now.moved) number
        ≡ Some (w.0, w.1.now)) }
{
    if let Some((row, class)) = carried.class_made() {
        return if number == 0 {
            Some((row.place, class))
        } else {
            None
        };
    }
    let Entry::Move(entry) = carried.bare() else {
        return None;
    };
    let (offset, class) = carried.moved_at(number)?;
    let place = Place {
        chunk: entry.to,
        offset,
        words: class.words(),
    };
    Some((place, class))
}

/// How many records an entry writes.
fn writes_in(carried: &CarriedEntry) -> usize
    ensures { result ≡ length (writes_of carried.now.entry carried.now.moved) }
{
    match carried.bare() {
        Entry::Live(Row::Class(_, ())) => 1,
        Entry::Move(_) => carried.moved().len(),
        Entry::Live(Row::Loader(_)) | Entry::Unload(_) | Entry::UnloadAll(_) => 0,
    }
}

/// A record that an entry writes, with its place, and what comes after it: a record of an entry.
#[derive(Clone, Copy)]
pub(crate) struct NextWrite<'a> {
    pub(crate) place: Place,
    pub(crate) class: &'a Record,
    pub(crate) entry: usize,
    pub(crate) number: usize,
}

/// The next record that entries write, from a record of one of them on. A group's entries are gone
/// through once, however many records it has.
pub(crate) fn next_write(
    entries: &[CarriedEntry],
    entry: usize,
    number: usize,
) -> Option<NextWrite<'_>>
    requires offsets { HaveOffsets (all_writes entries.now) }
    requires few { length (all_writes entries.now) < 2 ^ 32 }
    ensures found { MatchOption result (writes_from entry number entries.now ≡ [])
        (λ w. writes_from entry number entries.now
        ≡ (w.place, w.class.now) ∷ writes_from w.entry w.number entries.now) }
{
    let mut from = number;
    for at in entry..entries.len() {
        if let Some((place, class)) = write_of(&entries[at], from) {
            return Some(NextWrite {
                place,
                class,
                entry: at,
                number: from + 1,
            });
        }
        from = 0;
    }
    None
}

/// How many records entries write.
fn all_writes(entries: &[CarriedEntry]) -> usize
    requires { length (all_writes entries.now) < 2 ^ 32 }
    ensures { result ≡ length (all_writes entries.now) }
{
    let mut count = 0;
    for carried in entries {
        count += writes_in(carried);
    }
    count
}

/// How many records entries write from a record of one of them on.
fn writes_from(entries: &[CarriedEntry], entry: usize, number: usize) -> usize
    requires { length (all_writes entries.now) < 2 ^ 32 }
    ensures value { result ≡ length (writes_from entry number entries.now) }
    ensures few { result < 2 ^ 32 }
{
    if entry >= entries.len() {
        return 0;
    }
    writes_in(&entries[entry]).saturating_sub(number) + all_writes(&entries[entry + 1..])
}

/// How many device calls of a group with these entries are left at a step, not counting those of a
/// checkpoint.
pub(crate) fn group_calls(now: CommitStep, entries: &[CarriedEntry]) -> u64
    requires roots { roots_of_entries (entries_in entries.now) < 2 ^ 32 }
    requires few { length (all_writes entries.now) < 2 ^ 32 }
    ensures calls { (j : JournalEnd) (first learnt : ℕ) → result ≡ calls_left (stages_at j
        (record { first = first; learnt = learnt; entries = entries.now }) now) }
    ensures few { result ≤ 2 ^ 33 + 4 }
{
    match now {
        CommitStep::Grow { roots } => {
            let zeros = roots_needed(entries).saturating_sub(roots);
            u64::from(zeros) + all_writes(entries) as u64 + 4
        }
        CommitStep::Write { entry, number } => writes_from(entries, entry, number) as u64 + 4,
        CommitStep::Sync => 3,
        CommitStep::Gate => 2,
        CommitStep::LastSync => 1,
        CommitStep::Done => 0,
    }
}

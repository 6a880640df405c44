//! Loops over rows.

ghost use Rattle.std.specs.Prelude.{◌≡◌, ◌<◌, ◌≤◌, ◌&&◌, [], ◌∷◌, ◌++◌, vec_len, vec_capacity};
ghost use Rattle.std.specs.Prelude.{length, map, true};
ghost use Rattle.std.specs.List.{AllByRecursion};
ghost use Rattle.cm_index.specs.Living.{living};
ghost use Rattle.cm_layout.specs.Rows.{moved_row, bare};
ghost use Rattle.cm_rows.specs.Held.{PoolHolds, CanBeHeld, chunks_of_rows, own_chunk};
ghost use Rattle.cm_rows.specs.Held.{living_chunk};
ghost use Rattle.cm_rows.specs.Links.{words_on};

use cm_index::BookSlot;
use cm_layout::Row;
use cm_pool::{Chunk, Pool};

/// Replaces the rows by the live rows of another list, if there is room for them, with nothing kept
/// of a class.
pub fn copy_rows<Q>(slots: &mut Vec<BookSlot<Row<()>>>, others: &[BookSlot<Row<Q>>])
    requires { length (living others.now) ≤ vec_capacity slots.old }
    ensures rows { living slots.new.items ≡ bare (living others.now) }
    ensures live { AllByRecursion (λ s. s.live ≡ true) slots.new.items }
    ensures count { length slots.new.items ≡ length (living others.now) }
    ensures capacity { vec_capacity slots.old ≤ vec_capacity slots.new }
{
    slots.clear();
    for slot in others {
        if slot.live {
            push_living(slots, slot.item.bare());
        }
    }
}

// Appends a live row to the others, if there is room for it.
fn push_living<P: Drop>(slots: &mut Vec<BookSlot<Row<P>>>, row: Row<P>)
    requires { vec_len slots.old < vec_capacity slots.old }
    ensures slots { slots.new.items ≡ slots.old.items ++ record { item = row; live = true } ∷ [] }
    ensures capacity { vec_capacity slots.old ≤ vec_capacity slots.new }
{
    slots
        .push(BookSlot {
            item: row,
            live: true,
        })
        .unwrap();
}

/// Gives the chunks of all rows back to the pool.
pub fn give_all<P>(slots: &[BookSlot<Row<P>>], pool: &mut Pool)
    requires { PoolHolds pool.old.geometry pool.old (chunks_of_rows (living slots.now)) }
    ensures { PoolHolds pool.old.geometry pool.new [] }
{
    for slot in slots {
        if let Some(chunk) = living_chunk(slot) {
            pool.give(chunk);
        }
    }
}

/// Takes the chunks of rows out of a pool that holds none.
pub fn take_all<P>(slots: &[BookSlot<Row<P>>], pool: &mut Pool)
    requires none { PoolHolds pool.old.geometry pool.old [] }
    requires apart { CanBeHeld pool.old.geometry (chunks_of_rows (living slots.now)) }
    ensures { PoolHolds pool.old.geometry pool.new (chunks_of_rows (living slots.now)) }
{
    for slot in slots {
        if let Some(chunk) = living_chunk(slot) {
            let _taken = pool.take(&chunk); // it is free
        }
    }
}

// The chunk whose first record is this row's, if the row lives.
fn living_chunk<P>(slot: &BookSlot<Row<P>>) -> Option<Chunk>
    ensures { result ≡ living_chunk slot.now }
{
    if slot.live {
        own_chunk(&slot.item)
    } else {
        None
    }
}

/// The chunk whose first record is this row's.
pub fn own_chunk<P>(row: &Row<P>) -> Option<Chunk>
    ensures { result ≡ own_chunk row.now }
{
    match row {
        Row::Class(row, _) if row.place.offset == 0 => Some(row.place.chunk),
        _ => None,
    }
}

/// Moves the record of a row to another chunk, if it is on this one. Returns how many words it has
/// there, or 0.
pub fn move_row<P>(row: &mut Row<P>, from: &Chunk, to: Chunk) -> u32
    ensures row { row.new ≡ moved_row from.now to row.old }
    ensures words { result ≡ words_on from.now row.old }
{
    if let Row::Class(class, _) = row {
        if class.place.chunk == *from {
            class.place.chunk = to;
            return class.place.words;
        }
    }
    0
}

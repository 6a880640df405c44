//! Sweeping: the places of live items, and the entries that lead to them.

ghost use Rattle.std.specs.Prelude.{◌≡◌, ◌^◌, ◌<◌, ◌≤◌, length, map, filter, vec_capacity};
ghost use Rattle.std.specs.List.{AllByRecursion};
ghost use Rattle.cm_index.specs.Index.{leads_to_life};
ghost use Rattle.cm_index.specs.Sweep.{places_from, shifted, swept_entries};
ghost use Rattle.cm_index.specs.Blocks.{joined};

use crate::block::IndexBlock;
use crate::index::IndexEntry;
use crate::slot::BookSlot;
use cm_layout::Row;

/// Where each item is once the places are swept.
pub fn count_places<T>(places: &mut Vec<u32>, slots: &[BookSlot<T>])
    requires fits { length slots.now ≤ 2 ^ 31 }
    requires room { length slots.now ≤ vec_capacity places.old }
    ensures places { places.new.items ≡ places_from 0 slots.now }
    ensures capacity { vec_capacity places.old ≤ vec_capacity places.new }
{
    places.clear();
    let mut kept = 0u32;
    for slot in slots {
        places.push(kept).unwrap();
        if slot.live {
            kept += 1;
        }
    }
}

/// Keeps the entries that lead to live rows, and redirects each to its row's new place.
pub fn sweep_blocks<P>(blocks: &mut Vec<IndexBlock>, places: &[u32], slots: &[BookSlot<Row<P>>])
    requires { AllByRecursion (λ e. e.at < length places.now) (joined blocks.old.items) }
    ensures blocks { blocks.new.items ≡ map (swept_entries slots.now places.now) blocks.old.items }
    ensures capacity { vec_capacity blocks.new ≡ vec_capacity blocks.old }
{
    for at in 0..blocks.len() {
        blocks[at].sweep(slots, places);
    }
}

/// Keeps those entries of one block that lead to live rows, and redirects each to its row's new
/// place.
pub fn sweep_entries<P>(entries: &mut Vec<IndexEntry>, slots: &[BookSlot<Row<P>>], places: &[u32])
    requires { AllByRecursion (λ e. e.at < length places.now) entries.old.items }
    ensures entries { entries.new.items ≡ swept_entries slots.now places.now entries.old.items }
    ensures capacity { vec_capacity entries.new ≡ vec_capacity entries.old }
{
    keep_living(entries, slots);
    move_up(entries, places);
}

/// Keeps the entries that lead to live rows.
fn keep_living<P>(index: &mut Vec<IndexEntry>, slots: &[BookSlot<Row<P>>])
    ensures index { index.new.items ≡ filter (leads_to_life slots.now) index.old.items }
    ensures capacity { vec_capacity index.new ≡ vec_capacity index.old }
{
    index.retain(|entry| leads_to_life(entry, slots));
}

fn leads_to_life<P>(entry: &IndexEntry, slots: &[BookSlot<Row<P>>]) -> bool
    ensures { result ≡ leads_to_life slots.now entry.now }
{
    match slots.get(entry.at as usize) {
        Some(slot) => slot.live,
        None => false,
    }
}

/// Redirects each entry to its row's new place.
fn move_up(index: &mut Vec<IndexEntry>, places: &[u32])
    requires { AllByRecursion (λ e. e.at < length places.now) index.old.items }
    ensures index { index.new.items ≡ map (shifted places.now) index.old.items }
    ensures capacity { vec_capacity index.new ≡ vec_capacity index.old }
{
    for i in 0..index.len() {
        let entry = index[i];
        index[i] = IndexEntry {
            fingerprint: entry.fingerprint,
            at: places[entry.at as usize],
        };
    }
}

//! The links of places, by which a loader's rows are found, starting at its last one.

ghost use Rattle.std.specs.Prelude.{◌≡◌, ◌<◌, ◌≤◌, ◌+◌, ◌^◌, ◌*◌, ◌++◌, ◌∷◌, [], Some, None};
ghost use Rattle.std.specs.Prelude.{true, length, map, get_or, slice_set, vec_len, vec_capacity};
ghost use Rattle.std.specs.List.{AllByRecursion};
ghost use Rattle.cm_pool.specs.Geometry.{IsGeometry};
ghost use Rattle.cm_index.specs.Index.{LivesAt};
ghost use Rattle.cm_index.specs.Living.{living, unloaded, moved_slot};
ghost use Rattle.cm_rows.specs.LiveRows.{AreIndexed};
ghost use Rattle.cm_rows.specs.Held.{PoolHolds, chunks_of_rows};
ghost use Rattle.cm_rows.specs.Links.{loader_in, last_place, last_places, AreLinked, HasLinks};
ghost use Rattle.cm_rows.specs.Links.{AreOwned, LinksBack, OthersStay, ended};
ghost use Rattle.cm_rows.specs.Loaders.{Rises, numbers_of_loaders, items, HasLoaders};
ghost use Rattle.cm_layout.specs.Rows.{slots_of_row, slots_of_rows};
ghost use Rattle.cm_layout.specs.Rules.{row_limit as row_limit_of};

use crate::live_loader::{LastChunk, LiveLoader, find};
use crate::loader_places::LoaderPlaces;
use crate::row_places::RowPlaces;
use crate::rows::{move_row, own_chunk};
use cm_index::{BookSlot, Kept, sweep_slots};
use cm_layout::{Row, row_limit};
use cm_pool::{Chunk, Geometry, Pool};

/// Links the next place to the last one of its row's loader, and makes it the last one.
pub fn link(before: &mut Vec<Option<u32>>, newest: &mut Vec<Option<u32>>, loader: usize, place: u32)
    requires within { loader < vec_len newest.old }
    requires room { vec_len before.old < vec_capacity before.old }
    ensures before { before.new.items
        ≡ before.old.items ++ get_or newest.old.items loader None ∷ [] }
    ensures newest { newest.new.items ≡ slice_set newest.old.items loader (Some place) }
    ensures capacity { vec_capacity before.old ≤ vec_capacity before.new }
    ensures newest_capacity { vec_capacity newest.new ≡ vec_capacity newest.old }
{
    before.push(newest[loader]).unwrap();
    newest[loader] = Some(place);
}

/// How many rows were removed with a loader, and how many slots they took as live rows.
#[derive(Clone, Copy, Debug)]
pub struct Gone {
    pub rows: usize,
    pub slots: usize,
}

/// Ends the rows of a loader, from its last one on, and gives their chunks back to the pool.
pub fn unload_rows<P>(
    slots: &mut Vec<BookSlot<Row<P>>>,
    before: &[Option<u32>],
    loader: u64,
    newest: Option<u32>,
    pool: &mut Pool,
) -> Gone
    requires linked { AreLinked slots.old.items before.now }
    requires newest { newest ≡ last_place loader slots.old.items }
    requires holds { PoolHolds pool.old.geometry pool.old
        (chunks_of_rows (living slots.old.items)) }
    ensures slots { slots.new.items ≡ map (unloaded loader) slots.old.items }
    ensures linked { AreLinked slots.new.items before.now }
    ensures holds { PoolHolds pool.old.geometry pool.new (chunks_of_rows (living slots.new.items)) }
    ensures rows { length (living slots.new.items) + result.rows ≡ length (living slots.old.items) }
    ensures taken { slots_of_rows (living slots.new.items) + result.slots
        ≡ slots_of_rows (living slots.old.items) }
    ensures capacity { vec_capacity slots.new ≡ vec_capacity slots.old }
{
    let mut next = newest;
    let mut count = 0;
    let mut taken = 0;
    while let Some(place) = next {
        taken += end_row(slots, place as usize, pool);
        next = before[place as usize];
        count += 1;
    }
    Gone {
        rows: count,
        slots: taken,
    }
}

// Ends a row, and gives its chunk back to the pool if the row's record is the first there. Returns
// how many slots the row took.
fn end_row<P>(slots: &mut Vec<BookSlot<Row<P>>>, at: usize, pool: &mut Pool) -> usize
    requires within { at < vec_len slots.old }
    requires lives { LivesAt slots.old.items at }
    requires holds { PoolHolds pool.old.geometry pool.old
        (chunks_of_rows (living slots.old.items)) }
    ensures slots { (d : BookSlot (Row P)) → slots.new.items
        ≡ slice_set slots.old.items at (ended (get_or slots.old.items at d)) }
    ensures taken { (d : BookSlot (Row P)) → result
        ≡ slots_of_row (get_or slots.old.items at d).item }
    ensures holds { PoolHolds pool.old.geometry pool.new (chunks_of_rows (living slots.new.items)) }
    ensures capacity { vec_capacity slots.new ≡ vec_capacity slots.old }
{
    let chunk = own_chunk(&slots[at].item);
    let taken = slots[at].item.slots();
    slots[at].live = false;
    if let Some(chunk) = chunk {
        pool.give(chunk);
    }
    taken
}

/// Moves the records on a loader's last chunk to another. Follows the loader's rows from its last
/// one on, and only as far as there are records on the chunk.
pub fn move_rows<P>(
    slots: &mut Vec<BookSlot<Row<P>>>,
    before: &[Option<u32>],
    loader: u64,
    newest: Option<u32>,
    last: LastChunk,
    to: Chunk,
)
    requires newest { newest ≡ last_place loader slots.old.items }
    requires goes { LinksBack slots.old.items before.now last.chunk newest last.used }
    requires others { OthersStay loader last.chunk to slots.old.items }
    ensures slots { slots.new.items ≡ map (moved_slot last.chunk to) slots.old.items }
    ensures capacity { vec_capacity slots.new ≡ vec_capacity slots.old }
{
    let mut next = newest;
    let mut left = last.used;
    while let Some(place) = next {
        if left == 0 {
            return;
        }
        let at = place as usize;
        left -= move_row(&mut slots[at].item, &last.chunk, to);
        next = before[at];
    }
}

// The number of the loader that a row belongs to.
fn loader_in<P>(row: &Row<P>) -> u64
    ensures { result ≡ loader_in row.now }
{
    match row {
        Row::Loader(row) => row.number,
        Row::Class(row, _) => row.loader,
    }
}

// No place for any loader.
fn no_places(newest: &mut Vec<Option<u32>>, loaders: &[BookSlot<LiveLoader>])
    requires { length loaders.now ≤ vec_capacity newest.old }
    ensures newest { newest.new.items ≡ map (λ l. None) loaders.now }
    ensures capacity { vec_capacity newest.old ≤ vec_capacity newest.new }
{
    newest.clear();
    for loader in loaders {
        push_place(newest, None);
    }
}

/// Appends a place to the others, if there is room for it.
pub fn push_place(places: &mut Vec<Option<u32>>, place: Option<u32>)
    requires { vec_len places.old < vec_capacity places.old }
    ensures places { places.new.items ≡ places.old.items ++ place ∷ [] }
    ensures capacity { vec_capacity places.old ≤ vec_capacity places.new }
{
    places.push(place).unwrap();
}

/// Links places again, whose rows all live.
pub fn relink<P>(
    before: &mut Vec<Option<u32>>,
    newest: &mut Vec<Option<u32>>,
    loaders: &[BookSlot<LiveLoader>],
    slots: &[BookSlot<Row<P>>],
)
    requires live { AllByRecursion (λ s. s.live ≡ true) slots.now }
    requires rises { Rises (items loaders.now) }
    requires owned { AreOwned (living slots.now) (living loaders.now) }
    requires fits { length slots.now ≤ 2 ^ 32 }
    requires room { length slots.now ≤ vec_capacity before.old }
    requires newest_room { length loaders.now ≤ vec_capacity newest.old }
    ensures linked { AreLinked slots.now before.new.items }
    ensures newest { newest.new.items
        ≡ last_places slots.now (numbers_of_loaders (items loaders.now)) }
    ensures capacity { vec_capacity before.old ≤ vec_capacity before.new }
    ensures newest_capacity { vec_capacity newest.old ≤ vec_capacity newest.new }
{
    before.clear();
    no_places(newest, loaders);
    for at in 0..slots.len() {
        let loader = find(loaders, loader_in(&slots[at].item)).unwrap();
        link(before, newest, loader, at as u32);
    }
}

/// If twice as many places are taken as rows can live, sweeps out dead rows and loaders.
pub fn make_room<P: Kept>(geometry: Geometry, rows: &mut RowPlaces<P>, loaders: &mut LoaderPlaces)
    requires lawful { IsGeometry geometry }
    requires few { length (living rows.old.indexed.slots.items) < row_limit_of geometry }
    requires loaders_few { length (living loaders.old.slots.items)
        ≤ length (living rows.old.indexed.slots.items) }
    requires index { AreIndexed P.mark P.name geometry rows.old }
    requires links { HasLinks geometry rows.old loaders.old }
    requires loaders { HasLoaders geometry loaders.old (length rows.old.indexed.slots.items) }
    requires owned { AreOwned (living rows.old.indexed.slots.items)
        (living loaders.old.slots.items) }
    ensures rows { living rows.new.indexed.slots.items ≡ living rows.old.indexed.slots.items }
    ensures living_loaders { living loaders.new.slots.items ≡ living loaders.old.slots.items }
    ensures index { AreIndexed P.mark P.name geometry rows.new }
    ensures links { HasLinks geometry rows.new loaders.new }
    ensures loaders { HasLoaders geometry loaders.new (length rows.new.indexed.slots.items) }
    ensures room { length rows.new.indexed.slots.items < 2 * row_limit_of geometry }
{
    if rows.indexed.slots.len() >= 2 * row_limit(geometry) {
        rows.indexed.sweep();
        sweep_slots(&mut loaders.slots);
        relink(
            &mut rows.before,
            &mut loaders.newest,
            &loaders.slots,
            &rows.indexed.slots,
        );
    }
}

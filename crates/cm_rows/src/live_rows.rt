//! The live rows of a cache.

ghost use Rattle.std.specs.Prelude.{◌≡◌, ◌&&◌, IsTrue, IfOk, [], ◌∷◌, ◌++◌, Some, None, is_none};
ghost use Rattle.std.specs.Prelude.{if◌then◌else◌, length, not, ◌==◌};
ghost use Rattle.std.specs.List.{list_all};
ghost use Rattle.cm_layout.specs.Rules.{differ};

use crate::last_kept::LastKept;
use crate::links::{link, make_room, move_rows, push_place, relink, unload_rows};
use crate::live_loader::{LastChunk, copy_loaders, find, set_last};
use crate::loader_places::LoaderPlaces;
use crate::place_rules::{has_room, is_free};
use crate::placing::place_class;
use crate::row_places::RowPlaces;
use crate::rows::{copy_rows, give_all, take_all};
use crate::walk::Walk;
use crate::whole_pool::whole_pool;
use cm_index::Kept;
use cm_layout::{ClassRow, Entry, EntryRule, LoaderRow, Move, Row, row_limit};
use cm_pool::{Chunk, Geometry, Pool};
use std::alloc::{AllocError, Global};
use std::marker::Model;

/// The rows that live, in the order of the entries that made them, each class with what is kept of
/// it: nothing, or its record.
///
/// Contracts see them as the sizes of the region and these rows. Beside the rows there is what
/// answers queries on them: the loaders by number, each with its last chunk, a pool that holds all
/// chunks of rows, and an index of loaders and classes by name.
///
/// The rows are in places, twice as many as rows can live. An unloaded loader's rows are found by
/// links, each to the one before it. They keep their places, with what is kept of their classes, as
/// the loader keeps its own, until all places are taken; then dead rows and loaders are swept out
/// at once. So the cost of an unload or a move depends on the rows of its loader only.
#[derive(Drop)]
pub struct LiveRows<P: Kept> {
    geometry: Geometry,
    rows: RowPlaces<P>,
    /// How many of the rows live.
    count: usize,
    /// How many slots the rows take as live rows.
    taken: usize,
    loaders: LoaderPlaces,
    pool: Pool,
}

impl<P: Kept> Model for LiveRows<P> {
    ghost use Rattle.std.specs.Prelude.{◌≡◌, length};
    ghost use Rattle.cm_rows.specs.Rows.{LiveRows};
    ghost use Rattle.cm_rows.specs.Loaders.{HasLoaders};
    ghost use Rattle.cm_rows.specs.LiveRows.{AreRowsInPlace, AreIndexed};
    ghost use Rattle.cm_rows.specs.Links.{HasLinks};
    ghost use Rattle.cm_index.specs.Living.{living};
    ghost use Rattle.cm_layout.specs.Rows.{slots_of_rows};

    ghost Value = { LiveRows P };

    ghost view = { λ b. record { sizes = b.geometry; rows = living b.rows.indexed.slots.items } };

    ghost invariant = { λ b.
        AreRowsInPlace b.geometry (living b.rows.indexed.slots.items) (living b.loaders.slots.items)
        b.pool
        × AreIndexed P.mark P.name b.geometry b.rows
        × HasLinks b.geometry b.rows b.loaders
        × HasLoaders b.geometry b.loaders (length b.rows.indexed.slots.items)
        × (b.count ≡ length (living b.rows.indexed.slots.items))
        × (b.taken ≡ slots_of_rows (living b.rows.indexed.slots.items)) };
}

impl<P: Kept> LiveRows<P> {
    ghost use Rattle.cm_layout.specs.declared.entry_rule.EntryRule.TheVariants.{OnRows, OnChunks};
    ghost use Rattle.cm_layout.specs.declared.row.Row.TheVariants.{Loader, Class};
    ghost use Rattle.cm_layout.specs.Rows.{rows_after, without_loader, without_loaders, moved};
    ghost use Rattle.cm_layout.specs.Rows.{slots_of_rows};
    ghost use Rattle.cm_layout.specs.Rows.{number_of as number_of_name};
    ghost use Rattle.cm_layout.specs.Rules.{broken_rule, broken_live_rule, is_new_loader, is_live};
    ghost use Rattle.cm_layout.specs.Rules.{move_fits, is_chunk, is_unused, is_too_much, are_live};
    ghost use Rattle.cm_layout.specs.Rules.{differ};
    ghost use Rattle.cm_rows.specs.Rows.{is_above, last_of, class_of, kept_on_last};
    ghost use Rattle.std.specs.Option.{option_copied};

    /// No rows. All memory that will ever be needed is allocated here.
    pub fn new(alloc: Global, geometry: Geometry) -> Result<LiveRows<P>, AllocError>
        ensures { IfOk result (λ book. book ≡ record { sizes = geometry; rows = [] }) }
    {
        let room = 2 * row_limit(geometry);
        let rows = RowPlaces::with_room(alloc, room)?;
        let loaders = LoaderPlaces::with_room(alloc, room)?;
        let pool = whole_pool(alloc, geometry)?;
        Ok(LiveRows {
            geometry,
            rows,
            count: 0,
            taken: 0,
            loaders,
            pool,
        })
    }

    /// Returns the first rule that an entry of this number breaks. If it breaks none, the rows are
    /// those after it; else nothing is changed. The numbers of a group continue those before it, so
    /// the number is above all live loaders' ([`LiveRows::is_above`]).
    pub fn apply(&mut self, number: u64, entry: Entry<P>) -> Option<EntryRule>
        requires { IsTrue (is_above number self.old.rows) }
        ensures broken { result ≡ broken_rule self.old.sizes self.old.rows number entry }
        ensures left { self.new
            ≡ (if is_none result
            then record self.old { rows = rows_after self.old.rows entry }
            else self.old) }
    {
        match entry {
            Entry::Live(Row::Loader(row)) => {
                if row.number != number {
                    return Some(EntryRule::OnRows);
                }
                self.add_loader(row)
            }
            Entry::Live(Row::Class(row, kept)) => self.define(row, kept),
            Entry::Unload(entry) => self.unload(entry.loader),
            Entry::Move(entry) => self.apply_move(&entry),
            Entry::UnloadAll(entry) => self.unload_all(entry.loaders.as_slice()),
        }
    }

    /// Returns the first rule that a live row breaks after a half's head with this base. If it
    /// breaks none, it is appended to the others; else nothing is changed.
    pub fn apply_live(&mut self, base: u64, row: Row<P>) -> Option<EntryRule>
        ensures broken { result ≡ broken_live_rule self.old.sizes base self.old.rows row }
        ensures left { self.new
            ≡ (if is_none result
            then record self.old { rows = self.old.rows ++ row ∷ [] }
            else self.old) }
    {
        match row {
            Row::Loader(row) => {
                if row.number < 1 || row.number > base || !self.is_above(row.number) {
                    return Some(EntryRule::OnRows);
                }
                self.add_loader(row)
            }
            Row::Class(row, kept) => self.define(row, kept),
        }
    }

    /// The number of the live loader of a name.
    pub fn loader(&self, name: &[u8]) -> Option<u64>
        ensures { result ≡ number_of_name name.now self.now.rows }
    {
        self.rows.indexed.loader(name)
    }

    /// What is kept of the class of this name in the loader of this number, if it has one.
    pub fn class(&self, loader: u64, name: &[u8]) -> Option<&P>
        ensures { option_copied result ≡ class_of P.name loader name.now self.now.rows }
    {
        self.rows.indexed.class(loader, name)
    }

    /// What is kept of the class in the loader of this number that has the name of this one.
    pub fn class_like(&self, loader: u64, class: &P) -> Option<&P>
        ensures { option_copied result ≡ class_of P.name loader (P.name class.now) self.now.rows }
    {
        self.rows.indexed.class_like(loader, class)
    }

    /// Whether a loader of this number lives.
    pub fn is_live(&self, number: u64) -> bool
        ensures { result ≡ is_live number self.now.rows }
    {
        find(&self.loaders.slots, number).is_some()
    }

    /// Whether a number is above those of all live loaders.
    pub fn is_above(&self, number: u64) -> bool
        ensures { result ≡ is_above number self.now.rows }
    {
        let count = self.loaders.slots.len();
        count == 0 || self.loaders.slots[count - 1].item.number < number
    }

    /// The chunk of a loader's last class, with its used words, if the loader has a class.
    pub fn last(&self, number: u64) -> Option<LastChunk>
        ensures { result ≡ last_of number self.now.rows }
    {
        let at = find(&self.loaders.slots, number)?;
        self.loaders.slots[at].item.last
    }

    /// What is kept of the classes on the chunk of a loader's last class, if the loader has a
    /// class.
    pub fn last_kept(&self, number: u64) -> Option<LastKept<'_, P>>
        ensures { result ≡ kept_on_last number self.now.rows }
    {
        let at = find(&self.loaders.slots, number)?;
        let last = self.loaders.slots[at].item.last?;
        Some(LastKept::from_newest(
            &self.rows.indexed.slots,
            &self.rows.before,
            self.loaders.newest[at],
            last,
        ))
    }

    /// Whether a chunk is free: the region has it, and no row's record is on a word of it.
    pub fn is_unused(&mut self, chunk: &Chunk) -> bool
        ensures unused { result
            ≡ (is_chunk self.old.sizes chunk.now && is_unused chunk.now self.old.rows) }
        ensures same { self.new ≡ self.old }
    {
        is_free(&mut self.pool, chunk)
    }

    /// Removes all rows.
    pub fn clear(&mut self)
        ensures { self.new ≡ record self.old { rows = [] } }
    {
        give_all(&self.rows.indexed.slots, &mut self.pool);
        self.rows.clear();
        self.count = 0;
        self.taken = 0;
        self.loaders.clear();
    }

    /// The rows, one after another.
    pub fn walk(&self) -> Walk<'_, P>
        ensures { result ≡ self.now.rows }
    {
        Walk::over(&self.rows.indexed.slots)
    }

    /// How many rows there are.
    pub fn len(&self) -> usize
        ensures { result ≡ length self.now.rows }
    {
        self.count
    }

    /// How many slots the rows take as live rows.
    pub fn slots(&self) -> usize
        ensures { result ≡ slots_of_rows self.now.rows }
    {
        self.taken
    }

    /// Whether the slots for live rows that are left beside these rows are fewer than `need`.
    pub fn is_full(&self, need: usize) -> bool
        ensures { result ≡ is_too_much self.now.sizes (slots_of_rows self.now.rows) need }
    {
        row_limit(self.geometry) - self.taken < need
    }

    /// Whether a loader can be added: its name is new, and there is room for its row.
    fn is_new_loader(&self, row: &LoaderRow) -> bool
        ensures { result ≡ is_new_loader self.now.sizes self.now.rows row.now }
    {
        !self.is_full(row.name.slots()) && self.rows.indexed.is_new_loader_name(row.name.as_bytes())
    }

    fn add_loader(&mut self, row: LoaderRow) -> Option<EntryRule>
        requires { IsTrue (is_above row.number self.old.rows) }
        ensures broken { result
            ≡ (if is_new_loader self.old.sizes self.old.rows row then None else Some OnRows) }
        ensures left { self.new
            ≡ (if is_none result
            then record self.old { rows = self.old.rows ++ Loader row ∷ [] }
            else self.old) }
    {
        if !self.is_new_loader(&row) {
            return Some(EntryRule::OnRows);
        }
        make_room(self.geometry, &mut self.rows, &mut self.loaders);
        let next = self.rows.indexed.slots.len() as u32;
        self.loaders.push(row.number, next);
        push_place(&mut self.rows.before, None);
        self.rows.indexed.push_row(Row::Loader(row));
        self.count += 1;
        self.taken += row.name.slots();
        None
    }

    fn define(&mut self, row: ClassRow, kept: P) -> Option<EntryRule>
        ensures broken { result ≡ broken_live_rule self.old.sizes 0 self.old.rows (Class row kept) }
        ensures left { self.new
            ≡ (if is_none result
            then record self.old { rows = self.old.rows ++ Class row kept ∷ [] }
            else self.old) }
    {
        let (taken, loaders) = (self.taken, &self.loaders.slots);
        if let Some(rule) = place_class(self.geometry, taken, loaders, &row, &mut self.pool) {
            return Some(rule);
        }
        let used = row.place.offset + row.place.words;
        let last = LastChunk {
            chunk: row.place.chunk,
            used,
        };
        make_room(self.geometry, &mut self.rows, &mut self.loaders);
        // dead rows may be swept out before it, which moves it
        let here = find(&self.loaders.slots, row.loader).unwrap();
        let next = self.rows.indexed.slots.len() as u32;
        link(&mut self.rows.before, &mut self.loaders.newest, here, next);
        set_last(&mut self.loaders.slots, here, row.loader, last);
        self.rows.indexed.push_row(Row::Class(row, kept));
        self.count += 1;
        self.taken += 1;
        None
    }

    fn unload(&mut self, number: u64) -> Option<EntryRule>
        ensures broken { result ≡ (if is_live number self.old.rows then None else Some OnRows) }
        ensures left { self.new
            ≡ (if is_none result
            then record self.old { rows = without_loader number self.old.rows }
            else self.old) }
    {
        let Some(at) = find(&self.loaders.slots, number) else {
            return Some(EntryRule::OnRows);
        };
        let last = self.loaders.newest[at];
        let gone = unload_rows(
            &mut self.rows.indexed.slots,
            &self.rows.before,
            number,
            last,
            &mut self.pool,
        );
        self.count -= gone.rows;
        self.taken -= gone.slots;
        self.loaders.end(at, number);
        None
    }

    fn unload_all(&mut self, numbers: &[u64]) -> Option<EntryRule>
        ensures broken { result
            ≡ (if differ numbers.now && are_live numbers.now self.old.rows
            then None
            else Some OnRows) }
        ensures left { self.new
            ≡ (if is_none result
            then record self.old { rows = without_loaders numbers.now self.old.rows }
            else self.old) }
    {
        if !are_different(numbers) || !self.are_live(numbers) {
            return Some(EntryRule::OnRows);
        }
        for number in numbers {
            self.unload(*number);
        }
        None
    }

    // Whether a loader of each of these numbers lives.
    fn are_live(&self, numbers: &[u64]) -> bool
        ensures { result ≡ are_live numbers.now self.now.rows }
    {
        numbers.iter().all(|number| self.is_live(*number))
    }

    fn apply_move(&mut self, entry: &Move) -> Option<EntryRule>
        ensures broken { result
            ≡ (if move_fits self.old.sizes self.old.rows entry.now then None else Some OnChunks) }
        ensures left { self.new
            ≡ (if is_none result
            then record self.old { rows = moved entry.now.from entry.now.to self.old.rows }
            else self.old) }
    {
        let Some(at) = find(&self.loaders.slots, entry.loader) else {
            return Some(EntryRule::OnChunks);
        };
        let Some(last) = self.loaders.slots[at].item.last else {
            return Some(EntryRule::OnChunks);
        };
        if !has_room(self.geometry, last, entry) || !self.pool.take(&entry.to) {
            return Some(EntryRule::OnChunks);
        }
        self.pool.give(entry.from);
        let newest = self.loaders.newest[at];
        let left = LastChunk {
            chunk: entry.from,
            used: last.used,
        };
        move_rows(
            &mut self.rows.indexed.slots,
            &self.rows.before,
            entry.loader,
            newest,
            left,
            entry.to,
        );
        let moved = LastChunk {
            chunk: entry.to,
            used: last.used,
        };
        set_last(&mut self.loaders.slots, at, entry.loader, moved);
        None
    }
}

// Whether no number occurs twice. There are only a few.
fn are_different(numbers: &[u64]) -> bool
    ensures { result ≡ differ numbers.now }
{
    let mut left = numbers;
    while let Some((first, others)) = left.split_first() {
        if !differs_from_all(*first, others) {
            return false;
        }
        left = others;
    }
    true
}

fn differs_from_all(number: u64, others: &[u64]) -> bool
    ensures { result ≡ list_all (λ other. not (number == other)) others.now }
{
    others.iter().all(|other| number != *other)
}

impl LiveRows<()> {
    ghost use Rattle.cm_layout.specs.Rows.{bare};

    /// Copies the rows of another value of the same sizes, with nothing kept of a class.
    pub fn copy_from<Q: Kept>(&mut self, other: &LiveRows<Q>)
        requires { self.old.sizes ≡ other.now.sizes }
        ensures { self.new ≡ record self.old { rows = bare other.now.rows } }
    {
        give_all(&self.rows.indexed.slots, &mut self.pool);
        take_all(&other.rows.indexed.slots, &mut self.pool);
        copy_rows(&mut self.rows.indexed.slots, &other.rows.indexed.slots);
        self.count = other.count;
        self.taken = other.taken;
        self.rows.indexed.index_anew();
        copy_loaders(&mut self.loaders.slots, &other.loaders.slots);
        relink(
            &mut self.rows.before,
            &mut self.loaders.newest,
            &self.loaders.slots,
            &self.rows.indexed.slots,
        );
    }
}

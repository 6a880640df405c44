//! Sample entries and live rows.

ghost use Rattle.std.specs.Prelude.{◌≡◌, IfOk};

use cm_layout::{
    ClassRow, Entry, EntryRule, LoaderNumbers, LoaderRow, Move, Row, SlotName, Unload, UnloadAll,
};
use cm_pool::{Chunk, Geometry, Place};
use cm_rows::{Kept, LiveRows};
use std::alloc::Global;
use std::test::Fail;

pub const ROWS: Option<EntryRule> = Some(EntryRule::OnRows);

pub const CHUNKS: Option<EntryRule> = Some(EntryRule::OnChunks);

// The result of an entry: the first broken rule, or an error if the number isn't above those of the
// live loaders.
pub fn offer<P: Kept>(
    book: &mut LiveRows<P>,
    number: u64,
    entry: Entry<P>,
) -> Result<Option<EntryRule>, Fail>
    ensures { book.new.sizes ≡ book.old.sizes }
{
    if !book.is_above(number) {
        return Err("the number has been".into());
    }
    Ok(book.apply(number, entry))
}

// Offers an entry that breaks no rule.
pub fn take<P: Kept>(book: &mut LiveRows<P>, number: u64, entry: Entry<P>) -> Result<(), Fail> {
    match offer(book, number, entry)? {
        None => Ok(()),
        Some(rule) => Err(rule.into()),
    }
}

// Live rows of a region with this many roots of 1,024 words, and this many slots.
pub fn sized_book<P: Kept>(alloc: Global, roots: u32, slots: u32) -> Result<LiveRows<P>, Fail>
    ensures { IfOk result (λ book. book.sizes ≡ record { top = 3; roots = roots; slots = slots }) }
{
    let geometry = Geometry::new(3, roots, slots).ok_or("within the limits")?;
    Ok(LiveRows::new(alloc, geometry)?)
}

// Live rows of a region with one root.
pub fn small_book<P: Kept>(alloc: Global) -> Result<LiveRows<P>, Fail>
    ensures { IfOk result (λ book. book.sizes ≡ record { top = 3; roots = 1; slots = 256 }) }
{
    sized_book(alloc, 1, 256)
}

pub fn chunk(order: u32, at: u32) -> Chunk {
    Chunk { root: 0, order, at }
}

pub fn loader_row<P>(number: u64, name: &[u8]) -> Result<Row<P>, Fail> {
    let name = SlotName::new(name).ok_or("a short name")?;
    Ok(Row::Loader(LoaderRow { number, name }))
}

pub fn loader<P>(number: u64, name: &[u8]) -> Result<Entry<P>, Fail> {
    Ok(Entry::Live(loader_row(number, name)?))
}

pub fn class_row(loader: u64, chunk: Chunk, offset: u32, words: u32) -> ClassRow {
    let place = Place {
        chunk,
        offset,
        words,
    };
    ClassRow { loader, place }
}

pub fn class(loader: u64, chunk: Chunk, offset: u32, words: u32) -> Entry<()> {
    Entry::Live(Row::Class(class_row(loader, chunk, offset, words), ()))
}

pub fn unload<P>(loader: u64) -> Entry<P> {
    Entry::Unload(Unload { loader })
}

pub fn unload_all<P>(loaders: &[u64]) -> Result<Entry<P>, Fail> {
    let loaders = LoaderNumbers::new(loaders).ok_or("one to seven loaders")?;
    Ok(Entry::UnloadAll(UnloadAll { loaders }))
}

pub fn move_of<P>(loader: u64, from: Chunk, to: Chunk) -> Entry<P> {
    Entry::Move(Move { loader, from, to })
}

/// An entry as tables give it, made of values alone, so that nothing in a table has to be dropped.
#[derive(Clone, Copy)]
pub enum Sample<'a> {
    /// A loader's number and name.
    Loader(u64, &'a [u8]),
    /// A class's loader, its chunk by order and first word, its offset and the number of its words.
    Class(u64, (u32, u32), u32, u32),
    Unload(u64),
    /// A loader's chunk moves to another; each is given by its order and first word.
    Move(u64, (u32, u32), (u32, u32)),
    UnloadAll(&'a [u64]),
}

impl<'a> Sample<'a> {
    /// The entry.
    pub fn entry(self) -> Result<Entry<()>, Fail> {
        match self {
            Sample::Loader(number, name) => loader(number, name),
            Sample::Class(owner, (order, at), offset, words) => {
                Ok(class(owner, chunk(order, at), offset, words))
            }
            Sample::Unload(owner) => Ok(unload(owner)),
            Sample::Move(loader, from, to) => {
                Ok(move_of(loader, chunk(from.0, from.1), chunk(to.0, to.1)))
            }
            Sample::UnloadAll(loaders) => unload_all(loaders),
        }
    }
}

/// A sample with its number, and the rule that it breaks.
pub type Case<'a> = (u64, Sample<'a>, Option<EntryRule>);

/// Offers entries one after another, and fails at the first that breaks a different rule than the
/// one given.
pub fn offer_each(book: &mut LiveRows<()>, cases: &[Case<'_>]) -> Result<(), Fail>
    ensures { book.new.sizes ≡ book.old.sizes }
{
    for (at, case) in cases.iter().enumerate() {
        let (number, sample, rule) = *case;
        if offer(book, number, sample.entry()?)? != rule {
            return Err(Fail::new(format_args!("another rule, at {at}")));
        }
    }
    Ok(())
}

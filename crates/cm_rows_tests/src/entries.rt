//! Worked entries, one after another, with the rule that each breaks.

ghost use Rattle.std.specs.Prelude.{◌≡◌};

use crate::random::long_name_of;
use crate::samples::Sample::{Class, Loader, Move, Unload, UnloadAll};
use crate::samples::{
    CHUNKS, Case, ROWS, chunk, class_row, loader, loader_row, offer_each, small_book, take,
};
use cm_layout::{EntryRule, Row};
use cm_pool::Chunk;
use cm_rows::{LastChunk, LiveRows};
use std::alloc::AllocGlobal;
use std::process::Abort;
use std::test::*;

// Chunks by their orders and first words.
const FIRST: (u32, u32) = (0, 0);

const PAIR: (u32, u32) = (1, 0);

const FOUR: (u32, u32) = (2, 0);

const SECOND: (u32, u32) = (0, 128);

const FIFTH: (u32, u32) = (0, 512);

static JUDGED: [Case<'_>; 22] = [
    (1, Loader(1, b"app"), None),
    (2, Loader(3, b"lib"), ROWS),
    (2, Loader(2, b"app"), ROWS),
    (2, Loader(2, b"my lib"), ROWS),
    (2, Loader(2, b"lib"), None),
    (3, Class(9, FIRST, 0, 16), ROWS),
    (3, Class(1, FIRST, 1, 16), CHUNKS),
    (3, Class(1, (0, 64), 0, 16), CHUNKS),
    (3, Class(1, FIRST, 0, 129), CHUNKS),
    (3, Class(1, FIRST, 0, 0), CHUNKS),
    (3, Class(1, FIRST, 0, 100), None),
    (4, Class(2, FIRST, 100, 8), CHUNKS),
    (4, Class(2, PAIR, 0, 8), CHUNKS),
    (4, Class(1, FIRST, 100, 28), None),
    (5, Class(1, FIRST, 128, 1), CHUNKS),
    (5, Class(2, SECOND, 0, 8), None),
    (6, Unload(3), ROWS),
    (6, Unload(1), None),
    (7, Unload(1), ROWS),
    (7, Class(2, PAIR, 0, 8), CHUNKS),
    (7, Class(2, FIRST, 0, 8), None),
    (8, Loader(8, b"app"), None),
];

// Whether the loader of the last row is live under its name, and of the others exactly what should
// be left.
fn has_what_is_left(book: &LiveRows<()>) -> bool {
    book.loader(b"app") == Some(8)
        && book.loader(b"boot").is_none()
        && book.is_live(2)
        && !book.is_live(1)
        && book.len() == 4
        && book.slots() == 4
        && !book.is_full(124)
        && book.is_full(125)
}

fn judge_each(rt: &impl Abort, book: &mut LiveRows<()>) -> Result<(), Fail> {
    offer_each(book, &JUDGED)?;
    assert!(rt; has_what_is_left(book));
    Ok(())
}

#[test]
fn judges_each_entry(rt: HostRuntime) -> Result<(), Fail> {
    let mut book = small_book(rt.alloc())?;
    judge_each(&rt, &mut book)
}

static MOVED: [Case<'_>; 12] = [
    (1, Loader(1, b"app"), None),
    (2, Class(1, FOUR, 0, 100), None),
    (3, Class(1, FOUR, 100, 28), None),
    (4, Move(1, (2, 512), FIFTH), CHUNKS),
    (4, Move(2, FOUR, FIFTH), CHUNKS),
    (4, Move(1, FOUR, (0, 384)), CHUNKS),
    (4, Move(1, FOUR, FIFTH), None),
    (5, Class(1, FOUR, 128, 1), CHUNKS),
    (5, Class(1, FIRST, 0, 128), None),
    (6, Class(1, (1, 128), 0, 200), CHUNKS),
    (6, Class(1, (1, 256), 0, 129), None),
    (7, Move(1, (1, 256), SECOND), CHUNKS),
];

// Whether the chunks of the classes are these, in the order of their rows.
fn lie_on(book: &LiveRows<()>, chunks: &[Chunk]) -> bool {
    let mut expected = chunks.iter();
    let mut walk = book.walk();
    for _ in 0..book.len() {
        if let Some(Row::Class(row, _)) = walk.next() {
            if expected.next() != Some(&row.place.chunk) {
                return false;
            }
        }
    }
    expected.next().is_none()
}

// Whether the one loader that has classes has this last chunk.
fn has_last(book: &LiveRows<()>, chunk: Chunk, used: u32) -> bool {
    book.last(1) == Some(LastChunk { chunk, used }) && book.last(2).is_none()
}

fn move_last(rt: &impl Abort, book: &mut LiveRows<()>) -> Result<(), Fail> {
    // a chunk that isn't the last one, one of another loader, one that is too small, one that is in
    // use
    offer_each(book, &MOVED)?;
    assert!(rt; has_last(book, chunk(1, 256), 129));
    let moved = [chunk(0, 512), chunk(0, 512), chunk(0, 0), chunk(1, 256)];
    assert!(rt; lie_on(book, &moved));
    Ok(())
}

#[test]
fn moves_a_loaders_last_chunk(rt: HostRuntime) -> Result<(), Fail> {
    let mut book = small_book(rt.alloc())?;
    move_last(&rt, &mut book)
}

static GONE_AT_ONCE: [Case<'_>; 14] = [
    (1, Loader(1, b"app"), None),
    (2, Loader(2, b"lib"), None),
    (3, Loader(3, b"ext"), None),
    (4, Class(1, FIRST, 0, 8), None),
    (5, Class(2, SECOND, 0, 8), None),
    (6, UnloadAll(&[1, 4]), ROWS),
    (6, UnloadAll(&[1, 1]), ROWS),
    (6, UnloadAll(&[4]), ROWS),
    (6, UnloadAll(&[2, 1]), None),
    (7, UnloadAll(&[3, 2]), ROWS),
    (7, Class(3, FIRST, 0, 8), None),
    (8, Class(3, SECOND, 0, 8), None),
    (9, UnloadAll(&[3]), None),
    (10, UnloadAll(&[3]), ROWS),
];

fn unload_at_once(rt: &impl Abort, book: &mut LiveRows<()>) -> Result<(), Fail> {
    offer_each(book, &GONE_AT_ONCE)?;
    assert_eq!(rt; book.len(), 0);
    Ok(())
}

#[test]
fn unloads_several_loaders_at_once(rt: HostRuntime) -> Result<(), Fail> {
    let mut book = small_book(rt.alloc())?;
    unload_at_once(&rt, &mut book)
}

// 63 loaders of 96 bytes take 126 of the 128 slots that live rows may have.
static FULL: [Case<'_>; 10] = [
    (
        64,
        Loader(
            64,
            b"my name takes two slots, but a space is no byte of one",
        ),
        ROWS,
    ),
    (64, Loader(64, &[b'm'; 49]), None),
    (65, Loader(65, b"a"), ROWS),
    (65, Loader(65, &[b'n'; 96]), ROWS),
    (65, Class(1, FIRST, 0, 8), ROWS),
    (65, Unload(64), None),
    (66, Class(1, FIRST, 0, 8), None),
    (67, Loader(67, &[b'n'; 49]), ROWS),
    (67, Loader(67, &[b'n'; 48]), None),
    (68, Class(1, FIRST, 8, 8), ROWS),
];

fn fill_with_long_names(rt: &impl Abort, book: &mut LiveRows<()>) -> Result<(), Fail> {
    for number in 1..64 {
        take(book, number, loader(number, &long_name_of(number))?)?;
    }
    assert!(rt; book.slots() == 126 && !book.is_full(2) && book.is_full(3));
    offer_each(book, &FULL)?;
    assert!(rt; book.len() == 65 && book.slots() == 128 && book.is_full(1));
    assert_eq!(rt; book.loader(&long_name_of(63)), Some(63));
    Ok(())
}

#[test]
fn long_names_take_two_slots(rt: HostRuntime) -> Result<(), Fail> {
    let mut book = small_book(rt.alloc())?;
    fill_with_long_names(&rt, &mut book)
}

// A live row as tables give it.
#[derive(Clone, Copy)]
enum LiveSample {
    Loader(u64, &'static [u8]),
    Class(u64, u32),
}

impl LiveSample {
    fn row(self) -> Result<Row<()>, Fail> {
        match self {
            LiveSample::Loader(number, name) => loader_row(number, name),
            LiveSample::Class(loader, words) => {
                Ok(Row::Class(class_row(loader, chunk(0, 0), 0, words), ()))
            }
        }
    }
}

static LIVE: [(LiveSample, Option<EntryRule>); 7] = [
    (LiveSample::Loader(0, b"app"), ROWS),
    (LiveSample::Loader(8, b"app"), ROWS),
    (LiveSample::Class(1, 1), ROWS),
    (LiveSample::Loader(4, b"app"), None),
    (LiveSample::Loader(3, b"lib"), ROWS),
    (LiveSample::Class(4, 8), None),
    (LiveSample::Loader(7, b"lib"), None),
];

fn take_each(rt: &impl Abort, book: &mut LiveRows<()>) -> Result<(), Fail> {
    for (sample, rule) in &LIVE {
        assert_eq!(rt; book.apply_live(7, sample.row()?), *rule);
    }
    Ok(())
}

#[test]
fn takes_live_rows_in_their_order(rt: HostRuntime) -> Result<(), Fail> {
    let mut book = small_book(rt.alloc())?;
    take_each(&rt, &mut book)
}

// Two classes of the only loader that was there before, and what a copy takes after the copied
// rows.
static OLD: [Case<'_>; 2] = [
    (1, Loader(1, b"old"), None),
    (2, Class(1, FOUR, 0, 8), None),
];

static COPIED: [Case<'_>; 2] = [
    (1, Loader(1, b"app"), None),
    (2, Class(1, SECOND, 0, 8), None),
];

static BEHIND_A_COPY: [Case<'_>; 3] = [
    (3, Class(1, SECOND, 8, 8), None),
    (4, Class(1, FOUR, 0, 8), CHUNKS),
    (4, Class(1, FIRST, 0, 8), None),
];

// Whether it has one loader, of a name that no loader had before, and a class without a name.
fn has_copied(copy: &LiveRows<()>) -> bool {
    copy.len() == 2
        && copy.loader(b"old").is_none()
        && copy.loader(b"app") == Some(1)
        && copy.class(1, b"").is_some()
}

// Fills live rows with other rows, and then copies these over them.
fn copy_over(rt: &impl Abort, copy: &mut LiveRows<()>, book: &LiveRows<()>) -> Result<(), Fail>
    requires { copy.old.sizes ≡ book.now.sizes }
{
    offer_each(copy, &OLD)?;
    copy.copy_from(book);
    assert!(rt; has_copied(copy));
    offer_each(copy, &BEHIND_A_COPY)
}

fn fill_and_copy(rt: &(impl Abort + AllocGlobal), book: &mut LiveRows<()>) -> Result<(), Fail>
    requires { book.old.sizes ≡ record { top = 3; roots = 1; slots = 256 } }
{
    offer_each(book, &COPIED)?;
    let mut copy = small_book(rt.alloc())?;
    copy_over(rt, &mut copy, book)
}

#[test]
fn a_copy_answers_as_its_book(rt: HostRuntime) -> Result<(), Fail> {
    let mut book = small_book(rt.alloc())?;
    fill_and_copy(&rt, &mut book)
}

// The whole region, after rows that had half of it are cleared.
static WHOLE: [Case<'_>; 2] = [
    (1, Loader(1, b"app"), None),
    (2, Class(1, (3, 0), 0, 1024), None),
];

fn clear_and_fill(rt: &impl Abort, book: &mut LiveRows<()>) -> Result<(), Fail> {
    offer_each(book, &OLD)?;
    book.clear();
    assert_eq!(rt; book.len(), 0);
    offer_each(book, &WHOLE)
}

#[test]
fn a_cleared_book_has_its_whole_region(rt: HostRuntime) -> Result<(), Fail> {
    let mut book = small_book(rt.alloc())?;
    clear_and_fill(&rt, &mut book)
}

// The worked cases of a region with one root of 1,024 words, and chains that grow.
ghost use Rattle.std.specs.Prelude.{◌≤◌};

use crate::samples::{Parts, chunk, empty_pool};
use cm_arena::{Arena, Moved, PlaceRefusal};
use cm_pool::{Chunk, Place, Pool};
use std::alloc::AllocError;
use std::test::Fail;

// Tries again if an allocation failed: arena and pool are unchanged, so the result is the expected
// one.
fn place(arena: &mut Arena, words: u32, pool: &mut Pool) -> Result<Place, PlaceRefusal>
    requires { 1 ≤ words }
{
    match arena.place(words, pool) {
        Err(PlaceRefusal::NoMemory) => arena.place(words, pool),
        answer => answer,
    }
}

// A chunk and how many words in it are used before; or an error.
type Answer = Result<(Parts, u32), PlaceRefusal>;

// Whether this many words are placed in this chunk after this many others, or rejected, and whether
// `is_full` predicts if the region is full.
fn is_placed(arena: &mut Arena, pool: &mut Pool, words: u32, expected: &Answer) -> bool
    requires { 1 ≤ words }
{
    let full = arena.is_full(words, pool);
    let placed = place(arena, words, pool);
    match expected {
        Ok((parts, offset)) => {
            let expected = Place {
                chunk: chunk(*parts),
                offset: *offset,
                words,
            };
            !full && placed == Ok(expected)
        }
        Err(refusal) => {
            full == (*refusal == PlaceRefusal::RegionFull) && placed == Err(*refusal)
        }
    }
}

// Numbers of words that are placed in turn.
const PLACED: [(u32, Answer); 7] = [
    (16, Ok(((0, 0, 0), 0))),
    (113, Ok(((0, 1, 256), 0))),
    (600, Err(PlaceRefusal::RegionFull)),
    (1025, Err(PlaceRefusal::RecordTooLong)),
    (200, Ok(((0, 2, 512), 0))),
    (300, Ok(((0, 2, 512), 200))),
    (128, Ok(((0, 0, 128), 0))),
];

// The first number of words with a different result.
fn place_each(arena: &mut Arena, pool: &mut Pool) -> Option<u32> {
    for (words, expected) in &PLACED {
        if !is_placed(arena, pool, *words, expected) {
            return Some(*words);
        }
    }
    None
}

// How many words of a chunk are used; `None` if the arena doesn't have the chunk.
type Used = (Parts, Option<u32>);

const USED: [Used; 5] = [
    ((0, 0, 0), Some(16)),
    ((0, 1, 256), Some(113)),
    ((0, 2, 512), Some(500)),
    ((0, 0, 128), Some(128)),
    ((0, 3, 0), None),
];

fn uses(arena: &Arena, cases: &[Used]) -> bool {
    let mut equal = true;
    for (parts, used) in cases {
        equal = arena.used_words(&chunk(*parts)) == *used && equal;
    }
    equal
}

// Whether these are the chunks that `USED` has, in order.
fn are_used(chunks: &[Chunk]) -> bool {
    let expected = [
        chunk((0, 0, 0)),
        chunk((0, 1, 256)),
        chunk((0, 2, 512)),
        chunk((0, 0, 128)),
    ];
    chunks == expected.as_slice()
}

#[test]
fn places_words(rt: HostRuntime) -> Result<(), Fail> {
    let mut pool = empty_pool(rt.alloc(), 3, 1)?;
    let mut arena = Arena::new(rt.alloc());
    assert_eq!(rt; place_each(&mut arena, &mut pool), None);
    assert!(rt; are_used(arena.chunks()) && uses(&arena, &USED));
    assert!(rt; are_used(&arena.release()));
    Ok(())
}

// Each of these fills a chunk: of order 0, 1, 2, 3, then of order 4 and no larger, from a second
// root; then no chunk of order 4 is free, but one of the order needed. The last two are rejected.
const GROWING: [(u32, Answer); 10] = [
    (128, Ok(((0, 0, 0), 0))),
    (256, Ok(((0, 1, 256), 0))),
    (512, Ok(((0, 2, 512), 0))),
    (1024, Ok(((0, 3, 1024), 0))),
    (2048, Ok(((0, 4, 2048), 0))),
    (2048, Ok(((1, 4, 0), 0))),
    (2048, Ok(((1, 4, 2048), 0))),
    (1, Ok(((0, 0, 128), 0))),
    (128, Err(PlaceRefusal::RegionFull)),
    (4097, Err(PlaceRefusal::RecordTooLong)),
];

// The first number of words with a different result.
fn grow(arena: &mut Arena, pool: &mut Pool) -> Option<u32> {
    for (words, expected) in &GROWING {
        if !is_placed(arena, pool, *words, expected) {
            return Some(*words);
        }
    }
    None
}

#[test]
fn takes_larger_chunks_in_a_longer_chain(rt: HostRuntime) -> Result<(), Fail> {
    let mut pool = empty_pool(rt.alloc(), 5, 2)?;
    assert_eq!(rt; grow(&mut Arena::new(rt.alloc()), &mut pool), None);
    Ok(())
}

// A chunk, an offset in it, a number of words, and whether this is the next place.
const NEXT: [(Parts, u32, u32, bool); 11] = [
    ((0, 0, 0), 0, 16, true),
    ((0, 0, 0), 0, 16, false),
    ((0, 0, 0), 15, 1, false),
    ((0, 0, 0), 17, 1, false),
    ((0, 0, 0), 16, 0, false),
    ((0, 0, 0), 16, 113, false),
    ((0, 0, 0), 16, 112, true),
    ((0, 1, 256), 1, 16, false),
    ((0, 1, 256), 0, 257, false),
    ((0, 1, 256), 0, 256, true),
    ((0, 4_000_000_000, 0), 0, 1, false),
];

// The first place with a different result.
fn adopt_each(arena: &mut Arena) -> Result<Option<Place>, AllocError> {
    for (parts, offset, words, next) in &NEXT {
        let place = Place {
            chunk: chunk(*parts),
            offset: *offset,
            words: *words,
        };
        if arena.adopt(place)? != *next {
            return Ok(Some(place));
        }
    }
    Ok(None)
}

const ADOPTED: [Used; 2] = [((0, 0, 0), Some(128)), ((0, 1, 256), Some(256))];

#[test]
fn adopts_the_next_place(rt: HostRuntime) {
    let mut arena = Arena::new(rt.alloc());
    assert_eq!(rt; adopt_each(&mut arena), Ok(None));
    assert!(rt; uses(&arena, &ADOPTED));
}

// The last chunk's words move to the first free chunk that they need, and then nowhere.
fn moves_down_once(arena: &mut Arena, pool: &mut Pool) -> bool {
    let moved = Moved {
        from: chunk((0, 1, 256)),
        to: chunk((0, 0, 128)),
    };
    !arena.is_tight(pool)
        && arena.tighten(pool) == Some(moved)
        && arena.is_tight(pool)
        && arena.tighten(pool).is_none()
}

const MOVED_DOWN: [Used; 3] = [
    ((0, 0, 0), Some(16)),
    ((0, 0, 128), Some(113)),
    ((0, 1, 256), None),
];

#[test]
fn a_tail_moves_down(rt: HostRuntime) -> Result<(), Fail> {
    let mut pool = empty_pool(rt.alloc(), 3, 1)?;
    let mut arena = Arena::new(rt.alloc());
    assert!(rt; arena.is_tight(&mut pool));
    let _front = place(&mut arena, 16, &mut pool);
    let _tail = place(&mut arena, 113, &mut pool);
    assert!(rt; moves_down_once(&mut arena, &mut pool));
    assert!(rt; uses(&arena, &MOVED_DOWN));
    Ok(())
}

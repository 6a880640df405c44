// The worked cases of a region with one root of 1,024 words, and a long run against a plain set of
// words.
ghost use Rattle.cm_pool.specs.Held.{AreHeld};

use crate::held_chunks::{give_held, hold};
use crate::samples::{HANDED_OUT, Parts, chunk, empty_pool};
use cm_pool::{Chunk, Geometry, Pool};
use std::alloc::{AllocError, Global};
use std::collections::BTreeSet;
use std::ops::Range;
use std::process::Abort;
use std::test::Fail;

// The order of a root, the roots, the slots, and whether there is such a region.
const SIZES: [(u32, u32, u32, bool); 8] = [
    (3, 1, 256, true),
    (12, 256, 65_536, true),
    (2, 1, 256, false),
    (13, 1, 256, false),
    (3, 0, 256, false),
    (3, 257, 256, false),
    (3, 1, 255, false),
    (3, 1, 65_537, false),
];

// Whether there is a region of these sizes, with exactly these; or there is none.
fn keeps_sizes(top: u32, roots: u32, slots: u32, within: bool) -> bool {
    match Geometry::new(top, roots, slots) {
        Some(geometry) => {
            let sizes = (geometry.top(), geometry.roots(), geometry.slots());
            within && sizes == (top, roots, slots)
        }
        None => !within,
    }
}

#[test]
fn keeps_sizes_within_limits(rt: HostRuntime) {
    for (top, roots, slots, within) in &SIZES {
        let kept = keeps_sizes(*top, *roots, *slots, *within);
        assert!(rt; kept, "at {top} {roots} {slots}");
    }
}

// Two chunks, and whether they share a word.
const MEETING: [(Parts, Parts, bool); 12] = [
    ((0, 0, 0), (0, 0, 0), true),
    ((0, 0, 0), (0, 0, 128), false),
    ((0, 0, 128), (0, 1, 0), true),
    ((0, 2, 0), (0, 0, 384), true),
    ((0, 2, 0), (0, 0, 512), false),
    ((0, 0, 0), (1, 0, 0), false),
    // Chunks that no region has, but a damaged file may name.
    ((0, 4_000_000_000, 0), (0, 0, 4_294_967_168), true),
    ((0, 4_000_000_000, 1), (0, 0, 0), true),
    ((0, 4_000_000_000, 128), (0, 0, 0), false),
    ((0, 25, 4_294_967_295), (0, 25, 0), true),
    ((0, 31, 0), (0, 0, u32::MAX), true),
    ((0, 32, 0), (0, 32, u32::MAX), true),
];

#[test]
fn meets_where_a_word_is_shared(rt: HostRuntime) {
    for (a, b, meets) in &MEETING {
        let (a, b) = (chunk(*a), chunk(*b));
        let is_due = a.meets(&b) == *meets && b.meets(&a) == *meets;
        assert!(rt; is_due, "at {a:?} {b:?}");
    }
}

// Adds a root; tries again if an allocation failed, since the pool is unchanged.
fn add_root(pool: &mut Pool) -> Result<bool, AllocError> {
    match pool.add_root() {
        Ok(added) => Ok(added),
        Err(AllocError) => pool.add_root(),
    }
}

// A pool with all its roots.
fn whole_pool(alloc: Global, top: u32, roots: u32) -> Result<Pool, Fail> {
    let mut pool = empty_pool(alloc, top, roots)?;
    for _ in 0..roots {
        let _added = add_root(&mut pool)?;
    }
    Ok(pool)
}

// Whether the expected chunks are handed out.
fn hand_out(pool: &mut Pool, held: &mut Vec<Chunk>) -> Result<bool, AllocError>
    requires { AreHeld pool.old held.old.items }
    ensures { AreHeld pool.new held.new.items }
{
    let mut equal = true;
    for (order, first) in &HANDED_OUT {
        equal = hold(pool, held, *order)? == *first && equal;
    }
    Ok(equal)
}

// Whether the whole root is handed out once everything that was held is given back.
fn hand_out_again(pool: &mut Pool, held: &mut Vec<Chunk>) -> Result<bool, AllocError>
    requires { AreHeld pool.old held.old.items }
{
    while !held.is_empty() {
        let _given = give_held(pool, held, 0);
    }
    Ok(hold(pool, held, 3)? == Some(chunk((0, 3, 0))))
}

fn hand_out_twice(rt: &impl Abort, alloc: Global, pool: &mut Pool) -> Result<(), Fail> {
    assert!(rt; !pool.add_root()? && pool.roots() == 1);
    let mut held = Vec::new(alloc);
    assert!(rt; hand_out(pool, &mut held)? && hand_out_again(pool, &mut held)?);
    Ok(())
}

#[test]
fn hands_out_the_first_chunk(rt: HostRuntime) -> Result<(), Fail> {
    let mut pool = whole_pool(rt.alloc(), 3, 1)?;
    hand_out_twice(&rt, rt.alloc(), &mut pool)
}

// Chunks that are requested in turn, and whether each is taken.
const TAKEN: [(Parts, bool); 12] = [
    ((0, 1, 256), true),
    ((0, 1, 256), false),
    ((0, 0, 384), false),
    ((0, 2, 0), false),
    ((0, 1, 0), true),
    // Chunks that aren't in a present root.
    ((1, 0, 0), false),
    ((0, 0, 640 + 1), false),
    ((0, 1, 640), false),
    ((0, 0, 1024), false),
    ((0, 4, 0), false),
    ((0, 4_000_000_000, 0), false),
    ((0, 2, 512), true),
];

// The first chunk with a different result.
fn take_each(pool: &mut Pool) -> Option<Chunk> {
    for (wanted, taken) in &TAKEN {
        let wanted = chunk(*wanted);
        if pool.take(&wanted) != *taken {
            return Some(wanted);
        }
    }
    None
}

#[test]
fn takes_what_is_free(rt: HostRuntime) -> Result<(), Fail> {
    let mut pool = whole_pool(rt.alloc(), 3, 1)?;
    assert_eq!(rt; take_each(&mut pool), None);
    assert!(rt; pool.alloc(0).is_none());
    Ok(())
}

// How many words a root of order 4 has.
const ROOT: u64 = 2048;

fn words_of(chunk: &Chunk) -> Range<u64> {
    let first = u64::from(chunk.root)
        .wrapping_mul(ROOT)
        .wrapping_add(u64::from(chunk.at));
    let size = [128, 256, 512, 1024, 2048];
    let size = size.get(chunk.order as usize).copied().unwrap_or(0);
    first..first.wrapping_add(size)
}

// The first chunk of an order whose words are all in the set.
fn first_in(free: &BTreeSet<u64>, order: u32) -> Option<Chunk> {
    for root in 0..2 {
        for at in 0..16 {
            let candidate = chunk((root, order, at * 128));
            if candidate.at % (128 << order.min(4)) == 0
                && words_of(&candidate).all(|word| free.contains(&word))
            {
                return Some(candidate);
            }
        }
    }
    None
}

fn insert_words(free: &mut BTreeSet<u64>, words: Range<u64>) -> Result<(), AllocError> {
    for word in words {
        free.insert(word)?;
    }
    Ok(())
}

// Takes the first chunk of an order, and removes its words from the set; returns whether it is the
// first one there.
fn take_first(
    pool: &mut Pool,
    held: &mut Vec<Chunk>,
    free: &mut BTreeSet<u64>,
    order: u32,
) -> Result<bool, AllocError>
    requires { AreHeld pool.old held.old.items }
    ensures { AreHeld pool.new held.new.items }
{
    let first = first_in(free, order);
    let taken = hold(pool, held, order)?;
    if let Some(chunk) = taken {
        for word in words_of(&chunk) {
            free.remove(&word);
        }
    }
    Ok(taken == first)
}

// Allocates 2,000 times, and gives back every third chunk; returns the first call whose result
// differs from what the set of free words says.
fn compare_calls(
    pool: &mut Pool,
    held: &mut Vec<Chunk>,
    free: &mut BTreeSet<u64>,
) -> Result<Option<u32>, AllocError>
    requires { AreHeld pool.old held.old.items }
{
    for call in 0..2000 {
        if !take_first(pool, held, free, (call * 7 + call / 3) % 5)? {
            return Ok(Some(call));
        }
        if call % 3 == 2 && !held.is_empty() {
            let at = call as usize * 5 % held.len();
            insert_words(free, words_of(&give_held(pool, held, at)))?;
        }
    }
    Ok(None)
}

fn compare_all_calls(alloc: Global, pool: &mut Pool) -> Result<Option<u32>, AllocError> {
    let mut free = BTreeSet::new(alloc);
    insert_words(&mut free, 0..2 * ROOT)?;
    compare_calls(pool, &mut Vec::new(alloc), &mut free)
}

#[test]
fn agrees_with_a_set_of_words(rt: HostRuntime) -> Result<(), Fail> {
    let mut pool = whole_pool(rt.alloc(), 4, 2)?;
    assert_eq!(rt; compare_all_calls(rt.alloc(), &mut pool)?, None);
    Ok(())
}

// Whether there are two roots: the first is handed out whole, followed by the front of the second.
fn hand_out_both(pool: &mut Pool) -> bool {
    pool.roots() == 2
        && pool.alloc(3) == Some(chunk((0, 3, 0)))
        && pool.alloc(0) == Some(chunk((1, 0, 0)))
}

// Whichever allocation fails, the pool is unchanged: a repeated call has the same result as if
// nothing had happened.
#[test]
fn a_failed_allocation_leaves_the_pool_as_it_was(rt: HostRuntime) -> Result<(), Fail> {
    let mut pool = whole_pool(rt.alloc(), 3, 2)?;
    assert!(rt; hand_out_both(&mut pool));
    assert!(rt; !add_root(&mut pool)?);
    Ok(())
}

// The worked cases of a region with one root of 1,024 words, and places that are adopted from a
// file. What a test does with a space is in a function that borrows it.
ghost use Rattle.std.specs.Prelude.{◌≡◌, ◌≤◌, ℕ, [], IfOk, OnOk};
ghost use Rattle.std.specs.List.{AllByRecursion};
ghost use Rattle.cm_space.specs.Space.{WaitingChunks};

use crate::samples::{Parts, chunk};
use cm_arena::{Moved, PlaceRefusal};
use cm_pool::{Chunk, Geometry, Place};
use cm_space::Space;
use std::alloc::Global;
use std::process::Abort;
use std::test::Fail;

// A chunk, an offset in it, and a number of words there.
type PlaceParts = (Parts, u32, u32);

fn place_of(parts: PlaceParts) -> Place {
    let (in_chunk, offset, words) = parts;
    Place {
        chunk: chunk(in_chunk),
        offset,
        words,
    }
}

// An empty space. Like all calls below it is tried again if an allocation failed: the space is
// unchanged then, so the result is the expected one.
fn empty(alloc: Global, top: u32, roots: u32) -> Result<Space, Fail>
    ensures { IfOk result (λ space. space.waiting ≡ []) }
{
    let geometry = Geometry::new(top, roots, 256).ok_or("sizes")?;
    match Space::new(alloc, geometry) {
        Ok(space) => Ok(space),
        Err(_) => Ok(Space::new(alloc, geometry)?),
    }
}

fn add_loader(space: &mut Space, loader: u64) -> Result<(), Fail>
    ensures { space.new.waiting ≡ space.old.waiting }
{
    if space.is_known(loader) {
        return Err("known".into());
    }
    if space.add_loader(loader).is_err() {
        space.add_loader(loader)?;
    }
    Ok(())
}

fn place(space: &mut Space, loader: u64, words: u32) -> Result<Result<Place, PlaceRefusal>, Fail>
    requires { 1 ≤ words }
    ensures { space.new.waiting ≡ space.old.waiting }
{
    if !space.is_known(loader) {
        return Err("not known".into());
    }
    match space.place(loader, words) {
        Err(PlaceRefusal::NoMemory) => Ok(space.place(loader, words)),
        answer => Ok(answer),
    }
}

fn is_full(space: &mut Space, loader: u64, words: u32) -> Result<bool, Fail>
    requires { 1 ≤ words }
{
    if !space.is_known(loader) {
        return Err("not known".into());
    }
    Ok(space.is_full(loader, words))
}

fn leave(space: &mut Space, loader: u64, number: u64) -> Result<(), Fail>
    requires { AllByRecursion (λ (w : WaitingChunks). w.number ≤ number) space.old.waiting }
    ensures { OnOk result ((later : ℕ) → number ≤ later
        → AllByRecursion (λ (w : WaitingChunks). w.number ≤ number) space.old.waiting
        → AllByRecursion (λ (w : WaitingChunks). w.number ≤ later) space.new.waiting) }
{
    if !space.is_known(loader) {
        return Err("not known".into());
    }
    if space.leave_all(&[loader], number).is_err() {
        space.leave_all(&[loader], number)?;
    }
    Ok(())
}

// If an allocation failed, some of the roots that an adopted place needs may have been added.
fn adopt(space: &mut Space, loader: u64, place: Place) -> Result<bool, Fail> {
    if !space.is_known(loader) {
        return Err("not known".into());
    }
    match space.adopt(loader, place) {
        Ok(taken) => Ok(taken),
        Err(_) => Ok(space.adopt(loader, place)?),
    }
}

// Loader 1 has the whole root, and leaves it for the number 4; returns whether the loader is no
// longer known.
fn leave_whole(space: &mut Space) -> Result<bool, Fail>
    requires { space.old.waiting ≡ [] }
{
    add_loader(space, 1)?;
    let is_whole = place(space, 1, 1024)? == Ok(place_of(((0, 3, 0), 0, 1024)));
    add_loader(space, 3)?;
    leave(space, 1, 4)?;
    Ok(is_whole && !space.is_known(1) && space.chunks(1).is_none())
}

// A number that is learnt, and where words find a place afterwards: at the front of the root, or
// nowhere.
const LEARNT: [(u64, Result<PlaceParts, PlaceRefusal>); 3] = [
    (0, Err(PlaceRefusal::RegionFull)),
    (3, Err(PlaceRefusal::RegionFull)),
    (4, Ok(((0, 0, 0), 0, 16))),
];

// The first number after which placing 16 words has a different result, or `is_full` doesn't
// predict whether the region is full.
fn learn_and_place(space: &mut Space) -> Result<Option<u64>, Fail> {
    for (number, expected) in &LEARNT {
        space.learn(*number);
        let full = is_full(space, 3, 16)?;
        let is_due = place(space, 3, 16)? == expected.map(place_of);
        if !is_due || full != expected.is_err() {
            return Ok(Some(*number));
        }
    }
    Ok(None)
}

// Whether loader 3 has the front of the only root, and loader 1 nothing.
fn has_front(space: &Space) -> bool {
    let front = chunk((0, 0, 0));
    space.chunks(3).unwrap_or(&[]) == [front].as_slice()
        && space.used_words(3, &front) == Some(16)
        && space.used_words(1, &front).is_none()
        && space.roots() == 1
}

fn leave_and_learn(rt: &impl Abort, space: &mut Space) -> Result<(), Fail>
    requires { space.old.waiting ≡ [] }
{
    assert!(rt; leave_whole(space)?);
    assert_eq!(rt; learn_and_place(space)?, None);
    assert!(rt; has_front(space));
    Ok(())
}

#[test]
fn a_left_chunk_waits_for_its_number(rt: HostRuntime) -> Result<(), Fail> {
    let mut space = empty(rt.alloc(), 3, 1)?;
    leave_and_learn(&rt, &mut space)
}

// Tries again if an allocation failed.
fn tighten(space: &mut Space, loader: u64, number: u64) -> Result<Option<Moved>, Fail>
    requires { space.old.waiting ≡ [] }
{
    if !space.is_known(loader) {
        return Err("not known".into());
    }
    match space.tighten(loader, number) {
        Ok(moved) => Ok(moved),
        Err(_) => Ok(space.tighten(loader, number)?),
    }
}

// Loader 1's second chunk, half of it used, moves into a smaller one, and then nowhere.
fn moves_down_once(space: &mut Space) -> Result<bool, Fail>
    requires { space.old.waiting ≡ [] }
{
    add_loader(space, 1)?;
    let _front = place(space, 1, 16)?;
    let _tail = place(space, 1, 113)?;
    let moved = Moved {
        from: chunk((0, 1, 256)),
        to: chunk((0, 0, 128)),
    };
    let is_moved = tighten(space, 1, 4)? == Some(moved);
    Ok(is_moved && space.is_known(1) && space.is_tight(1))
}

// Whether words of a new loader find a place in the old chunk, after what is learnt.
fn has_left_chunk(space: &mut Space, loader: u64, learnt: u64) -> Result<bool, Fail> {
    space.learn(learnt);
    add_loader(space, loader)?;
    Ok(place(space, loader, 200)? == Ok(place_of(((0, 1, 256), 0, 200))))
}

#[test]
fn a_chunk_that_was_moved_from_waits(rt: HostRuntime) -> Result<(), Fail> {
    let mut space = empty(rt.alloc(), 3, 1)?;
    assert!(rt; moves_down_once(&mut space)?);
    assert!(rt; !has_left_chunk(&mut space, 5, 3)? && has_left_chunk(&mut space, 6, 4)?);
    Ok(())
}

#[test]
fn what_is_learnt_frees_the_older_alone(rt: HostRuntime) -> Result<(), Fail> {
    let mut space = empty(rt.alloc(), 3, 1)?;
    leave_two(&mut space)?;
    learn_each(&rt, &mut space)
}

// Loaders 1 and 2 each leave half of the root, for the numbers 4 and 6.
fn leave_two(space: &mut Space) -> Result<(), Fail>
    requires { space.old.waiting ≡ [] }
{
    add_loader(space, 1)?;
    add_loader(space, 2)?;
    add_loader(space, 3)?;
    let _front = place(space, 1, 512)?;
    let _back = place(space, 2, 512)?;
    leave(space, 1, 4)?;
    leave(space, 2, 6)
}

const FRONT: Chunk = Chunk {
    root: 0,
    order: 2,
    at: 0,
};

const BACK: Chunk = Chunk {
    root: 0,
    order: 2,
    at: 512,
};

// A number that is learnt, and the half of the root that is free afterwards.
const HALVES: [(u64, Option<Chunk>); 3] = [(3, None), (5, Some(FRONT)), (6, Some(BACK))];

fn learn_each(rt: &impl Abort, space: &mut Space) -> Result<(), Fail> {
    for (number, half) in &HALVES {
        space.learn(*number);
        let found = match place(space, 3, 512)? {
            Ok(place) => Some(place.chunk),
            Err(_) => None,
        };
        assert!(rt; found == *half, "at {number}");
    }
    Ok(())
}

#[test]
fn places_that_are_found_again_make_the_same_space(rt: HostRuntime) -> Result<(), Fail> {
    let mut first = empty(rt.alloc(), 5, 2)?;
    let mut second = empty(rt.alloc(), 5, 2)?;
    make_the_same(&rt, &mut first, &mut second)
}

const LOADERS: [u64; 2] = [1, 3];

// A loader, and how many words are placed for it.
const PLACED: [(u64, u32); 8] = [
    (1, 128),
    (3, 4000),
    (1, 200),
    (1, 56),
    (3, 1),
    (1, 500),
    (3, 96),
    (1, 12),
];

// Whether the second space adopts a place only once, and then both spaces use as many words of its
// chunk.
fn adopt_once(first: &Space, second: &mut Space, loader: u64, found: Place) -> Result<bool, Fail> {
    let once = adopt(second, loader, found)? && !adopt(second, loader, found)?;
    let used = first.used_words(loader, &found.chunk);
    Ok(once && second.used_words(loader, &found.chunk) == used)
}

// The second space adopts, once, what the first one places; returns the first place for which it
// doesn't.
fn find_again(first: &mut Space, second: &mut Space) -> Result<Option<Place>, Fail> {
    for loader in &LOADERS {
        add_loader(first, *loader)?;
        add_loader(second, *loader)?;
    }
    for (loader, words) in &PLACED {
        let Ok(found) = place(first, *loader, *words)? else {
            return Err("refused".into());
        };
        if !adopt_once(first, second, *loader, found)? {
            return Ok(Some(found));
        }
    }
    Ok(None)
}

// Whether the roots and each loader's chunks are the same.
fn have_the_same(first: &Space, second: &Space) -> bool {
    let mut equal = second.roots() == first.roots();
    for loader in &LOADERS {
        let chunks = first.chunks(*loader).unwrap_or(&[]);
        equal = second.chunks(*loader).unwrap_or(&[]) == chunks && equal;
    }
    equal
}

fn make_the_same(rt: &impl Abort, first: &mut Space, second: &mut Space) -> Result<(), Fail> {
    assert_eq!(rt; find_again(first, second)?, None);
    assert!(rt; have_the_same(first, second));
    assert_eq!(rt; go_on(first, second)?, None);
    Ok(())
}

// Numbers of words that are placed in both.
const GOING_ON: [u32; 7] = [1, 128, 129, 600, 1, 2000, 40];

// The same words are free in both spaces; returns the first number of words with different results.
fn go_on(first: &mut Space, second: &mut Space) -> Result<Option<u32>, Fail> {
    for words in &GOING_ON {
        if place(second, 3, *words)? != place(first, 3, *words)? {
            return Ok(Some(*words));
        }
    }
    Ok(None)
}

#[test]
fn adopts_the_next_place_of_a_free_chunk(rt: HostRuntime) -> Result<(), Fail> {
    let mut space = empty(rt.alloc(), 3, 3)?;
    adopt_next(&rt, &mut space)
}

fn adopt_next(rt: &impl Abort, space: &mut Space) -> Result<(), Fail> {
    assert_eq!(rt; refuse_before_roots(space)?, None);
    assert_eq!(rt; adopt_or_refuse(space)?, None);
    assert!(rt; has_adopted(space));
    Ok(())
}

// Places that aren't valid, in a root that isn't present.
const REFUSED: [PlaceParts; 7] = [
    ((2, 1, 1), 0, 256),
    ((2, 4, 0), 0, 256),
    ((3, 1, 0), 0, 256),
    ((2, 1, 1024), 0, 256),
    ((2, 1, 0), 0, 257),
    ((2, 1, 0), 0, 0),
    ((2, 1, 0), 1, 255),
];

// No root is added for a place that is rejected; returns the first one that isn't rejected, or for
// which a root is added.
fn refuse_before_roots(space: &mut Space) -> Result<Option<Place>, Fail> {
    add_loader(space, 1)?;
    add_loader(space, 2)?;
    for parts in &REFUSED {
        let place = place_of(*parts);
        if adopt(space, 1, place)? || space.roots() != 0 {
            return Ok(Some(place));
        }
    }
    Ok(None)
}

// The loader, the place, whether it is adopted, and how many roots are present afterwards.
const ADOPTED: [(u64, PlaceParts, bool, u32); 11] = [
    (1, ((1, 1, 0), 0, 100), true, 2),
    (2, ((1, 1, 0), 0, 100), false, 2),
    (2, ((1, 1, 0), 100, 156), false, 2),
    (2, ((1, 0, 128), 0, 100), false, 2),
    (2, ((1, 2, 0), 0, 100), false, 2),
    (1, ((1, 1, 0), 100, 156), true, 2),
    (1, ((1, 1, 0), 0, 100), false, 2),
    (2, ((1, 1, 256), 0, 1), true, 2),
    (2, ((2, 3, 0), 0, 1024), true, 3),
    (2, ((1, 1, 256), 1, 1), false, 3),
    (2, ((0, 3, 0), 0, 1), true, 3),
];

// The first loader and place with a different result.
fn adopt_or_refuse(space: &mut Space) -> Result<Option<(u64, Place)>, Fail> {
    for (loader, parts, taken, roots) in &ADOPTED {
        let place = place_of(*parts);
        if adopt(space, *loader, place)? != *taken || space.roots() != *roots {
            return Ok(Some((*loader, place)));
        }
    }
    Ok(None)
}

// Whether loader 1 has the whole of its only chunk.
fn has_adopted(space: &Space) -> bool {
    let only = chunk((1, 1, 0));
    space.chunks(1).unwrap_or(&[]) == [only].as_slice() && space.used_words(1, &only) == Some(256)
}

// An arena.
ghost use Rattle.std.specs.Prelude.{List, ◌≡◌, ◌<◌, ◌≤◌, ◌↔◌, [], ◌∷◌, ◌++◌, length, vec_len};
ghost use Rattle.std.specs.Prelude.{vec_capacity, IsTrue, IfOk, IfSome, IfNone, OnSome, OnErr};
ghost use Rattle.std.specs.Prelude.{IsErrOf, MatchResult, if◌then◌else◌, Some};
ghost use Rattle.std.specs.Option.{option_map};
ghost use Rattle.cm_pool.specs.Chunks.{chunk_size};
ghost use Rattle.cm_arena.specs.Chains.{used_of, last_of, chain_of, IsArena};
ghost use Rattle.cm_arena.specs.Placing.{IsOnTop, HasRoom, next_offset as next_offset_of};

use crate::better::take_better;
use crate::fetch::{fetch, has_free, order_for};
use crate::refusal::PlaceRefusal;
use cm_pool::{Chunk, Place, Pool};
use std::alloc::{AllocError, Global};
use std::marker::Model;

/// The chunks of one loader, in the order in which they were taken, each with how many words at its
/// front are used.
///
/// Contracts see an arena as that chain. Only the last chunk is filled further.
#[derive(Drop)]
pub struct Arena {
    chunks: Vec<Chunk>,
    used: Vec<u32>,
}

/// Where an arena's used words moved: from its last chunk, which no longer belongs to the arena, to
/// another, which is now the last one.
#[derive(Clone, Copy, Debug, PartialEq, Eq)]
pub struct Moved {
    pub from: Chunk,
    pub to: Chunk,
}

impl Model for Arena {
    ghost use Rattle.std.specs.Prelude.{List};
    ghost use Rattle.cm_arena.specs.Chains.{Filled, chain_of, chain_code, IsArena};

    ghost Value = { List Filled };

    ghost coded = { chain_code };

    ghost view = { λ a. chain_of a.chunks.items a.used.items };

    ghost invariant = { λ a. IsArena a.chunks.items a.used.items };
}

impl Arena {
    ghost use Rattle.cm_arena.specs.Chains.{chain_chunks, used_of};
    ghost use Rattle.cm_pool.specs.Places.{IsInside};
    ghost use Rattle.cm_arena.specs.Placing.{Places, IsFull, HasRoom, IsNextPlace, with_place};
    ghost use Rattle.cm_pool.specs.declared.chunk.Chunk.{Chunk};
    ghost use Rattle.cm_pool.specs.Lists.{Among};
    ghost use Rattle.cm_pool.specs.Held.{AreHeld, NoneIsLost};
    ghost use Rattle.cm_arena.specs.Tightening.{HoldsLast, IsTight, Tightens, with_last};

    /// An arena with no chunk.
    pub fn new(alloc: Global) -> Arena
        ensures { result ≡ [] }
    {
        Arena {
            chunks: Vec::new(alloc),
            used: Vec::new(alloc),
        }
    }

    /// The chunks, in order.
    pub fn chunks(&self) -> &[Chunk]
        ensures { result.now ≡ chain_chunks self.now }
    {
        &self.chunks
    }

    /// How many words at the front of a chunk are used, if the arena has the chunk.
    pub fn used_words(&self, chunk: &Chunk) -> Option<u32>
        ensures { result ≡ used_of self.now chunk.now }
    {
        used_words_in(&self.chunks, &self.used, chunk)
    }

    /// Finds a place for the words of a record: after the used words of the last chunk if that has
    /// room, else at the front of a new one. The new chunk is of the order that the words need or,
    /// in a longer chain, of a larger one, up to order 4. If no chunk of the larger order is free,
    /// it is of the order needed; and if none of that order is free either, it comes from a new
    /// root.
    ///
    /// Fails with `RecordTooLong` if a root chunk doesn't hold the words; else with `RegionFull` if
    /// the last chunk has no room, no chunk of the order needed is free, and all roots are present.
    /// `NoMemory` is returned only if neither applies and the last chunk has no room. After an
    /// error, arena and pool are unchanged.
    pub fn place(&mut self, words: u32, pool: &mut Pool) -> Result<Place, PlaceRefusal>
        requires { 1 ≤ words }
        ensures ok { IfOk result (λ place. Places self.old pool.old words place self.new pool.new) }
        // The words are inside a chunk of this arena. The chunks of the pool that the arena and
        // others hold share no word, and no word of the pool is lost.
        ensures inside { IfOk result (λ place. IsInside place
            × Among place.chunk (chain_chunks self.new)) }
        ensures alone { (others : List Chunk) → AreHeld pool.old (chain_chunks self.old ++ others)
            → AreHeld pool.new (chain_chunks self.new ++ others) }
        ensures none_lost { (others : List Chunk)
            → NoneIsLost pool.old (chain_chunks self.old ++ others)
            → NoneIsLost pool.new (chain_chunks self.new ++ others) }

        ensures too_long { IsErrOf result PlaceRefusal.RecordTooLong
            ↔ (chunk_size pool.old.geometry.top < words) }
        ensures full { IsErrOf result PlaceRefusal.RegionFull ↔ IsFull self.old pool.old words }
        ensures memory { IsErrOf result PlaceRefusal.NoMemory → ¬ HasRoom self.old words }
        ensures err { OnErr result ((self.new ≡ self.old) × (pool.new ≡ pool.old)) }
    {
        let geometry = pool.geometry();
        if words > geometry.root_words() {
            return Err(PlaceRefusal::RecordTooLong);
        }
        if let Some(place) = place_on_top(&self.chunks, &mut self.used, words) {
            return Ok(place);
        }
        if !reserve_one(&mut self.chunks, &mut self.used) {
            return Err(if self.is_full(words, pool) {
                PlaceRefusal::RegionFull
            } else {
                PlaceRefusal::NoMemory
            });
        }
        let need = order_for(words);
        let wanted = need.max((self.chunks.len().min(4) as u32).min(geometry.top()));
        let chunk = fetch(pool, wanted, need)?;
        append(&mut self.chunks, &mut self.used, chunk, words);
        Ok(Place {
            chunk,
            offset: 0,
            words,
        })
    }

    /// Whether [`place`](Arena::place) fails with `RegionFull` for `words` words. Doesn't allocate,
    /// and leaves the pool unchanged.
    pub fn is_full(&self, words: u32, pool: &mut Pool) -> bool
        requires { 1 ≤ words }
        ensures full { IsTrue result ↔ IsFull self.now pool.old words }
        ensures left { pool.new ≡ pool.old }
    {
        let geometry = pool.geometry();
        if words > geometry.root_words() || pool.roots() < geometry.roots() {
            return false;
        }
        !has_room(&self.chunks, &self.used, words) && !has_free(pool, order_for(words))
    }

    /// Adopts a place that was found in a file. It has to be the next one: inside its chunk, and
    /// after the used words of the last chunk, or at the front of another chunk. Returns false, and
    /// changes nothing, if it isn't.
    ///
    /// The caller has to ensure, as by [`Pool::take`], that another chunk shares no word with
    /// chunks in use.
    pub fn adopt(&mut self, place: Place) -> Result<bool, AllocError>
        ensures next { IfOk result (λ taken. IsTrue taken ↔ IsNextPlace self.old place) }
        ensures left { MatchResult result
            (λ taken. self.new ≡ (if taken then with_place self.old place else self.old))
            (λ _. self.new ≡ self.old) }
        ensures memory { OnErr result (IsNextPlace self.old place) }
    {
        let offset = next_offset(&self.chunks, &self.used, &place.chunk);
        if place.offset != offset || !place.is_inside() {
            return Ok(false);
        }
        if offset > 0 {
            let last = self.used.len() - 1;
            self.used[last] = offset + place.words;
            return Ok(true);
        }
        if !reserve_one(&mut self.chunks, &mut self.used) {
            return Err(AllocError);
        }
        append(&mut self.chunks, &mut self.used, place.chunk, place.words);
        Ok(true)
    }

    /// Replaces the last chunk by another, at whose front as many words are then used, and returns
    /// the old last one. Doesn't allocate.
    pub fn swap_last(&mut self, chunk: Chunk) -> Chunk
        requires { HoldsLast self.old chunk }
        ensures last { option_map (λ f. f.chunk) (last_of self.old) ≡ Some result }
        ensures swapped { self.new ≡ with_last self.old chunk }
    {
        let last = self.chunks.len() - 1;
        let from = self.chunks[last];
        self.chunks[last] = chunk;
        from
    }

    /// Moves the used words of the last chunk to the first free chunk of the least order that holds
    /// them, at the same offsets, if that chunk is smaller or is before the last one. Returns
    /// `None`, and changes nothing, if there is no last chunk, no such free chunk, or if it is
    /// neither smaller nor before. No root is added. The old chunk then belongs to the caller.
    /// Doesn't allocate.
    pub fn tighten(&mut self, pool: &mut Pool) -> Option<Moved>
        ensures some { IfSome result
            (λ m. Tightens self.old pool.old m.from m.to self.new pool.new) }
        ensures none { IfNone result (IsTight self.old pool.old
            × ((self.new ≡ self.old) × (pool.new ≡ pool.old))) }
        // The chunks of the arena, the one it left, and those that others hold of the pool share no
        // word, and no word of the pool is lost.
        ensures alone { IfSome result (λ m. (others : List Chunk)
            → AreHeld pool.old (chain_chunks self.old ++ others)
            → AreHeld pool.new (chain_chunks self.new ++ m.from ∷ others)) }
        ensures none_lost { IfSome result (λ m. (others : List Chunk)
            → NoneIsLost pool.old (chain_chunks self.old ++ others)
            → NoneIsLost pool.new (chain_chunks self.new ++ m.from ∷ others)) }
    {
        let last = self.chunks.len().checked_sub(1)?;
        let need = order_for(self.used[last]);
        let to = take_better(pool, need, &self.chunks[last])?;
        let from = self.swap_last(to);
        Some(Moved { from, to })
    }

    /// Whether [`tighten`](Arena::tighten) returns `None`. Doesn't allocate, and leaves the pool
    /// unchanged.
    pub fn is_tight(&self, pool: &mut Pool) -> bool
        ensures tight { IsTrue result ↔ IsTight self.now pool.old }
        ensures left { pool.new ≡ pool.old }
    {
        let Some(last) = self.chunks.len().checked_sub(1) else {
            return true;
        };
        let need = order_for(self.used[last]);
        let Some(found) = take_better(pool, need, &self.chunks[last]) else {
            return true;
        };
        pool.give(found);
        false
    }

    /// Ends the arena, and returns its chunks in order.
    pub fn release(self) -> Vec<Chunk>
        ensures { result.items ≡ chain_chunks self }
    {
        let Arena { chunks, used: _ } = self;
        chunks
    }
}

// How many words of a chunk are used, from the two parallel lists of chunks and of used words.
fn used_words_in(chunks: &[Chunk], used: &[u32], chunk: &Chunk) -> Option<u32>
    requires { length chunks.now ≡ length used.now }
    ensures { result ≡ used_of (chain_of chunks.now used.now) chunk.now }
{
    for (at, mine) in chunks.iter().enumerate() {
        if mine == chunk {
            return Some(used[at]);
        }
    }
    None
}

// Whether the last chunk has room for `words` more words.
fn has_room(chunks: &[Chunk], used: &[u32], words: u32) -> bool
    requires { IsArena chunks.now used.now }
    ensures { IsTrue result ↔ HasRoom (chain_of chunks.now used.now) words }
{
    let Some(last) = chunks.len().checked_sub(1) else {
        return false;
    };
    words <= chunks[last].size() - used[last]
}

// Uses `words` more words of the last chunk, if it has room for them.
fn place_on_top(chunks: &[Chunk], used: &mut Vec<u32>, words: u32) -> Option<Place>
    requires { IsArena chunks.now used.old.items }
    ensures some { IfSome result
        (λ place. IsOnTop (chain_of chunks.now used.old.items) words place
        (chain_of chunks.now used.new.items)) }
    ensures kept { OnSome result (1 ≤ words → IsArena chunks.now used.new.items) }
    ensures none { IfNone result ((¬ HasRoom (chain_of chunks.now used.old.items) words)
        × (used.new.items ≡ used.old.items)) }
{
    let last = chunks.len().checked_sub(1)?;
    let chunk = chunks[last];
    let offset = used[last];
    if words > chunk.size() - offset {
        return None;
    }
    used[last] = offset + words;
    Some(Place {
        chunk,
        offset,
        words,
    })
}

// Makes room for one more chunk, and returns whether there is.
fn reserve_one(chunks: &mut Vec<Chunk>, used: &mut Vec<u32>) -> bool
    ensures chunks { chunks.new.items ≡ chunks.old.items }
    ensures used { used.new.items ≡ used.old.items }
    ensures chunk_room { IsTrue result → vec_len chunks.new < vec_capacity chunks.new }
    ensures used_room { IsTrue result → vec_len used.new < vec_capacity used.new }
{
    chunks.reserve(1).is_ok() && used.reserve(1).is_ok()
}

// Appends one more chunk, if there is room for it.
fn append(chunks: &mut Vec<Chunk>, used: &mut Vec<u32>, chunk: Chunk, words: u32)
    requires chunk_room { vec_len chunks.old < vec_capacity chunks.old }
    requires used_room { vec_len used.old < vec_capacity used.old }
    ensures chunks { chunks.new.items ≡ chunks.old.items ++ chunk ∷ [] }
    ensures used { used.new.items ≡ used.old.items ++ words ∷ [] }
{
    chunks.push(chunk).unwrap();
    used.push(words).unwrap();
}

// Where the next words in a chunk go: after the used ones of the last chunk, or at the front of
// another chunk.
fn next_offset(chunks: &[Chunk], used: &[u32], chunk: &Chunk) -> u32
    requires { length chunks.now ≡ length used.now }
    ensures { result ≡ next_offset_of (chain_of chunks.now used.now) chunk.now }
{
    let Some(last) = chunks.len().checked_sub(1) else {
        return 0;
    };
    if chunks[last] == *chunk {
        used[last]
    } else {
        0
    }
}

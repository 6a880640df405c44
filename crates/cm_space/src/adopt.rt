// How an arena adopts a place that was found in a file.
ghost use Rattle.std.specs.Prelude.{◌≡◌, ◌<◌, ◌≤◌, ◌↔◌, ◌++◌, List, IsTrue, IfOk, OnOk, OnErr};
ghost use Rattle.std.specs.Prelude.{MatchResult, if◌then◌else◌};
ghost use Rattle.cm_pool.specs.declared.chunk.Chunk.{Chunk};
ghost use Rattle.cm_pool.specs.FreeSpace.{IsFreeChunk, without};
ghost use Rattle.cm_pool.specs.Held.{AreHeld};
ghost use Rattle.cm_pool.specs.Places.{IsInside};
ghost use Rattle.cm_arena.specs.Chains.{chain_chunks};
ghost use Rattle.cm_arena.specs.Placing.{with_place};
ghost use Rattle.cm_space.specs.Adopting.{reaching, pool_after, IsOnTheWay, IsAdoptable};

use cm_arena::Arena;
use cm_pool::{Place, Pool};
use std::alloc::AllocError;

/// Adopts a place, and takes its chunk if the place is at the front of one.
pub fn adopt_place(arena: &mut Arena, pool: &mut Pool, place: Place) -> Result<bool, AllocError>
    requires { (others : List Chunk) × AreHeld pool.old (chain_chunks arena.old ++ others) }
    ensures next { IfOk result (λ taken. IsTrue taken ↔ IsAdoptable arena.old pool.old place) }
    ensures arena { MatchResult result
        (λ taken. arena.new ≡ (if taken then with_place arena.old place else arena.old))
        (λ _. arena.new ≡ arena.old) }
    ensures pool { MatchResult result
        (λ taken. pool.new ≡ (if taken then pool_after pool.old place else pool.old))
        (λ _. IsOnTheWay pool.old place.chunk.root pool.new) }
    ensures memory { OnErr result (IsAdoptable arena.old pool.old place) }
{
    if place.offset > 0 {
        return arena.adopt(place);
    }
    if !place.is_inside() || !place.chunk.is_within(pool.geometry()) {
        return Ok(false);
    }
    add_roots(pool, place.chunk.root)?;
    adopt_front(arena, pool, place)
}

// Adds roots until this one is present.
fn add_roots(pool: &mut Pool, root: u32) -> Result<(), AllocError>
    requires { root < pool.old.geometry.roots }
    ensures ok { OnOk result (pool.new ≡ reaching pool.old root) }
    ensures memory { OnErr result (pool.old.roots ≤ root) }
    ensures err { OnErr result (IsOnTheWay pool.old root pool.new) }
{
    while pool.roots() <= root {
        let _added = pool.add_root()?; // there is room for it
    }
    Ok(())
}

// Adopts a place at the front of a chunk, if that chunk is free.
fn adopt_front(arena: &mut Arena, pool: &mut Pool, place: Place) -> Result<bool, AllocError>
    requires held { (others : List Chunk) × AreHeld pool.old (chain_chunks arena.old ++ others) }
    requires inside { IsInside place }
    requires front { place.offset ≡ 0 }
    ensures free { IfOk result (λ taken. IsTrue taken ↔ IsFreeChunk pool.old place.chunk) }
    ensures arena { MatchResult result
        (λ taken. arena.new ≡ (if taken then with_place arena.old place else arena.old))
        (λ _. arena.new ≡ arena.old) }
    ensures pool { MatchResult result
        (λ taken. pool.new ≡ (if taken then without pool.old place.chunk else pool.old))
        (λ _. pool.new ≡ pool.old) }
    ensures memory { OnErr result (IsFreeChunk pool.old place.chunk) }
{
    if !pool.take(&place.chunk) {
        return Ok(false);
    }
    if let Err(error) = arena.adopt(place) {
        pool.give(place.chunk);
        return Err(error);
    }
    Ok(true)
}

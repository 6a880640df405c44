// Which chunk an arena takes from a pool.
ghost use Rattle.std.specs.Prelude.{◌≡◌, ◌≢◌, ℕ, ◌≤◌, ◌⊎◌, ◌↔◌, IsTrue, IfOk, IfSome, IfNone};
ghost use Rattle.std.specs.Prelude.{OnErr, IsErrOf};
ghost use Rattle.cm_pool.specs.Chunks.{chunk_size};
ghost use Rattle.cm_pool.specs.FreeSpace.{HasFree};
ghost use Rattle.cm_arena.specs.Placing.{IsNeed, IsWanted, IsNeeded, Fetches};

use crate::refusal::PlaceRefusal;
use cm_pool::{Chunk, Pool, chunk_words};

/// The least order whose chunks hold `words` words.
pub fn order_for(words: u32) -> u32
    requires { words ≤ chunk_size 12 }
    ensures need { IsNeed words result }
    ensures small { result ≤ 12 }
{
    let mut order = 0;
    while chunk_words(order) < words {
        order += 1;
    }
    order
}

/// Whether a chunk of this order is free: takes one, and gives it back.
pub fn has_free(pool: &mut Pool, order: u32) -> bool
    requires { order ≤ pool.old.geometry.top }
    ensures free { IsTrue result ↔ HasFree pool.old order }
    ensures left { pool.new ≡ pool.old }
{
    let Some(found) = pool.alloc(order) else {
        return false;
    };
    pool.give(found);
    true
}

// A chunk of the order wanted, or else of the order needed.
fn first_of(pool: &mut Pool, wanted: u32, need: u32) -> Option<Chunk>
    requires needed { need ≤ wanted }
    requires wanted { wanted ≤ pool.old.geometry.top }
    ensures some { IfSome result (λ chunk. IsWanted pool.old wanted chunk pool.new
        ⊎ IsNeeded pool.old wanted need chunk pool.new) }
    ensures none { IfNone result ((¬ HasFree pool.old wanted) × (¬ HasFree pool.old need)
        × (pool.new ≡ pool.old)) }
{
    if let Some(chunk) = pool.alloc(wanted) {
        return Some(chunk);
    }
    pool.alloc(need)
}

/// A chunk of the order wanted, else one of the order needed, else one of the order wanted from a
/// new root.
pub fn fetch(pool: &mut Pool, wanted: u32, need: u32) -> Result<Chunk, PlaceRefusal>
    requires needed { need ≤ wanted }
    requires wanted { wanted ≤ pool.old.geometry.top }
    ensures ok { IfOk result (λ chunk. Fetches pool.old wanted need chunk pool.new) }
    ensures full { IsErrOf result PlaceRefusal.RegionFull ↔ ((¬ HasFree pool.old need)
        × (pool.old.geometry.roots ≤ pool.old.roots)) }
    ensures not_long { result ≢ Err PlaceRefusal.RecordTooLong }
    ensures err { OnErr result (pool.new ≡ pool.old) }
{
    if let Some(chunk) = first_of(pool, wanted, need) {
        return Ok(chunk);
    }
    match pool.add_root() {
        Ok(true) => Ok(pool.alloc(wanted).unwrap()),
        Ok(false) => Err(PlaceRefusal::RegionFull),
        Err(_) => Err(PlaceRefusal::NoMemory),
    }
}

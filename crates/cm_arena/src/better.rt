// A chunk that an arena's last one is exchanged for.
ghost use Rattle.std.specs.Prelude.{◌≡◌, ◌↔◌, IsTrue, IfSome, IfNone};
ghost use Rattle.cm_pool.specs.FreeSpace.{IsFirstFree, without};
ghost use Rattle.cm_pool.specs.declared.chunk.Chunk.{Chunk};
ghost use Rattle.cm_arena.specs.Tightening.{IsBetter};

use cm_pool::{Chunk, Pool};

// Whether a chunk is smaller than another, or is before it.
fn is_better(chunk: &Chunk, than: &Chunk) -> bool
    ensures { IsTrue result ↔ IsBetter chunk.now than.now }
{
    chunk.order < than.order
        || chunk.root < than.root
        || (chunk.root == than.root && chunk.at < than.at)
}

/// Takes the first free chunk of an order, if it is better than this one.
pub fn take_better(pool: &mut Pool, order: u32, than: &Chunk) -> Option<Chunk>
    ensures some { IfSome result (λ to. IsFirstFree pool.old order to × IsBetter to than.now
        × (pool.new ≡ without pool.old to)) }
    ensures none { IfNone result (((to : Chunk) → IsFirstFree pool.old order to
        → ¬ IsBetter to than.now) × (pool.new ≡ pool.old)) }
{
    if order > pool.geometry().top() {
        return None;
    }
    let found = pool.alloc(order)?;
    if is_better(&found, than) {
        return Some(found);
    }
    pool.give(found);
    None
}

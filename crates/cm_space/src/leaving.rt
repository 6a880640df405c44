// Removing loaders' arenas, when there is room for their chunks to wait.
ghost use Rattle.std.specs.Prelude.{◌≡◌, ◌≢◌, ◌≤◌, ◌<◌, ◌+◌, [], ◌∷◌, length};
ghost use Rattle.std.specs.List.{AllByRecursion};
ghost use Rattle.std.specs.VecDeque.{deque_len, deque_capacity};
ghost use Rattle.cm_pool.specs.Lists.{Pairwise};
ghost use Rattle.cm_space.specs.Space.{HasArena, AreLeft};

use crate::waiting::Waiting;
use cm_arena::Arena;
use std::collections::{BTreeMap, VecDeque};

// Removes a loader's arena: its chunks wait for the number, after those that wait already. There
// is room for them.
fn leave_one(
    arenas: &mut BTreeMap<u64, Arena>,
    waiting: &mut VecDeque<Waiting>,
    loader: u64,
    number: u64,
)
    requires known { HasArena arenas.old.entries loader }
    requires room { deque_len waiting.old < deque_capacity waiting.old }
    ensures left { AreLeft arenas.old.entries waiting.old.items number (loader ∷ [])
        arenas.new.entries waiting.new.items }
    ensures len { deque_len waiting.new ≡ deque_len waiting.old + 1 }
    ensures capacity { deque_capacity waiting.new ≡ deque_capacity waiting.old }
{
    let arena = arenas.remove(&loader).unwrap();
    let chunks = arena.release();
    waiting.push_back_reserved(Waiting { number, chunks });
}

/// Removes the arenas of several loaders, one after another.
pub fn leave_each(
    arenas: &mut BTreeMap<u64, Arena>,
    waiting: &mut VecDeque<Waiting>,
    loaders: &[u64],
    number: u64,
)
    requires known { AllByRecursion (HasArena arenas.old.entries) loaders.now }
    requires differ { Pairwise (λ u v. u ≢ v) loaders.now }
    requires room { deque_len waiting.old + length loaders.now ≤ deque_capacity waiting.old }
    ensures { AreLeft arenas.old.entries waiting.old.items number loaders.now
        arenas.new.entries waiting.new.items }
{
    for loader in loaders {
        leave_one(arenas, waiting, *loader, number);
    }
}

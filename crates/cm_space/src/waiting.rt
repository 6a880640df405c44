// Chunks that wait for a number.
ghost use Rattle.std.specs.Prelude.{◌≡◌, ◌≤◌, ◌<◌, [], ◌∷◌, ◌++◌, IfSome, IfNone};
ghost use Rattle.std.specs.Prelude.{vec_len, vec_capacity};
ghost use Rattle.std.specs.VecDeque.{deque_len, deque_capacity};
ghost use Rattle.cm_pool.specs.Held.{AreHeld};
ghost use Rattle.cm_pool.specs.Lists.{Pairwise};
ghost use Rattle.cm_space.specs.Space.{WaitingChunks, waits_in, waiting_chunks, with_chunks, due};
ghost use Rattle.cm_space.specs.Space.{not_due, IsOldestDue, IsLater};

use cm_pool::{Chunk, Pool};
use std::alloc::Global;
use std::collections::VecDeque;

/// The chunks that a command left, and its number.
#[derive(Drop)]
pub struct Waiting {
    pub number: u64,
    pub chunks: Vec<Chunk>,
}

/// Makes room for one chunk, and for it to wait after those that wait already. `None` if an
/// allocation failed.
pub fn reserve_left(alloc: Global, waiting: &mut VecDeque<Waiting>) -> Option<Vec<Chunk>>
    ensures items { waiting.new.items ≡ waiting.old.items }
    ensures empty { IfSome result (λ left. left.items ≡ []) }
    ensures room { IfSome result (λ left. vec_len left < vec_capacity left) }
    ensures behind { IfSome result (λ left. deque_len waiting.new < deque_capacity waiting.new) }
{
    let left = Vec::with_capacity(alloc, 1).ok()?;
    waiting.reserve(1).ok()?;
    Some(left)
}

/// Lets a chunk wait for a number, after those that wait already, in a list that has room for it.
pub fn wait_behind(waiting: &mut VecDeque<Waiting>, mut left: Vec<Chunk>, chunk: Chunk, number: u64)
    requires empty { left.items ≡ [] }
    requires room { vec_len left < vec_capacity left }
    requires behind { deque_len waiting.old < deque_capacity waiting.old }
    ensures { waits_in waiting.new.items ≡ waits_in waiting.old.items
        ++ record { number = number; chunks = chunk ∷ [] } ∷ [] }
{
    left.push(chunk).unwrap();
    waiting.push_back_reserved(Waiting {
        number,
        chunks: left,
    });
}

/// Frees the chunks that wait for at most this number.
pub fn free_due(pool: &mut Pool, waiting: &mut VecDeque<Waiting>, number: u64)
    requires held { AreHeld pool.old (waiting_chunks (waits_in waiting.old.items)) }
    requires rises { Pairwise (λ (v w : WaitingChunks). v.number ≤ w.number)
        (waits_in waiting.old.items) }
    ensures pool { pool.new
        ≡ with_chunks pool.old (waiting_chunks (due number (waits_in waiting.old.items))) }
    ensures waiting { waits_in waiting.new.items ≡ not_due number (waits_in waiting.old.items) }
{
    while let Some(chunks) = take_due(waiting, number) {
        give_all(pool, &chunks);
    }
}

// Takes out the oldest chunks, if they wait for at most this number.
fn take_due(waiting: &mut VecDeque<Waiting>, number: u64) -> Option<Vec<Chunk>>
    ensures some { IfSome result (λ chunks. IsOldestDue number
        (waits_in waiting.old.items) chunks.items (waits_in waiting.new.items)) }
    ensures none { IfNone result (waiting.new.items ≡ waiting.old.items) }
    ensures later { IfNone result (IsLater number (waits_in waiting.old.items)) }
{
    if waiting.front()?.number > number {
        return None;
    }
    let oldest = waiting.pop_front()?;
    Some(oldest.chunks)
}

// Frees held chunks.
fn give_all(pool: &mut Pool, chunks: &[Chunk])
    requires { AreHeld pool.old chunks.now }
    ensures { pool.new ≡ with_chunks pool.old chunks.now }
{
    for chunk in chunks {
        pool.give(*chunk);
    }
}

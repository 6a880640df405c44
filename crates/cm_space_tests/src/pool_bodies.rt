// The pool with rows of bits beside a plain one: equal results of equal calls.
ghost use Rattle.std.specs.Prelude.{◌≤◌};

use crate::held_chunks::{give_held, hold};
use crate::plain_pool::PlainPool;
use crate::samples::{HANDED_OUT, chunk};
use cm_pool::{Chunk, Geometry, Pool};
use std::alloc::{AllocError, Global};
use std::marker::Model;
use std::test::Fail;

// Both bodies, and what was taken from the product's.
#[derive(Drop)]
struct Both {
    pool: Pool,
    held: Vec<Chunk>,
    plain: PlainPool,
}

// Seen as how many chunks are held.
impl Model for Both {
    ghost use Rattle.std.specs.Prelude.{ℕ, vec_len};
    ghost use Rattle.cm_pool.specs.Held.{AreHeld};

    ghost Value = { ℕ };

    ghost view = { λ b. vec_len b.held };

    ghost invariant = { λ b. AreHeld b.pool b.held.items };
}

// Adds this many roots to each pool.
fn add_roots(pool: &mut Pool, plain: &mut PlainPool, roots: u32) -> Result<(), AllocError> {
    for _ in 0..roots {
        pool.add_root()?;
        plain.add_root()?;
    }
    Ok(())
}

impl Both {
    // Both pools with all their roots.
    fn whole(alloc: Global, top: u32, roots: u32) -> Result<Both, Fail> {
        let geometry = Geometry::new(top, roots, 256).ok_or("sizes")?;
        let mut pool = Pool::new(alloc, geometry)?;
        let mut plain = PlainPool::new(alloc, top);
        add_roots(&mut pool, &mut plain, roots)?;
        let held = Vec::new(alloc);
        Ok(Both { pool, held, plain })
    }

    // What each pool takes for the order.
    fn hold(&mut self, order: u32) -> Result<(Option<Chunk>, Option<Chunk>), AllocError> {
        let taken = hold(&mut self.pool, &mut self.held, order)?;
        Ok((taken, self.plain.alloc(order)))
    }

    // Gives the chunk at a place back to both pools, if there is one.
    fn give(&mut self, at: usize) -> Option<Chunk> {
        if at >= self.held.len() {
            return None;
        }
        let given = give_held(&mut self.pool, &mut self.held, at);
        self.plain.give(given);
        Some(given)
    }
}

// Whether both hand out the expected chunks, give the three back alike, and then hand out the whole
// root.
fn hand_out(both: &mut Both) -> Result<bool, AllocError> {
    let mut equal = true;
    for (order, first) in &HANDED_OUT {
        equal = both.hold(*order)? == (*first, *first) && equal;
    }
    let whole = Some(chunk((0, 3, 0)));
    for _ in 0..3 {
        equal = both.give(0).is_some() && equal;
    }
    Ok(equal && both.hold(3)? == (whole, whole))
}

#[test]
fn both_hand_out_the_first_chunk(rt: HostRuntime) -> Result<(), Fail> {
    let mut both = Both::whole(rt.alloc(), 3, 1)?;
    assert!(rt; hand_out(&mut both)?);
    Ok(())
}

// Allocates 2,000 times, and gives back a chunk after every third; returns for how many of these
// calls both have the same result.
fn compare_calls(both: &mut Both, top: u32) -> Result<u32, Fail>
    requires { top ≤ 12 }
{
    let mut equal = 0;
    for call in 0..2000 {
        let (taken, plain) = both.hold((call * 7 + call / 3) % (top + 1))?;
        equal = u32::from(taken == plain).saturating_add(equal);
        let count = both.held.len();
        if call % 3 == 2 && count > 0 {
            both.give(call as usize * 5 % count).ok_or("held")?;
        }
    }
    Ok(equal)
}

fn equal_answers(alloc: Global, top: u32, roots: u32) -> Result<u32, Fail>
    requires { top ≤ 12 }
{
    let mut both = Both::whole(alloc, top, roots)?;
    compare_calls(&mut both, top)
}

// In the second region rows are longer than a word, and one of them than 64.
#[test]
fn both_answer_alike(rt: HostRuntime) -> Result<(), Fail> {
    assert_eq!(rt; equal_answers(rt.alloc(), 4, 2)?, 2000);
    assert_eq!(rt; equal_answers(rt.alloc(), 12, 2)?, 2000);
    Ok(())
}

// Takes this many of the smallest blocks; returns for how many of these calls both take the same
// block.
fn take_smallest(both: &mut Both, times: u32) -> Result<u32, AllocError> {
    let mut equal = 0;
    for _ in 0..times {
        let (chunk, plain) = both.hold(0)?;
        equal = u32::from(chunk.is_some() && chunk == plain).saturating_add(equal);
    }
    Ok(equal)
}

// The root of the chunk at a place, which both hand out again after it is given back.
fn root_of_the_only_free(both: &mut Both, at: usize) -> Result<u32, Fail> {
    let given = both.give(at).ok_or("held")?;
    if both.hold(0)? != (Some(given), Some(given)) {
        return Err("another chunk".into());
    }
    Ok(given.root)
}

// Whether both take all blocks alike, none is left then, and the last one is in the last root.
fn take_all(both: &mut Both) -> Result<bool, Fail> {
    Ok(
        take_smallest(both, 9 * 512)? == 9 * 512
            && both.hold(0)? == (None, None)
            && root_of_the_only_free(both, 9 * 512 - 1)? == 8,
    )
}

// Every word is taken, at least one of each order, down to the last block of the last row.
#[test]
fn both_are_empty_at_once(rt: HostRuntime) -> Result<(), Fail> {
    let mut both = Both::whole(rt.alloc(), 9, 9)?;
    assert!(rt; take_all(&mut both)?);
    Ok(())
}

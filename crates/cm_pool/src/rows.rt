// The pool's rows of bits, one for each order. The row of an order has a bit for each block of that
// order, set if the block is free and its other half, the buddy, isn't entirely free.
ghost use Rattle.std.specs.Prelude.{◌≡◌, ℕ, ◌+◌, ◌<◌, ◌≤◌, ◌&&◌, ◌||◌, ◌⊎◌, ◌↔◌, IsTrue, true};
ghost use Rattle.std.specs.Prelude.{false, not, length, vec_len, IfOk, IfSome, IfNone};
ghost use Rattle.cm_pool.specs.Blocks.{is_in, start, Inside, other_half};
ghost use Rattle.cm_pool.specs.Rows.{is_marked as is_marked_in, is_covered, with_mark};
ghost use Rattle.cm_pool.specs.Rows.{without_mark, HasPlace, AreBitRows, AreEmpty, IsFirstFrom};

use crate::BitRow;
use crate::block::Block;
use crate::geometry::Geometry;
use std::alloc::{AllocError, Global};

/// Rows for all blocks of a region, with no bit set.
pub fn empty_rows(alloc: Global, geometry: Geometry) -> Result<Vec<BitRow>, AllocError>
    ensures { IfOk result (λ rows. AreEmpty geometry rows.items) }
{
    let top = geometry.top();
    let mut rows = Vec::with_capacity(alloc, top as usize + 1)?;
    for order in 0..top + 1 {
        let blocks = (geometry.roots() as usize) << (top - order);
        rows.push(BitRow::new(alloc, blocks.div_ceil(64))?)?;
    }
    Ok(rows)
}

/// Whether a block's bit is set.
pub fn is_marked(rows: &[BitRow], block: Block) -> bool
    ensures { result ≡ is_marked_in rows.now block }
{
    let order = block.order as usize;
    order < rows.len() && rows[order].has(block.index)
}

/// Sets a block's bit.
pub fn mark(rows: &mut Vec<BitRow>, block: Block)
    requires { HasPlace rows.old.items block }
    ensures { rows.new.items ≡ with_mark rows.old.items block }
{
    rows[block.order as usize].insert(block.index);
}

// Clears a block's bit.
fn unmark(rows: &mut Vec<BitRow>, block: Block)
    requires { HasPlace rows.old.items block }
    ensures { rows.new.items ≡ without_mark rows.old.items block }
{
    rows[block.order as usize].remove(block.index);
}

// Whichever of two blocks begins first.
fn first_of(a: Option<Block>, b: Option<Block>) -> Option<Block>
    requires a_small { IfSome a (λ x. x.order ≤ 12) }
    requires b_small { IfSome b (λ x. x.order ≤ 12) }
    ensures none { IfNone result ((a ≡ None) × (b ≡ None)) }
    ensures one { IfSome result (λ x. (a ≡ Some x) ⊎ (b ≡ Some x)) }
    ensures before_a { IfSome result (λ x. IfSome a (λ y. start x ≤ start y)) }
    ensures before_b { IfSome result (λ x. IfSome b (λ y. start x ≤ start y)) }
{
    match (a, b) {
        (Some(x), Some(y)) => Some(if y.start() < x.start() { y } else { x }),
        (Some(x), None) => Some(x),
        (None, y) => y,
    }
}

// The first block in the row of an order.
fn first_in(rows: &[BitRow], order: u32) -> Option<Block>
    requires { order < length rows.now }
    ensures { IsFirstFrom rows.now order (order + 1) result }
{
    let index = rows[order as usize].first()?;
    Some(Block { index, order })
}

/// The first block of at least this order.
pub fn first_of_order(rows: &[BitRow], order: u32) -> Option<Block>
    requires { length rows.now ≤ 13 }
    ensures { IsFirstFrom rows.now order (length rows.now) result }
{
    let mut first = None;
    for at in order..rows.len() as u32 {
        let found = first_in(rows, at);
        first = first_of(first, found);
    }
    first
}

/// The marked block that contains `part`.
pub fn holder_of(rows: &[BitRow], part: Block) -> Option<Block>
    requires { length rows.now ≤ 13 }
    ensures some { IfSome result (λ b. (is_marked_in rows.now b ≡ true) × Inside part b) }
    ensures none { IfNone result ((b : Block) → Inside part b → is_marked_in rows.now b ≡ false) }
{
    for order in part.order..rows.len() as u32 {
        let block = part.ancestor(order);
        if is_marked(rows, block) {
            return Some(block);
        }
    }
    None
}

/// Takes `wanted` out of the block `from`, which contains it. What is left of that block stays, in
/// halves.
pub fn take_out(rows: &mut Vec<BitRow>, from: Block, wanted: Block)
    requires kept { (top : ℕ) × (limit : ℕ) × AreBitRows top limit rows.old.items }
    requires orders { vec_len rows.old ≤ 13 }
    requires from { is_marked_in rows.old.items from ≡ true }
    requires inside { Inside wanted from }
    ensures kept { (top limit : ℕ) → AreBitRows top limit rows.old.items
        → AreBitRows top limit rows.new.items }
    ensures covered { (g : ℕ)
        → is_covered rows.new.items g ≡ (is_covered rows.old.items g && not (is_in wanted g)) }
{
    unmark(rows, from);
    let mut block = from;
    while block.order > wanted.order {
        let (left, right) = block.halves();
        if left.holds(wanted) {
            mark(rows, right);
            block = left;
        } else {
            mark(rows, left);
            block = right;
        }
    }
}

// Whether the other half of a block is free, so that the two can be joined.
fn joins(rows: &[BitRow], block: Block, top: u32) -> bool
    ensures { IsTrue result ↔ ((block.order < top)
        × (is_marked_in rows.now (other_half block) ≡ true)) }
{
    block.order < top && is_marked(rows, block.other_half())
}

/// Puts back a block of which nothing is free, joined with its other half as long as that is free.
pub fn give_back(rows: &mut Vec<BitRow>, top: u32, given: Block)
    requires kept { (limit : ℕ) × AreBitRows top limit rows.old.items × ((g : ℕ)
        → is_in given g ≡ true → g < limit) }
    requires top { top ≤ 12 }
    requires order { given.order ≤ top }
    requires taken { (g : ℕ) → is_in given g ≡ true → is_covered rows.old.items g ≡ false }
    ensures kept { (limit : ℕ) → AreBitRows top limit rows.old.items → ((g : ℕ)
        → is_in given g ≡ true → g < limit) → AreBitRows top limit rows.new.items }
    ensures covered { (g : ℕ)
        → is_covered rows.new.items g ≡ (is_in given g || is_covered rows.old.items g) }
{
    let mut block = given;
    while joins(rows, block, top) {
        unmark(rows, block.other_half());
        block = block.parent();
    }
    mark(rows, block);
}

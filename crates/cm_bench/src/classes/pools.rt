//! The cost of taking a block of a crowded pool and giving it back.
ghost use Rattle.std.specs.Prelude.{◌≡◌};

use crate::classes::lookups::Tally;
use cm_pool::{Chunk, Geometry, Pool};
use std::alloc::{AllocError, Global};

/// The state of a pool of 256 roots of order 12, and which block is taken.
#[derive(Clone, Copy)]
pub enum Crowd {
    /// All roots but the last are full, and a block of order 0 is taken.
    FullRoots,
    /// Every other block of order 0 of the first eight roots is used, and one of order 1 is taken.
    SingleBlocks,
}

impl Crowd {
    pub const ALL: [Crowd; 2] = [Crowd::FullRoots, Crowd::SingleBlocks];

    /// Its name in the output.
    pub fn name(self) -> &'static str {
        match self {
            Crowd::FullRoots => "alloc(0) after 255 full roots",
            Crowd::SingleBlocks => "alloc(1) after 16384 free blocks of order 0",
        }
    }

    fn order(self) -> u32 {
        match self {
            Crowd::FullRoots => 0,
            Crowd::SingleBlocks => 1,
        }
    }

    /// The chunks that are used.
    fn used_chunks(self, alloc: Global) -> Result<Vec<Chunk>, AllocError> {
        match self {
            Crowd::FullRoots => full_roots(alloc),
            Crowd::SingleBlocks => single_blocks(alloc),
        }
    }
}

/// The chunks of all roots but the last.
fn full_roots(alloc: Global) -> Result<Vec<Chunk>, AllocError> {
    let mut used = Vec::new(alloc);
    for root in 0..255 {
        let at = 0;
        used.push(Chunk {
            root,
            order: 12,
            at,
        })?;
    }
    Ok(used)
}

/// Every other block of order 0 of a root, from the last to the first.
fn push_single_blocks(used: &mut Vec<Chunk>, root: u32) -> Result<(), AllocError> {
    for pair in (0..2048).rev() {
        let at = 256 * pair;
        used.push(Chunk { root, order: 0, at })?;
    }
    Ok(())
}

/// Every other block of order 0 of the first eight roots, from the last to the first.
fn single_blocks(alloc: Global) -> Result<Vec<Chunk>, AllocError> {
    let mut used = Vec::new(alloc);
    for root in (0..8).rev() {
        push_single_blocks(&mut used, root)?;
    }
    Ok(used)
}

/// How often a block is taken and given back.
const CALLS: u32 = 1_000;

/// The largest pool, crowded, and the order of the block that is taken.
#[derive(Drop)]
pub struct CrowdedPool {
    pool: Pool,
    order: u32,
}

/// Takes a block and gives it back; returns whether there was one.
fn take_and_give(pool: &mut Pool, order: u32) -> bool
    ensures { pool.new ≡ pool.old }
{
    if order > pool.geometry().top() {
        return false;
    }
    let Some(chunk) = pool.alloc(order) else {
        return false;
    };
    pool.give(chunk);
    true
}

impl CrowdedPool {
    /// `None` if these sizes were no geometry.
    pub fn new(alloc: Global, crowd: Crowd) -> Result<Option<CrowdedPool>, AllocError> {
        let Some(geometry) = Geometry::new(12, 256, 256) else {
            return Ok(None);
        };
        let mut pool = Pool::new(alloc, geometry)?;
        for _ in 0..256 {
            let _added = pool.add_root()?; // there is room
        }
        for chunk in &crowd.used_chunks(alloc)? {
            let _taken = pool.take(chunk); // it is free
        }
        let order = crowd.order();
        Ok(Some(CrowdedPool { pool, order }))
    }

    /// Takes a block and gives it back, again and again.
    pub fn run(&mut self) -> Tally {
        let mut tally = Tally { calls: 0, found: 0 };
        for _ in 0..CALLS {
            tally.add(take_and_give(&mut self.pool, self.order));
        }
        tally
    }
}

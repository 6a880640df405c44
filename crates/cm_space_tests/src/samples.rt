// Chunks, and pools to begin with.
use cm_pool::{Chunk, Geometry, Pool};
use std::alloc::{AllocError, Global};
use std::test::Fail;

// A chunk as tables give it: its root, its order, and its first word there.
pub type Parts = (u32, u32, u32);

pub fn chunk(parts: Parts) -> Chunk {
    let (root, order, at) = parts;
    Chunk { root, order, at }
}

// An empty pool; tries again if an allocation failed.
pub fn empty_pool(alloc: Global, top: u32, roots: u32) -> Result<Pool, Fail> {
    let geometry = Geometry::new(top, roots, 256).ok_or("sizes")?;
    match Pool::new(alloc, geometry) {
        Ok(pool) => Ok(pool),
        Err(AllocError) => Ok(Pool::new(alloc, geometry)?),
    }
}

// The orders of chunks that are requested in turn, from one root of order 3, and the chunks that
// are handed out.
pub const HANDED_OUT: [(u32, Option<Chunk>); 4] = [
    (
        0,
        Some(Chunk {
            root: 0,
            order: 0,
            at: 0,
        }),
    ),
    (
        1,
        Some(Chunk {
            root: 0,
            order: 1,
            at: 256,
        }),
    ),
    (
        0,
        Some(Chunk {
            root: 0,
            order: 0,
            at: 128,
        }),
    ),
    (3, None),
];

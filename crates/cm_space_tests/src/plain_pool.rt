// A pool as one flag for each block of order 0: the plain body, beside which the product's runs.
use cm_pool::Chunk;
use std::alloc::{AllocError, Global};

// The roots lie one after another, each with 2^top blocks of order 0.
#[derive(Drop)]
pub struct PlainPool {
    top: u32,
    is_free: Vec<bool>,
}

impl PlainPool {
    pub fn new(alloc: Global, top: u32) -> PlainPool {
        let is_free = Vec::new(alloc);
        PlainPool { top, is_free }
    }

    pub fn add_root(&mut self) -> Result<(), AllocError> {
        for _ in 0..1u32.checked_shl(self.top).unwrap_or(0) {
            self.is_free.push(true)?;
        }
        Ok(())
    }

    // The first run of blocks, at a multiple of its own length, that is free.
    pub fn alloc(&mut self, order: u32) -> Option<Chunk> {
        if order > self.top {
            return None;
        }
        let size = 1usize.checked_shl(order)?;
        let mut runs = self.is_free.chunks_exact(size);
        let first = runs
            .position(|run| run.iter().all(|free| *free))?
            .checked_mul(size)?;
        self.mark(first, size, false);
        self.chunk_at(first, order)
    }

    // Frees a chunk that was allocated.
    pub fn give(&mut self, chunk: Chunk) {
        let root = (chunk.root as usize).checked_shl(self.top).unwrap_or(0);
        let first = root.saturating_add(chunk.at as usize / 128);
        self.mark(first, 1usize.checked_shl(chunk.order).unwrap_or(0), true);
    }

    fn mark(&mut self, first: usize, count: usize, free: bool) {
        for is_free in self.is_free.iter_mut().skip(first).take(count) {
            *is_free = free;
        }
    }

    fn chunk_at(&self, first: usize, order: u32) -> Option<Chunk> {
        let blocks = 1usize.checked_shl(self.top)?;
        let root = u32::try_from(first.checked_div(blocks)?).ok()?;
        let at = u32::try_from(first.checked_rem(blocks)?)
            .ok()?
            .checked_mul(128)?;
        Some(Chunk { root, order, at })
    }
}

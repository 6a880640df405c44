// A block of the binary tree of halves over all roots.
ghost use Rattle.std.specs.Prelude.{◌≡◌, ◌+◌, ◌-◌, ◌*◌, ◌/◌, ◌^◌, ◌<◌, ◌≤◌, ◌↔◌, ℕ, IsTrue};

use crate::chunk::{Chunk, chunk_words};

/// The `index`-th block of its order, counted through the roots in granules of 128 words: the
/// granules from `index * 2^order` up to the next block.
#[derive(Clone, Copy, Debug, PartialEq, Eq)]
pub struct Block {
    pub index: u32,
    pub order: u32,
}

impl Block {
    ghost use Rattle.cm_pool.specs.Chunks.{IsBlock};
    ghost use Rattle.cm_pool.specs.Blocks.{start, stop, IsSame, Inside, left_half, right_half};
    ghost use Rattle.cm_pool.specs.Blocks.{other_half, block_above};

    /// The block's first granule.
    pub fn start(self) -> u64
        requires { self.order ≤ 12 }
        ensures { result ≡ start self }
    {
        u64::from(self.index) << self.order
    }

    /// Whether the whole of `part` is in the block.
    pub fn holds(self, part: Block) -> bool
        requires { self.order ≤ 12 }
        ensures { IsTrue result ↔ Inside part self }
    {
        part.order <= self.order && part.index >> (self.order - part.order) == self.index
    }

    /// Its two halves, of the next smaller order, the one with the lower words first.
    #[tactic(auto, unfolding(crate::specs::Blocks::left_half, crate::specs::Blocks::right_half))]
    pub fn halves(self) -> (Block, Block)
        requires splits { 0 < self.order }
        requires fits { self.index < 2 ^ 31 }
        ensures left { result.0 ≡ left_half self }
        ensures right { result.1 ≡ right_half self }
        ensures orders { (result.0.order + 1 ≡ self.order) × (result.1.order + 1 ≡ self.order) }
    {
        let order = self.order - 1;
        let left = Block {
            index: 2 * self.index,
            order,
        };
        let right = Block {
            index: 2 * self.index + 1,
            order,
        };
        (left, right)
    }

    /// The block that this is a half of.
    #[tactic(auto, unfolding(crate::specs::Blocks::block_above))]
    pub fn parent(self) -> Block
        requires { self.order < 12 }
        ensures above { result ≡ block_above self }
        ensures order { result.order ≡ self.order + 1 }
    {
        Block {
            index: self.index / 2,
            order: self.order + 1,
        }
    }

    /// The other half of the block above.
    #[tactic(auto, unfolding(crate::specs::Blocks::other_half))]
    pub fn other_half(self) -> Block
        ensures { result ≡ other_half self }
    {
        let index = if self.index % 2 == 0 {
            self.index + 1
        } else {
            self.index - 1
        };
        Block {
            index,
            order: self.order,
        }
    }

    /// The block of a larger order that contains this one.
    pub fn ancestor(self, order: u32) -> Block
        requires within { self.order ≤ order }
        requires small { order ≤ 12 }
        ensures order { result.order ≡ order }
        ensures inside { Inside self result }
    {
        Block {
            index: self.index >> (order - self.order),
            order,
        }
    }

    /// The first block of an order in this one.
    pub fn first(self, order: u32) -> Block
        requires within { order ≤ self.order }
        requires small { self.order ≤ 12 }
        requires fits { start self < 2 ^ 20 }
        ensures order { result.order ≡ order }
        ensures inside { Inside result self }
        ensures start { start result ≡ start self }
    {
        Block {
            index: self.index << (self.order - order),
            order,
        }
    }

    /// The block that has a chunk's words, if roots are of order `top`.
    pub fn of_chunk(chunk: &Chunk, top: u32) -> Block
        requires within { IsBlock top 256 chunk.now }
        requires top { top ≤ 12 }
        ensures { IsSame top chunk.now result }
    {
        Block {
            index: (chunk.root << (top - chunk.order)) + chunk.at / chunk.size(),
            order: chunk.order,
        }
    }

    /// The chunk that has a block's words, if roots are of order `top`.
    pub fn to_chunk(self, top: u32) -> Chunk
        requires within { self.order ≤ top }
        requires top { top ≤ 12 }
        ensures same { IsSame top result self }
        ensures within { (roots : ℕ) → stop self ≤ roots * 2 ^ top → IsBlock top roots result }
    {
        let in_root = 1 << (top - self.order);
        Chunk {
            root: self.index / in_root,
            order: self.order,
            at: (self.index % in_root) * chunk_words(self.order),
        }
    }
}

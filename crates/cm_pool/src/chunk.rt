// A chunk: a part of a root whose size is a power of two.
ghost use Rattle.std.specs.Prelude.{◌≡◌, ◌+◌, ◌^◌, ◌≤◌, ◌↔◌, min, IsTrue};
ghost use Rattle.cm_pool.specs.Chunks.{chunk_size};

use crate::geometry::Geometry;

/// The words `at .. at + 128 * 2^order` of root `root`, of 8 bytes each.
///
/// In a region `at` is a multiple of the size and the chunk is inside its root
/// ([`Chunk::is_within`]); a chunk read from a file may have any numbers.
#[derive(Clone, Copy, Debug, PartialEq, Eq)]
pub struct Chunk {
    pub root: u32,
    pub order: u32,
    pub at: u32,
}

/// The end, for [`Chunk::meets`], of every chunk that reaches past the `u32`s. Each chunk of order
/// 26 or more does.
const FAR: u64 = 1 << 33;

/// How many words a chunk of this order has.
pub fn chunk_words(order: u32) -> u32
    requires { order ≤ 24 }
    ensures { result ≡ chunk_size order }
{
    128 << order
}

impl Chunk {
    ghost use Rattle.cm_pool.specs.Chunks.{Meets, IsChunk};

    /// Whether the two chunks share a word.
    pub fn meets(&self, other: &Chunk) -> bool
        ensures { IsTrue result ↔ Meets self.now other.now }
    {
        let begin = u64::from(self.at.max(other.at));
        let end = self.end().min(other.end());
        self.root == other.root && begin < end
    }

    /// Whether a region of these sizes can have this chunk: its order is at most `top`, its root
    /// below `roots`, it begins at a multiple of its size, and it is inside the root.
    pub fn is_within(&self, geometry: Geometry) -> bool
        ensures { IsTrue result ↔ IsChunk geometry self.now }
    {
        self.order <= geometry.top()
            && self.root < geometry.roots()
            && self.at % self.size() == 0
            && u64::from(self.at) + u64::from(self.size()) <= u64::from(geometry.root_words())
    }

    /// How many words a chunk of a region has.
    pub fn size(&self) -> u32
        requires { self.now.order ≤ 12 }
        ensures { result ≡ chunk_size self.now.order }
    {
        chunk_words(self.order)
    }

    // The word after the chunk's last, or `FAR` if that is further on.
    fn end(&self) -> u64
        ensures { result ≡ min (self.now.at + chunk_size self.now.order) (2 ^ 33) }
    {
        if self.order < 26 {
            u64::from(self.at) + (128 << self.order)
        } else {
            FAR
        }
    }
}

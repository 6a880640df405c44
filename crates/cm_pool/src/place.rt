// Where the words of a record are.
ghost use Rattle.std.specs.Prelude.{◌↔◌, IsTrue};

use crate::chunk::Chunk;

/// The `words` words of a chunk, starting at its `offset`-th.
#[derive(Clone, Copy, Debug, PartialEq, Eq)]
pub struct Place {
    pub chunk: Chunk,
    pub offset: u32,
    pub words: u32,
}

impl Place {
    ghost use Rattle.cm_pool.specs.Places.{IsInside};

    /// Whether these are words inside the chunk, and at least one. A place read from a file may
    /// have any numbers.
    pub fn is_inside(&self) -> bool
        ensures { IsTrue result ↔ IsInside self.now }
    {
        self.words >= 1
            && self.chunk.order <= 12
            && u64::from(self.offset) + u64::from(self.words) <= u64::from(self.chunk.size())
    }
}

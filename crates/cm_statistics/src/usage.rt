//! How much of a region classes take.

ghost use Rattle.std.specs.Prelude.{◌≡◌, ◌+◌, ◌*◌, ◌<◌, ◌≤◌, ◌^◌};
ghost use Rattle.cm_pool.specs.Chunks.{chunk_size};
ghost use Rattle.cm_statistics.specs.Usage.{no_usage, with_class, HasRoom, IsSmallRow};

use cm_layout::ClassRow;

/// How much of a region some classes take. Sizes are in bytes.
#[derive(Clone, Copy, Debug, PartialEq, Eq)]
pub struct Usage {
    /// How many classes there are.
    pub classes: u64,
    /// How many chunks their records lie on.
    pub chunks: u64,
    /// The size of these chunks.
    pub owned: u64,
    /// The size of the records.
    pub used: u64,
}

/// The size of a row's chunk in bytes.
fn chunk_bytes(row: &ClassRow) -> u64
    requires { row.now.place.chunk.order ≤ 12 }
    ensures { result ≡ 8 * chunk_size row.now.place.chunk.order }
{
    8 * u64::from(row.place.chunk.size())
}

impl Usage {
    /// What no classes take.
    pub(crate) fn none() -> Usage
        ensures { result ≡ no_usage }
    {
        Usage {
            classes: 0,
            chunks: 0,
            owned: 0,
            used: 0,
        }
    }

    /// What no record takes of the chunks.
    pub fn free(&self) -> u64
        ensures { self.now.used ≤ self.now.owned → result + self.now.used ≡ self.now.owned }
    {
        self.owned.saturating_sub(self.used)
    }

    /// The same with one more class. A chunk is counted with the first record on it.
    pub(crate) fn with(self, row: &ClassRow) -> Usage
        requires small { IsSmallRow row.now }
        requires room { HasRoom self row.now }
        ensures { result ≡ with_class self row.now }
    {
        let begins = row.place.offset == 0;
        Usage {
            classes: self.classes + 1,
            chunks: self.chunks + u64::from(begins),
            owned: self.owned + if begins { chunk_bytes(row) } else { 0 },
            used: self.used + 8 * u64::from(row.place.words),
        }
    }
}

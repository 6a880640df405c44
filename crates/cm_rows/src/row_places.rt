//! The places of rows.

ghost use Rattle.std.specs.Prelude.{ℕ, IfOk};
ghost use Rattle.cm_rows.specs.Places.{HasNoPlaces, HasRowRoom};

use cm_index::{IndexedRows, Kept};
use std::alloc::{AllocError, Global};

/// The places of rows, with what leads to them.
#[derive(Drop)]
pub struct RowPlaces<P> {
    pub indexed: IndexedRows<P>,
    /// For each live row the place of its loader's row before it.
    pub before: Vec<Option<u32>>,
}

impl<P: Kept> RowPlaces<P> {
    /// No rows, with room for `count` of them.
    pub fn with_room(alloc: Global, count: usize) -> Result<RowPlaces<P>, AllocError>
        ensures none { IfOk result (λ rows. HasNoPlaces rows) }
        ensures room { IfOk result (λ rows. HasRowRoom rows count) }
    {
        let indexed = IndexedRows::with_room(alloc, count)?;
        let before = Vec::with_capacity(alloc, count)?;
        Ok(RowPlaces { indexed, before })
    }

    /// Removes all rows.
    pub fn clear(&mut self)
        ensures none { HasNoPlaces self.new }
        ensures room { (n : ℕ) → HasRowRoom self.old n → HasRowRoom self.new n }
    {
        self.indexed.clear();
        self.before.clear();
    }
}

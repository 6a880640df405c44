//! The chunks of a region, and the pool that hands them out (buddy scheme of JEP 387).
#![tactic(auto)]

mod bit_row;
mod bit_words;
mod block;
mod chunk;
mod geometry;
mod laws;
mod place;
mod pool;
mod rows;

// A crate can name a pool in a contract only if the types of its fields are exported.
#[doc(hidden)]
pub use bit_row::BitRow;
// The plain body of a pool uses the same blocks.
#[doc(hidden)]
pub use block::Block;
pub use chunk::{Chunk, chunk_words};
pub use geometry::{
    Geometry, LEAST_ROOTS, LEAST_SLOTS, LEAST_TOP, MOST_ROOTS, MOST_SLOTS, MOST_TOP,
};
pub use laws::{
    giving_back_restores, halves_make_whole, held_chunks_come_and_go, large_has_small,
    nested_or_apart, one_list_of_largest, roots_are_free, taking_loses_none,
};
pub use place::Place;
pub use pool::Pool;

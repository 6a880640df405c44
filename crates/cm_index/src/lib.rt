//! Rows by name: an index to the living rows of each owner and name, without a scan.
#![tactic(auto)]

mod block;
mod blocks;
mod index;
mod kept;
mod records;
mod rows;
mod search;
mod slot;
mod sought;
mod sweep;

pub use index::Index;
pub use kept::Kept;
pub use rows::{IndexedRows, sweep_slots};
pub use slot::BookSlot;

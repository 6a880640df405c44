//! Rows of classes that are found by loader and name in the bytes of a file, which hold the names.
#![tactic(auto)]

mod index;
mod marks;
mod order;
mod row;

pub use index::{find_at, find_row, first_twin, sort_rows};
pub use marks::{mark_of, marked};
pub use row::{ViewRow, name_of, row_bytes};

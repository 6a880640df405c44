//! Opens the device of a region file as a disk, with as much of it in memory as its cache needs.
#![tactic(auto)]

mod opening;
mod sizes;

pub use opening::{disk_of, disk_without_records};
pub use sizes::most_bytes_a_write;

//! What was seen on the Board, and what each of those who use it knows.

use cm_group::Receipt;
use std::collections::LinkedList;

/// What was seen on the Board.
#[derive(Clone, Copy, Debug, PartialEq, Eq)]
pub struct Seen {
    /// All commands up to its number are durable.
    pub receipt: Receipt,
    /// The device failed, so no further receipt comes.
    pub broken: bool,
}

/// What one load of a word of the Board found. Only contracts read it; no value of it is made.
pub enum Load {
    /// The number of the newest receipt.
    Number(u64),
    /// Whether the device failed.
    Broken(bool),
}

/// What one user of the Board knows. Only contracts read it; no value of it is made.
pub struct BoardView {
    /// Whether it is the one that writes.
    pub posts: bool,
    /// The number on the Board, as far as it has seen.
    pub number: u64,
    /// Whether it has seen that the device failed.
    pub broken: bool,
    /// The number that another, which was joined to it, had seen.
    pub heard_number: u64,
    /// Whether that one had seen that the device failed.
    pub heard_broken: bool,
    /// All that it loaded as a reader, oldest first.
    pub loads: LinkedList<Load>,
}

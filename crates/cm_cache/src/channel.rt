//! What the accepted cache sends to the flusher, and what each end of their channel knows.

use cm_group::Group;
use cm_layout::Row;
use cm_pool::Geometry;
use std::collections::LinkedList;

/// A message from the accepted cache to the flusher.
#[derive(Drop)]
pub enum Message {
    /// Accepted commands, to be stored next.
    Group(Group),
    /// The last message: the cache is closed.
    End,
}

/// What a cache file held when it was opened. Only contracts read it; no value of it is made.
pub struct Base {
    /// The sizes of its region.
    pub sizes: Geometry,
    /// The live rows, each class with the words of its record.
    pub rows: LinkedList<Row<LinkedList<u64>>>,
    /// The number of the last command that was stored.
    pub number: u64,
}

/// What one end of the channel knows. Only contracts read it; no value of it is made.
pub struct ChannelView {
    /// Whether it may send.
    pub sends: bool,
    /// Whether it may receive.
    pub receives: bool,
    /// What was opened.
    pub base: Base,
    /// All that it sent, oldest first.
    pub sent: LinkedList<Message>,
    /// All that it received, oldest first.
    pub received: LinkedList<Message>,
    /// A beginning of all that was sent, as a witness knows it.
    pub known: LinkedList<Message>,
    /// The numbers of sent commands that belong to this end alone.
    pub owned: LinkedList<u64>,
}

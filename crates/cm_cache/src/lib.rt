//! A cache for many threads: what they accept is stored by one thread of its own.
#![tactic(auto)]

mod board;
mod board_rule;
mod board_view;
mod cache;
mod changes;
mod channel;
mod channel_rule;
mod ends;
mod flusher;
mod flushing;
mod handing;
mod holds;
mod lanes;
mod naming;
mod new_cache;
mod opening;
mod shared;
mod storage;
mod storing;
mod tally;

pub use board::{Board, NewBoard, Poster, Reader};
pub use board_rule::BoardRule;
pub use board_view::{BoardView, Load, Seen};
pub use cache::{Cache, Closed};
// A crate can name a pass in a contract only if the types of its fields are exported.
#[doc(hidden)]
pub use changes::Changes;
pub use channel::{Base, ChannelView, Message};
pub use channel_rule::ChannelRule;
pub use ends::{Incoming, NewChannel, Outgoing, Settled, Witness};
pub use flusher::{Flusher, Over};
pub use flushing::{Ended, Flushing};
pub use handing::Handing;
#[doc(hidden)]
pub use holds::Holds;
pub use naming::Naming;
pub use new_cache::NewCache;
pub use opening::opened_may_start;
pub use shared::{MOST_PASSES, Pass, Shared};
pub use storage::{NewStorage, Storage};
pub use storing::store_group;
pub use tally::Tally;

//! What the threads of a cache share, made before the cache is started.

ghost use Rattle.std.specs.Prelude.{◌≡◌, ◌≤◌, IfOk};
ghost use Rattle.cm_cache.specs.Shared.{most_passes};

use crate::board::NewBoard;
use crate::ends::NewChannel;
use crate::shared::MOST_PASSES;
use std::alloc::{AllocError, Global};
use std::sync::ledger::Blank;

/// A new channel, a new Board and a new ledger, which belong to no cache yet, with the number of
/// passes. A caller names these for the cache that is started with them.
#[derive(Drop)]
pub struct NewCache {
    /// From the accepted cache to the flusher.
    pub channel: NewChannel,
    /// On which the flusher writes how far commands are stored.
    pub board: NewBoard,
    /// In which the accepted commands are counted.
    pub ledger: Blank,
    /// How many passes the cache is started with.
    pub passes: u64,
    ghost is_whole: { ledger.parts ≡ most_passes },
    ghost are_few: { passes ≤ most_passes },
}

impl NewCache {
    /// The parts for a cache of which all commands up to this number are durable, and which is
    /// started with `passes` passes.
    pub fn new(alloc: Global, number: u64, passes: u64) -> Result<NewCache, AllocError>
        requires { passes ≤ most_passes }
        ensures number { IfOk result (λ c. c.board.number ≡ number) }
        ensures passes { IfOk result (λ c. c.passes ≡ passes) }
    {
        Ok(NewCache {
            channel: NewChannel::new(alloc)?,
            board: NewBoard::new(alloc, number)?,
            ledger: Blank::new(MOST_PASSES),
            passes,
        })
    }
}

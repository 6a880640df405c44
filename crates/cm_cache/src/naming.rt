//! What the parts of one running cache have in common.

ghost use Rattle.std.specs.Prelude.{ℕ};
ghost use Rattle.atomic_table.specs.Seated.{TableId};
ghost use Rattle.cm_cache.specs.declared.channel.Base.{Base};
ghost use Rattle.cm_cache.specs.Channel.{ChannelId, no_channel, no_base, no_table};

use std::marker::Brand;
use std::sync::ledger::Ledger;

/// Names one running cache: what was opened, and which channel and Board its threads share.
///
/// Of a value that lies under a lock, or that another thread returns, only its type is known. So
/// each type whose values have to agree on these has such a parameter. A caller is generic over it,
/// and a program runs it at `Brand`.
pub trait Naming: Ledger {
    /// What was opened.
    ghost base: { Base };

    /// The channel from the accepted cache to the flusher.
    ghost channel: { ChannelId };

    /// The Board.
    ghost board: { TableId };

    /// How many calls of the disk had failed when the cache was started.
    ghost failed: { ℕ };

    /// How many passes it was started with.
    ghost passes: { ℕ };
}

impl Naming for Brand {
    ghost base = { no_base };

    ghost channel = { no_channel };

    ghost board = { no_table };

    ghost failed = { 0 };

    ghost passes = { 0 };
}

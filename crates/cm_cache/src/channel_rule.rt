//! The rule of the channel: what was received is a beginning of what was sent, and each group
//! continues those sent before it.

use crate::channel::{ChannelView, Message};
use crate::naming::Naming;
use crossbeam_channel::protocol::{Join, Lesson, Outcome, Protocol, Split};
use std::marker::PhantomData;

/// The rule over the messages in the channel and what its two ends know.
pub struct ChannelRule;

impl Protocol<Message, ChannelView> for ChannelRule {
    ghost use Rattle.std.specs.Prelude.{[]};
    ghost use Rattle.cm_cache.specs.Channel.{IsRelayed, both_ends, no_base};

    ghost holds = { IsRelayed };

    ghost first = { both_ends no_base [] [] };
}

/// A message was sent.
pub(crate) struct Sent;

impl Outcome<Message, ChannelView> for Sent {
    ghost use Rattle.cm_cache.specs.Channel.{HasSent};

    ghost then = { HasSent };
}

impl Lesson<Message, ChannelView> for Sent {
    ghost fact = { λ v items. Unit {0} };
}

/// A message was received.
pub(crate) struct Received;

impl Outcome<Message, ChannelView> for Received {
    ghost use Rattle.cm_cache.specs.Channel.{HasReceived};

    ghost then = { HasReceived };
}

impl Lesson<Message, ChannelView> for Received {
    ghost fact = { λ v items. Unit {0} };
}

/// What was sent is what was received, followed by what the channel holds.
pub(crate) struct Total;

impl Lesson<Message, ChannelView> for Total {
    ghost use Rattle.cm_cache.specs.Channel.{IsAll};

    ghost fact = { IsAll };
}

/// What was sent is in order.
pub(crate) struct Ordered;

impl Lesson<Message, ChannelView> for Ordered {
    ghost use Rattle.cm_cache.specs.Channel.{IsOrdered};

    ghost fact = { IsOrdered };
}

/// What a witness knows is a beginning of what was sent.
pub(crate) struct Beginning;

impl Lesson<Message, ChannelView> for Beginning {
    ghost use Rattle.cm_cache.specs.Channel.{IsBeginning};

    ghost fact = { IsBeginning };
}

/// No two numbers that belong to this end are the same.
pub(crate) struct Apart;

impl Lesson<Message, ChannelView> for Apart {
    ghost use Rattle.cm_cache.specs.Channel.{OwnsApart};

    ghost fact = { OwnsApart };
}

/// Makes a witness of what was sent by now, with all numbers of this end, and joins it again.
pub(crate) struct Witnessing;

impl Split<ChannelView> for Witnessing {
    ghost use Rattle.cm_cache.specs.Channel.{giving, witness};

    ghost left = { giving };

    ghost right = { λ v. witness v.sent v.owned };
}

impl Join<ChannelView> for Witnessing {
    ghost use Rattle.cm_cache.specs.Channel.{hearing, no_end};

    ghost both = { hearing };

    ghost spent = { no_end };
}

/// Cuts a new channel into its two ends, and joins them again.
pub(crate) struct Roles<K> {
    of: PhantomData<K>,
}

impl<K: Naming> Split<ChannelView> for Roles<K> {
    ghost use Rattle.cm_cache.specs.Channel.{sender, receiver};

    ghost left = { λ v. sender K.base v.sent };

    ghost right = { λ v. receiver K.base v.received };
}

impl<K: Naming> Join<ChannelView> for Roles<K> {
    ghost use Rattle.cm_cache.specs.Channel.{both_ends, no_end};

    ghost both = { λ v w. both_ends v.base v.sent w.received };

    ghost spent = { no_end };
}

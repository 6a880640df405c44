//! The two ends of the channel from the accepted cache to the flusher.

ghost use Rattle.std.specs.Prelude.{◌≡◌, ◌++◌, ◌∷◌, [], List, true, false, OnOk, IfErr, IfSome};
ghost use Rattle.std.specs.Prelude.{IfNone};
ghost use Rattle.crossbeam_channel.specs.Claims.{IsSeatAt};
ghost use Rattle.crossbeam_channel.specs.Ends.{sends_on, receives_on};
ghost use Rattle.cm_cache.specs.Channel.{both_ends, channel_of, entries_of, is_open, known_to};
ghost use Rattle.cm_cache.specs.Channel.{no_base, owned_by, sent_more, shown_by};
ghost use Rattle.cm_cache.specs.Channel.{AreApart, InOrder, MayBeSent};

use crate::channel::{ChannelView, Message};
use crate::channel_rule::{
    Apart, Beginning, ChannelRule, Ordered, Received, Roles, Sent, Total, Witnessing,
};
use crate::naming::Naming;
use crossbeam_channel::{Pass, RuledReceiver, RuledSender, bounded_with};
use std::alloc::{AllocError, Global};
use std::marker::{Model, PhantomData};
use std::sync::Wait;

/// How many messages the channel holds at once.
const PLACES: usize = 1024;

/// A new channel, which belongs to no cache yet.
#[derive(Drop)]
pub struct NewChannel {
    sender: RuledSender<Message, ChannelView, ChannelRule>,
    receiver: RuledReceiver<Message, ChannelView, ChannelRule>,
    pass: Pass<Message, ChannelView>,
    ghost is_seat: { IsSeatAt (sends_on sender) pass },
    ghost is_one: { receives_on receiver ≡ sends_on sender },
    ghost is_new: { known_to pass ≡ both_ends no_base [] [] },
}

impl NewChannel {
    /// Allocates room for all messages that the channel holds at once.
    pub fn new(alloc: Global) -> Result<NewChannel, AllocError> {
        let (sender, receiver, pass) = bounded_with(alloc, PLACES)?;
        Ok(NewChannel {
            sender,
            receiver,
            pass,
        })
    }

    /// The two ends of the channel of the cache that K names.
    pub fn named<K: Naming>(self) -> (Outgoing<K>, Incoming<K>)
        requires { channel_of (sends_on self.sender) ≡ K.channel }
        ensures sent { result.0 ≡ record { sent = []; owned = [] } }
        ensures received { result.1 ≡ [] }
    {
        let NewChannel {
            sender,
            receiver,
            mut pass,
        } = self;
        let other = sender.another::<Roles<K>>(&mut pass);
        let outgoing = Outgoing {
            sender,
            pass,
            of: PhantomData,
        };
        let incoming = Incoming {
            receiver,
            pass: other,
            of: PhantomData,
        };
        (outgoing, incoming)
    }
}

/// The end that sends. Contracts describe it by all that was sent, oldest first, and by the numbers
/// of sent commands that belong to it: those that no witness has.
#[derive(Drop)]
pub struct Outgoing<K: Naming> {
    sender: RuledSender<Message, ChannelView, ChannelRule>,
    pass: Pass<Message, ChannelView>,
    of: PhantomData<K>,
}

impl<K: Naming> Model for Outgoing<K> {
    ghost use Rattle.std.specs.Prelude.{◌≡◌, true};
    ghost use Rattle.crossbeam_channel.specs.Claims.{IsSeatAt};
    ghost use Rattle.crossbeam_channel.specs.Ends.{sends_on};
    ghost use Rattle.cm_cache.specs.Channel.{OutgoingState, known_to, channel_of};

    ghost Value = { OutgoingState };

    ghost view = { λ o.
        record { sent = (known_to o.pass).sent; owned = (known_to o.pass).owned } };

    ghost invariant = { λ o.
        IsSeatAt (sends_on o.sender) o.pass × (channel_of (sends_on o.sender) ≡ K.channel)
        × ((known_to o.pass).sends ≡ true) × ((known_to o.pass).base ≡ K.base) };
}

/// The end that receives. Contracts describe it by all that was received, oldest first.
#[derive(Drop)]
pub struct Incoming<K: Naming> {
    receiver: RuledReceiver<Message, ChannelView, ChannelRule>,
    pass: Pass<Message, ChannelView>,
    of: PhantomData<K>,
}

impl<K: Naming> Model for Incoming<K> {
    ghost use Rattle.std.specs.Prelude.{◌≡◌, List};
    ghost use Rattle.crossbeam_channel.specs.Claims.{IsSeatAt};
    ghost use Rattle.crossbeam_channel.specs.Ends.{receives_on};
    ghost use Rattle.cm_cache.specs.declared.channel.Message.{Message};
    ghost use Rattle.cm_cache.specs.Channel.{known_to, channel_of};
    ghost use Rattle.cm_cache.specs.Channel.{receiver as receiver_view};

    ghost Value = { List Message };

    ghost view = { λ o. (known_to o.pass).received };

    ghost invariant = { λ o.
        IsSeatAt (receives_on o.receiver) o.pass
        × (channel_of (receives_on o.receiver) ≡ K.channel)
        × (known_to o.pass ≡ receiver_view K.base (known_to o.pass).received) };
}

/// Shows what had been sent when it was made. Contracts describe it by that, oldest first, and by
/// the numbers of sent commands that belong to it alone.
#[derive(Drop)]
pub struct Witness<K: Naming> {
    pass: Pass<Message, ChannelView>,
    of: PhantomData<K>,
}

impl<K: Naming> Model for Witness<K> {
    ghost use Rattle.std.specs.Prelude.{◌≡◌, []};
    ghost use Rattle.cm_cache.specs.Channel.{WitnessState, known_to};
    ghost use Rattle.cm_cache.specs.Channel.{witness as witness_view};

    ghost Value = { WitnessState };

    ghost view = { λ w.
        record { known = (known_to w.pass).known; owned = (known_to w.pass).owned } };

    ghost invariant = { λ w.
        (w.pass.table_id ≡ K.channel.table) × (w.pass.me.0.of ≡ K.channel.key)
        × (w.pass.me.1 ≡ [])
        × (known_to w.pass ≡ witness_view (known_to w.pass).known (known_to w.pass).owned) };
}

/// What stays of the channel once both ends are back in one thread. Contracts describe it by all
/// that was sent, oldest first, and by the numbers of the witnesses that it heard.
#[derive(Drop)]
pub struct Settled<K: Naming> {
    outgoing: Outgoing<K>,
}

impl<K: Naming> Model for Settled<K> {
    ghost use Rattle.cm_cache.specs.Channel.{OutgoingState};

    ghost Value = { OutgoingState };

    ghost view = { λ s. s.outgoing };
}

impl<K: Naming> Outgoing<K> {
    /// Shows that what was sent is in order.
    pub fn ordered(&mut self)
        ensures same { self.new ≡ self.old }
        ensures ordered { InOrder K.base [] self.old.sent }
    {
        self.sender.learn_as::<Ordered>(&mut self.pass);
    }

    /// Shows later what was sent by now. All numbers of this end belong to the witness from now on.
    pub fn witness(&mut self) -> Witness<K>
        ensures given { self.new ≡ record { sent = self.old.sent; owned = [] } }
        ensures shows { result ≡ record { known = self.old.sent; owned = self.old.owned } }
    {
        let pass = self.sender.another::<Witnessing>(&mut self.pass);
        Witness {
            pass,
            of: PhantomData,
        }
    }

    /// Shows that what a witness knows, if there is one, is a beginning of what was sent. Its
    /// numbers belong to this end from now on.
    pub fn hear(&mut self, witness: Option<Witness<K>>)
        ensures taken { self.new ≡ record {
          sent = self.old.sent;
          owned = self.old.owned ++ owned_by witness;
        } }
        ensures known { (rest : List Message) × (self.old.sent ≡ shown_by witness ++ rest) }
    {
        match witness {
            Some(witness) => self.hear_one(witness),
            None => {}
        }
    }

    fn hear_one(&mut self, witness: Witness<K>)
        ensures taken { self.new ≡ record {
          sent = self.old.sent;
          owned = self.old.owned ++ witness.owned;
        } }
        ensures known { (rest : List Message) × (self.old.sent ≡ witness.known ++ rest) }
    {
        let Witness { pass, .. } = witness;
        self.sender.absorb::<Witnessing>(&mut self.pass, pass);
        self.sender.learn_as::<Beginning>(&mut self.pass);
    }

    /// Shows that the numbers which belong to this end are apart.
    pub fn apart(&mut self)
        ensures same { self.new ≡ self.old }
        ensures apart { AreApart self.old.owned }
    {
        self.sender.learn_as::<Apart>(&mut self.pass);
    }

    /// Sends a message: a group that continues those that were sent, or the End, after which
    /// nothing is sent. The numbers of its commands belong to this end. Waits while the channel is
    /// full.
    pub fn send<R: Wait>(&mut self, rt: &R, message: Message)
        requires still_open { is_open self.old.sent ≡ true }
        requires may { MayBeSent K.base (entries_of self.old.sent) message }
        ensures { self.new ≡ sent_more K.base self.old message }
    {
        let mut message = message;
        for _ in rt.forever() {
            match self.send_once(rt, message) {
                Ok(()) => return,
                Err(back) => message = back,
            }
        }
        unreachable!()
    }

    // The message comes back if the channel reports an error: no clause says when it does.
    fn send_once<R: Wait>(&mut self, rt: &R, message: Message) -> Result<(), Message>
        requires still_open { is_open self.old.sent ≡ true }
        requires may { MayBeSent K.base (entries_of self.old.sent) message }
        ensures ok { OnOk result (self.new ≡ sent_more K.base self.old message) }
        ensures err { IfErr result (λ back. (back ≡ message) × (self.new ≡ self.old)) }
    {
        match self.sender.send_as::<Sent, R>(rt, &mut self.pass, message) {
            Ok(()) => Ok(()),
            Err(error) => Err(error.into_inner()),
        }
    }

    /// Shows what both ends know, once they are back in one thread: what was sent is in order, what
    /// was received is a beginning of it, and if the End was received, all of it was.
    pub fn settle(self, other: Incoming<K>) -> Settled<K>
        ensures same { result ≡ record { sent = self.sent; owned = [] } }
        ensures ordered { InOrder K.base [] self.sent }
        ensures beginning { (rest : List Message) × (self.sent ≡ other ++ rest) }
        ensures whole { is_open other ≡ false → self.sent ≡ other }
    {
        let Outgoing {
            sender,
            mut pass,
            ..
        } = self;
        let Incoming { pass: other, .. } = other;
        sender.absorb::<Roles<K>>(&mut pass, other);
        sender.learn_as::<Total>(&mut pass);
        Settled {
            outgoing: Outgoing {
                sender,
                pass,
                of: PhantomData,
            },
        }
    }
}

impl<K: Naming> Settled<K> {
    /// Shows that what a witness knows is a beginning of what was sent, and that none of its
    /// numbers belongs to a witness that was heard before.
    pub fn hear(&mut self, witness: Option<Witness<K>>)
        ensures taken { self.new ≡ record {
          sent = self.old.sent;
          owned = self.old.owned ++ owned_by witness;
        } }
        ensures known { (rest : List Message) × (self.old.sent ≡ shown_by witness ++ rest) }
        ensures apart { AreApart self.new.owned }
    {
        self.outgoing.hear(witness);
        self.outgoing.apart();
    }
}

impl<K: Naming> Incoming<K> {
    /// Receives the next message, which was sent after those received before: a group continues
    /// them. Waits while there is none.
    pub fn receive<R: Wait>(&mut self, rt: &R) -> Message
        ensures received { self.new ≡ self.old ++ result ∷ [] }
        ensures may { MayBeSent K.base (entries_of self.old) result }
    {
        for _ in rt.forever() {
            if let Some(message) = self.receive_once(rt) {
                return message;
            }
        }
        unreachable!()
    }

    // `None` if the channel reports an error: no clause says when it does.
    fn receive_once<R: Wait>(&mut self, rt: &R) -> Option<Message>
        ensures received { IfSome result (λ m. self.new ≡ self.old ++ m ∷ []) }
        ensures may { IfSome result (λ m. MayBeSent K.base (entries_of self.old) m) }
        ensures none { IfNone result (self.new ≡ self.old) }
    {
        self.receiver
            .recv_as::<Received, R>(rt, &mut self.pass)
            .ok()
    }

    /// Receives the next message without waiting for one. `None` if it finds none; there may still
    /// be one while another thread is sending.
    pub fn receive_now<R: Wait>(&mut self, rt: &R) -> Option<Message>
        ensures received { IfSome result (λ m. self.new ≡ self.old ++ m ∷ []) }
        ensures may { IfSome result (λ m. MayBeSent K.base (entries_of self.old) m) }
        ensures none { IfNone result (self.new ≡ self.old) }
    {
        self.receiver
            .try_recv_as::<Received, R>(rt, &mut self.pass)
            .ok()
    }
}

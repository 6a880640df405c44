//! The accepted cache, which sends each command that it accepts to the flusher at once.

ghost use Rattle.std.specs.Prelude.{◌≡◌, ◌||◌, [], ◌∷◌, ◌++◌, true, List, Some};
ghost use Rattle.std.specs.Prelude.{IfOk, IfErr, OnErr};
ghost use Rattle.cm_state.specs.State.{state_of, words_show};
ghost use Rattle.cm_commands.specs.Commands.{change_asked};
ghost use Rattle.cm_front.specs.Front.{IsFront};
ghost use Rattle.cm_front.specs.Accepting.{IsReason};
ghost use Rattle.cm_handover.specs.Ahead.{AllFollow};
ghost use Rattle.cm_handover.specs.Folding.{LeadTo};
ghost use Rattle.cm_cache.specs.Channel.{entries_of, number_sent, owned_by, shown_by};
ghost use Rattle.cm_cache.specs.declared.channel.Message.TheVariants.{End};
ghost use Rattle.cm_cache.specs.Handing.{rows_sent, IsFresh, TakesOut, HandsOver};
ghost use Rattle.cm_cache.specs.Handing.{IsTied, MayAccept};
ghost use Rattle.cm_cache.specs.Handing.{SameMarks, with_receipt, with_seen};

use crate::board_view::Seen;
use crate::channel::Message;
use crate::ends::{Outgoing, Witness};
use crate::naming::Naming;
use cm_commands::{Command, Refusal};
use cm_front::Front;
use cm_group::{Group, Receipt};
use cm_handover::{
    ahead_stays_ahead, groups_may_follow, handed_changes_lead_on, handed_groups_are_next,
};
use std::marker::Model;
use std::sync::Wait;

/// The accepted cache with the end of the channel that sends. Whatever it accepted was sent, and
/// the number of each command belongs to a witness. Contracts describe both.
#[derive(Drop)]
pub struct Handing<K: Naming> {
    front: Front,
    outgoing: Outgoing<K>,
}

impl<K: Naming> Model for Handing<K> {
    ghost use Rattle.std.specs.Prelude.{◌≡◌, []};
    ghost use Rattle.cm_cache.specs.Handing.{HandingState, IsTied, handing_code};

    ghost Value = { HandingState };

    ghost coded = { handing_code };

    ghost view = { λ h. record { front = h.front; sent = h.outgoing.sent } };

    ghost invariant = { λ h.
        IsTied K.base (record { front = h.front; sent = h.outgoing.sent })
        × (h.outgoing.owned ≡ []) };
}

impl<K: Naming> Handing<K> {
    /// A cache that was just opened, with a channel over which nothing was sent.
    pub fn new(front: Front, outgoing: Outgoing<K>) -> Handing<K>
        requires front { IsFresh K.base front }
        requires outgoing { outgoing ≡ record { sent = []; owned = [] } }
        ensures { result ≡ record { front = front; sent = [] } }
    {
        Handing { front, outgoing }
    }

    /// The accepted cache. Its rows are those after all that was sent.
    pub fn front(&self) -> &Front
        ensures value { result.now ≡ self.now.front }
        ensures rows { self.now.front.rows ≡ rows_sent K.base self.now.sent }
        ensures number { self.now.front.number ≡ number_sent K.base self.now.sent }
        ensures lawful { IsFront self.now.front }
    {
        &self.front
    }

    /// Does nothing: its clause says how the accepted cache matches what was sent.
    pub fn state(&self)
        ensures { IsTied K.base self.now }
    {
        let _front = &self.front; // reading a field brings the invariant
    }

    /// Changes nothing: its clauses say that each entry that was sent follows those before it, and
    /// that the changes which they make lead from what was opened to the accepted cache.
    pub fn fold(&mut self)
        ensures same { self.new ≡ self.old }
        ensures follow { AllFollow K.base.sizes K.base.rows K.base.number
            (entries_of self.old.sent) }
        ensures leads { LeadTo K.base.sizes K.base.rows K.base.number (entries_of self.old.sent)
            (state_of words_show self.old.front.rows) }
    {
        handed_changes_lead_on();
        self.outgoing.ordered();
    }

    /// Accepts a command and sends it, or does neither. In place of the witness there is then one
    /// of all that was sent, to which the number of the command belongs too. Waits while the
    /// channel is full.
    pub fn hand_over<R: Wait>(
        &mut self,
        rt: &R,
        command: Command<'_>,
        witness: &mut Option<Witness<K>>,
    ) -> Result<u64, Refusal>
        ensures ok { IfOk result
            (λ n. HandsOver K.base self.old.sent (change_asked command.entry) n self.new.sent) }
        ensures err { OnErr result (self.new ≡ self.old) }
        ensures reason { IfErr result (IsReason self.old.front (change_asked command.entry)) }
        ensures fits { IfOk result (MayAccept self.old.front (change_asked command.entry)) }
        ensures marks { SameMarks self.old.front self.new.front }
        ensures known { (rest : List Message) × (self.new.sent ≡ shown_by witness.old ++ rest) }
        ensures shown { IfOk result (λ n. witness.new ≡ Some (record {
          known = self.new.sent;
          owned = owned_by witness.old ++ n ∷ [];
        })) }
        ensures kept { OnErr result (witness.new ≡ Some (record {
          known = self.new.sent;
          owned = owned_by witness.old;
        })) }
    {
        ahead_stays_ahead();
        groups_may_follow();
        self.outgoing.hear(witness.take());
        let (number, group) = match take_out(&mut self.front, command) {
            Ok(taken) => taken,
            Err(refusal) => {
                *witness = Some(self.outgoing.witness());
                return Err(refusal);
            }
        };
        self.outgoing.send(rt, Message::Group(group));
        *witness = Some(self.outgoing.witness());
        Ok(number)
    }

    /// Learns that all commands up to the receipt's number are durable, unless that number wasn't
    /// sent yet: then nothing is changed.
    pub fn learn(&mut self, receipt: Receipt)
        ensures { self.new ≡ record {
          front = with_receipt self.old.front receipt.number;
          sent = self.old.sent;
        } }
    {
        handed_groups_are_next();
        ahead_stays_ahead();
        let _learnt = self.front.learn(receipt);
        self.front.invariant_holds();
    }

    /// The device failed: from now on no command is accepted.
    pub fn fail(&mut self)
        ensures { self.new ≡ record {
          front = record self.old.front { broken = true };
          sent = self.old.sent;
        } }
    {
        ahead_stays_ahead();
        self.front.fail();
        self.front.invariant_holds();
    }

    /// Takes note of what was seen on the Board: a failure, and what is durable. Changes nothing
    /// else.
    pub fn notice(&mut self, seen: Seen)
        ensures { self.new ≡ record {
          front = with_seen self.old.front seen;
          sent = self.old.sent;
        } }
    {
        self.notice_failure(seen.broken);
        self.learn(seen.receipt);
    }

    fn notice_failure(&mut self, broken: bool)
        ensures { self.new ≡ record {
          front = record self.old.front { broken = broken || self.old.front.broken };
          sent = self.old.sent;
        } }
    {
        if broken {
            self.fail();
        }
    }

    /// From now on no command is accepted.
    pub fn close(&mut self)
        ensures { self.new ≡ record {
          front = record self.old.front { closed = true };
          sent = self.old.sent;
        } }
    {
        ahead_stays_ahead();
        self.front.close();
        self.front.invariant_holds();
    }

    /// Sends the End, and drops the accepted cache. Waits while the channel is full.
    pub fn finish<R: Wait>(self, rt: &R) -> Outgoing<K>
        ensures { result.sent ≡ self.sent ++ End ∷ [] }
    {
        let Handing { mut outgoing, .. } = self;
        outgoing.send(rt, Message::End);
        outgoing
    }
}

/// Accepts a command once all others were handed out, and hands it out.
fn take_out(front: &mut Front, command: Command<'_>) -> Result<(u64, Group), Refusal>
    requires { front.old.unsealed ≡ [] }
    ensures ok { IfOk result
        (λ t. TakesOut front.old (change_asked command.entry) t.0 t.1 front.new) }
    ensures err { OnErr result (front.new ≡ front.old) }
    ensures reason { IfErr result (IsReason front.old (change_asked command.entry)) }
{
    let number = match front.accept(command) {
        Ok(number) => number,
        Err(refusal) => return Err(refusal),
    };
    front.invariant_holds();
    let Some(group) = front.seal() else {
        unreachable!()
    };
    let _first = group.first();
    front.invariant_holds();
    Ok((number, group))
}

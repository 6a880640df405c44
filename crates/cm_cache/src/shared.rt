//! What lies under the lock of a running cache, and the passes through which it is used.

ghost use Rattle.std.specs.Prelude.{◌≡◌, ◌+◌, ◌≤◌, [], true, IfOk, IfErr};
ghost use Rattle.std.specs.Prelude.{OnOk, OnErr, IfSome, length};
ghost use Rattle.std.specs.Option.{option_map};
ghost use Rattle.std.specs.Arc.{arc_value};
ghost use Rattle.cm_group.specs.Groups.{IsRightRecord};
ghost use Rattle.cm_state.specs.State.{words_show, state_of, class_in};
ghost use Rattle.cm_commands.specs.Commands.{change_asked};
ghost use Rattle.cm_front.specs.Accepting.{IsReason};
ghost use Rattle.cm_commands.specs.declared.refusal.Refusal.TheVariants as refusal;
ghost use Rattle.cm_handover.specs.Ahead.{AllFollow};
ghost use Rattle.cm_handover.specs.Folding.{LeadTo};
ghost use Rattle.cm_cache.specs.Channel.{entries_of, number_sent, owned_by, shown_by};
ghost use Rattle.cm_cache.specs.Handing.{rows_sent, HandsOver, SameMarks, with_seen};
ghost use Rattle.cm_cache.specs.Handing.{AreHanded, IsTied};
ghost use Rattle.cm_cache.specs.Board.{HasLookedSince};
ghost use Rattle.cm_cache.specs.Holds.{hold_of, NothingStood, StoodAgainst};
ghost use Rattle.cm_cache.specs.Shared.{counted, held, looked, most_passes, numbers_of};
ghost use Rattle.cm_cache.specs.Shared.{IsNewPass, AreNewPasses};

use crate::board::{Board, Reader};
use crate::board_view::Seen;
use crate::changes::Changes;
use crate::ends::{Outgoing, Witness};
use crate::handing::Handing;
use crate::holds::Holds;
use crate::naming::Naming;
use crate::tally::Tally;
use cm_commands::{Command, Refusal};
use cm_front::Front;
use cm_record::Record;
use std::alloc::{AllocError, Global};
use std::marker::Model;
use std::sync::ledger::{Blank, Book, Share};
use std::sync::{Arc, Wait};

/// With how many passes a cache may be started.
pub const MOST_PASSES: u64 = 65_536;

/// The right to change a running cache. It counts the commands that were accepted through it, and
/// keeps what calls with it saw on the Board.
///
/// Contracts describe it by these, by all changes that were accepted through it, each with its
/// number, by all that it loaded from the Board, and by each hold of the lock.
#[derive(Drop)]
pub struct Pass<K: Naming> {
    share: Share<K>,
    count: u64,
    reader: Reader<K>,
    seen: Seen,
    marked: bool,
    changes: Changes,
    // shows later that these changes were sent, and that their numbers are no other pass's
    witness: Option<Witness<K>>,
    holds: Holds,
}

impl<K: Naming> Model for Pass<K> {
    ghost use Rattle.std.specs.Prelude.{◌≡◌, true, length};
    ghost use Rattle.cm_cache.specs.Channel.{entries_of, owned_by, shown_by};
    ghost use Rattle.cm_cache.specs.Handing.{AreHanded};
    ghost use Rattle.cm_cache.specs.Shared.{PassState, numbers_of, pass_code};

    ghost Value = { PassState };

    ghost coded = { pass_code };

    ghost view = { λ p. record {
      share = p.count;
      seen = p.seen;
      marked = p.marked;
      changes = p.changes.all;
      loads = p.reader.loads;
      holds = p.holds.all;
    } };

    ghost invariant = { λ p.
        (p.share.parts ≡ 1) × (p.share.amount ≡ p.count) × (p.reader.seen ≡ p.seen)
        × (p.marked ≡ true → p.seen.broken ≡ true) × (length p.changes.all ≡ p.count)
        × (owned_by p.witness ≡ numbers_of p.changes.all)
        × AreHanded K.base (entries_of (shown_by p.witness)) p.changes.all };
}

impl<K: Naming> Pass<K> {
    // A new pass, with a part of the book.
    fn new(share: Share<K>, board: &Board<K>) -> Pass<K>
        requires { (share.parts ≡ 1) × (share.amount ≡ 0) }
        ensures { IsNewPass result }
    {
        let mut reader = board.reader();
        let seen = reader.look(board);
        Pass {
            share,
            count: 0,
            reader,
            seen,
            marked: false,
            changes: Changes::none(),
            witness: None,
            holds: Holds::none(),
        }
    }

    /// How many commands were accepted through it.
    pub fn share(&self) -> u64
        ensures { result ≡ self.now.share }
    {
        self.count
    }

    /// What it saw last on the Board.
    pub fn seen(&self) -> Seen
        ensures { result ≡ self.now.seen }
    {
        self.seen
    }

    /// Whether a call with it returned `Unsure`.
    pub fn marked(&self) -> bool
        ensures value { result ≡ self.now.marked }
        ensures broken { result ≡ true → self.now.seen.broken ≡ true }
    {
        self.marked
    }

    /// Reads the Board: the flag first, and then the number. Waits for nobody.
    pub fn look(&mut self, board: &Board<K>) -> Seen
        ensures seen { self.new ≡ looked self.old result }
        ensures number { self.old.seen.receipt.number ≤ result.receipt.number }
    {
        self.seen = self.reader.look(board);
        self.seen
    }

    /// Waits until the command of this number is durable. `Unsure` if the device failed first: then
    /// the pass is marked, and whether the command survives is known once the file is opened again.
    pub fn wait_for<R: Wait>(
        &mut self,
        rt: &R,
        board: &Board<K>,
        number: u64,
    ) -> Result<(), Refusal>
        ensures ok { OnOk result
            ((number ≤ self.new.seen.receipt.number) × (self.new.marked ≡ self.old.marked)) }
        ensures err { IfErr result
            (λ r. (r ≡ refusal.Unsure number) × (self.new.marked ≡ true)) }
        ensures kept { (self.new.share ≡ self.old.share) × (self.new.changes ≡ self.old.changes) }
        ensures holds { self.new.holds ≡ self.old.holds }
        ensures looked { HasLookedSince self.old.loads self.new.seen self.new.loads }
        ensures later { self.old.seen.receipt.number ≤ self.new.seen.receipt.number }
    {
        self.seen = self.reader.wait_for(rt, board, number);
        if self.seen.receipt.number >= number {
            return Ok(());
        }
        self.marked = true;
        Err(Refusal::Unsure(number))
    }

    // Takes it apart: its share of the book, how many commands that is, its reader of the Board,
    // and the witness of its changes.
    pub(crate) fn into_parts(self) -> (Share<K>, u64, Reader<K>, Option<Witness<K>>)
        ensures share { (result.0.parts ≡ 1) × (result.0.amount ≡ self.share) }
        ensures count { result.1 ≡ self.share }
        ensures reader { result.2.seen ≡ self.seen }
        ensures marked { self.marked ≡ true → self.seen.broken ≡ true }
        ensures counted { length self.changes ≡ self.share }
        ensures owned { owned_by result.3 ≡ numbers_of self.changes }
        ensures shown { AreHanded K.base (entries_of (shown_by result.3)) self.changes }
    {
        let Pass {
            share,
            count,
            reader,
            witness,
            ..
        } = self;
        (share, count, reader, witness)
    }
}

/// What lies under the lock: the accepted cache, which sends what it accepts, and the book of what
/// was accepted through all passes, with the part of it that no pass has. Contracts describe it by
/// the cache and all that was sent.
#[derive(Drop)]
pub struct Shared<K: Naming> {
    handing: Handing<K>,
    book: Book<K>,
    rest: Share<K>,
}

impl<K: Naming> Model for Shared<K> {
    ghost use Rattle.std.specs.Prelude.{◌≡◌, ◌+◌, length};
    ghost use Rattle.cm_cache.specs.Channel.{entries_of};
    ghost use Rattle.cm_cache.specs.Handing.{HandingState, handing_code};
    ghost use Rattle.cm_cache.specs.Shared.{most_passes};

    ghost Value = { HandingState };

    ghost coded = { handing_code };

    ghost view = { λ s. s.handing };

    ghost invariant = { λ s.
        (s.book.total ≡ length (entries_of s.handing.sent))
        × (s.rest.parts + K.passes ≡ most_passes) × (s.rest.amount ≡ 0) };
}

impl<K: Naming> Shared<K> {
    /// A cache over whose channel nothing was sent, with the new ledger that K names, and all its
    /// passes.
    pub fn new(
        alloc: Global,
        handing: Handing<K>,
        blank: Blank,
        board: &Board<K>,
        passes: u64,
    ) -> Result<(Shared<K>, Vec<Pass<K>>), AllocError>
        requires sent { handing.sent ≡ [] }
        requires name { blank.name ≡ K.name }
        requires parts { (blank.parts ≡ K.parts) × (K.parts ≡ most_passes) }
        requires passes { (passes ≡ K.passes) × (K.passes ≤ most_passes) }
        ensures shared { IfOk result (λ r. r.0 ≡ handing) }
        ensures passes { IfOk result (λ r. AreNewPasses K.passes r.1.items) }
    {
        let (book, mut rest) = blank.open::<K>();
        let passes = new_passes(alloc, &mut rest, board, passes)?;
        let shared = Shared {
            handing,
            book,
            rest,
        };
        Ok((shared, passes))
    }

    /// The accepted cache. Its rows are those after all that was sent.
    pub fn front(&self) -> &Front
        ensures value { result.now ≡ self.now.front }
        ensures rows { self.now.front.rows ≡ rows_sent K.base self.now.sent }
        ensures number { self.now.front.number ≡ number_sent K.base self.now.sent }
    {
        self.handing.front()
    }

    /// Does nothing: its clause says how the accepted cache matches what was sent. That is what the
    /// cache has learnt to be durable, followed by the entries by which it is ahead of that: no
    /// chunk has a free word that the rows use after any of these.
    pub fn state(&self)
        ensures { IsTied K.base self.now }
    {
        self.handing.state();
    }

    /// Changes nothing: its clauses say that each command that was sent follows those before it,
    /// and that the map of the accepted cache is the fold of them all over what was opened.
    pub fn fold(&mut self)
        ensures same { self.new ≡ self.old }
        ensures follow { AllFollow K.base.sizes K.base.rows K.base.number
            (entries_of self.old.sent) }
        ensures leads { LeadTo K.base.sizes K.base.rows K.base.number (entries_of self.old.sent)
            (state_of words_show self.old.front.rows) }
    {
        self.handing.fold();
    }

    /// The record of the class of a name in the loader of a name, as accepted, whether or not it is
    /// durable.
    pub fn find(
        &self,
        loader: &[u8],
        class: &[u8],
    ) -> Result<Option<Arc<Record, Global>>, AllocError>
        ensures found { IfOk result (λ found. option_map arc_value found
            ≡ class_in (state_of words_show (rows_sent K.base self.now.sent)) loader.now
            class.now) }
        ensures right { IfOk result (λ found. IfSome found (λ r. IsRightRecord (arc_value r))) }
    {
        match self.front().find(loader, class) {
            Some(record) => Ok(Some(record.clone()?)),
            None => Ok(None),
        }
    }

    /// Closes the cache: from now on no command is accepted.
    pub fn stop(&mut self)
        ensures { self.new ≡ record self.old { front = record self.old.front { closed = true } } }
    {
        self.handing.close();
    }

    /// What a changing call does while it holds the lock: it learns what was seen on the Board,
    /// accepts the command and sends it, and does nothing else. A refused command is dropped, and
    /// only what was seen stays. Waits while the channel is full.
    ///
    /// The refusals are those of `Front::accept`.
    pub fn hold<R: Wait>(
        &mut self,
        rt: &R,
        pass: &mut Pass<K>,
        seen: Seen,
        command: Command<'_>,
    ) -> Result<u64, Refusal>
        ensures accepted { IfOk result
            (λ n. HandsOver K.base self.old.sent (change_asked command.entry) n self.new.sent) }
        ensures counted { IfOk result (λ n. pass.new
            ≡ counted (held pass.old seen self.old.front) (change_asked command.entry) n) }
        ensures refused { OnErr result
            ((self.new ≡ record self.old { front = with_seen self.old.front seen })
            × (pass.new ≡ held pass.old seen self.old.front)) }
        ensures reason { IfErr result (IsReason self.new.front (change_asked command.entry)) }
        ensures stood { IfErr result
            (StoodAgainst (hold_of seen self.old.front) (change_asked command.entry)) }
        ensures fits { IfOk result
            (NothingStood (hold_of seen self.old.front) (change_asked command.entry)) }
        ensures noticed { SameMarks (with_seen self.old.front seen) self.new.front }
    {
        self.note(pass, seen);
        self.handing.notice(seen);
        self.book.audit(&mut pass.share);
        let next = self.handing.front().number() + 1;
        let changes = pass.changes.one_more(&command, &next);
        let number = match self.handing.hand_over(rt, command, &mut pass.witness) {
            Ok(number) => number,
            Err(refusal) => return Err(refusal),
        };
        self.book.add(&mut pass.share, 1);
        pass.count += 1;
        pass.changes = changes;
        Ok(number)
    }

    // Notes that the lock is held for a change through this pass.
    fn note(&self, pass: &mut Pass<K>, seen: Seen)
        ensures { pass.new ≡ held pass.old seen self.now.front }
    {
        pass.holds = pass.holds.one_more(&seen, self.handing.front());
    }

    /// Sends the End, and drops the accepted cache. What stays is the channel's end, and the tally,
    /// to which `passes` passes come back. Waits while the channel is full.
    pub(crate) fn finish<R: Wait>(self, rt: &R, opened: u64, passes: u64) -> (Outgoing<K>, Tally<K>)
        requires opened { opened ≡ K.base.number }
        requires passes { passes ≡ K.passes }
        ensures handed { result.1.handed ≡ length (entries_of result.0.sent) }
        ensures missing { result.1.missing ≡ K.passes }
        ensures none { result.1.of_passes ≡ 0 }
    {
        let handed = self.front().number() - opened;
        let Shared {
            handing,
            book,
            rest,
        } = self;
        let outgoing = handing.finish(rt);
        (outgoing, Tally::new(book, rest, handed, passes))
    }
}

// As many passes as this, each with a part of the share.
fn new_passes<K: Naming>(
    alloc: Global,
    share: &mut Share<K>,
    board: &Board<K>,
    count: u64,
) -> Result<Vec<Pass<K>>, AllocError>
    requires parts { count ≤ share.old.parts }
    requires amount { share.old.amount ≡ 0 }
    ensures passes { IfOk result (λ v. AreNewPasses count v.items) }
    ensures parts { OnOk result (share.new.parts + count ≡ share.old.parts) }
    ensures amount { OnOk result (share.new.amount ≡ 0) }
{
    let mut passes = Vec::new(alloc);
    while (passes.len() as u64) < count {
        passes.push(Pass::new(share.split_off(1, 0), board))?;
    }
    Ok(passes)
}

//! An accepted cache over its disk.

ghost use Rattle.std.specs.Prelude.{◌≡◌, ◌||◌, None, Some, [], Err, false, IsOk};
ghost use Rattle.std.specs.Option.{option_map};
ghost use Rattle.std.specs.Arc.{arc_value};
ghost use Rattle.cm_guards.specs.Guards.{EachImage};
ghost use Rattle.cm_guards.specs.Calls.{LeavesOnly};
ghost use Rattle.cm_layout.specs.Laws.{IsNewest};
ghost use Rattle.cm_commands.specs.Commands.{change_asked};
ghost use Rattle.cm_front.specs.Accepting.{FrontAnswers};
ghost use Rattle.cm_commit.specs.Advances.{CallsDevice, EndsBehind, HasRisen};
ghost use Rattle.cm_commit.specs.States.{BeginsTrim, NoGroup, ShowsCommitted};
ghost use Rattle.cm_commands.specs.Machine.{Machine};
ghost use Rattle.cm_handover.specs.Laws.{Finds};
ghost use Rattle.cm_session.specs.Images.{StandsForSome};
ghost use Rattle.cm_session.specs.Moves.{SessionMatches, ReachesMachine, Accepting, Sealing};
ghost use Rattle.cm_session.specs.Moves.{Queues, Advancing};
ghost use Rattle.cm_session.specs.Moves.{Learns, IsAsked, IsNoCall, is_device, MayTake, Steps};
ghost use Rattle.cm_session.specs.Moves.{HasPast, PastGrows, just_learnt, unstored};
ghost use Rattle.cm_session.specs.Session.{Past};

use crate::joining::join_queued;
use crate::queue::Queue;
use cm_commands::{Command, Prepared, Refusal};
use cm_commit::{AdvanceFault, Committer, NotIdle, Progress};
use cm_disk::{Disk, SimDisk};
use cm_front::Front;
use cm_group::Receipt;
use cm_handover::{
    ahead_stays_ahead, commands_follow_the_machine, committed_rows_are_the_machines,
    handed_groups_are_next,
};
use cm_pool::Geometry;
use cm_record::Record;
use cm_rows::LiveRows;
use std::alloc::{AllocError, Global};
use std::sync::Arc;

/// The commands that were handed out as a group, by their numbers.
#[derive(Clone, Copy, Debug, PartialEq, Eq)]
pub struct Sealed {
    pub first: u64,
    pub last: u64,
}

/// An accepted cache, the committer of its disk, and the groups that the cache handed out and the
/// committer hasn't taken yet.
///
/// Contracts say what each call means for the abstract machine, for any machine that the session
/// matched before it.
pub struct Session<D: Disk> {
    pub(crate) front: Front,
    pub(crate) committer: Committer<D>,
    /// The groups that the committer hasn't taken yet.
    pub(crate) queue: Queue,
    /// The number of the last command that was handed out.
    pub(crate) sealed: u64,
    pub(crate) has_failed: bool,
}

// Brings into a proof's scope which change of classes a command requests.
fn look_at(command: &Command<'_>)
    ensures { IsAsked (change_asked command.now) }
{
    match command {
        Command::AddLoader(_) => {}
        Command::Define(_, class) => {
            class.record().invariant_holds();
        }
        Command::Unload(_) => {}
        Command::Tighten(_) => {}
        Command::UnloadAll(_) => {}
    }
}

/// Whether the device has failed by now, before this call or in it.
fn has_failed(before: bool, progress: &Result<Progress, AdvanceFault>) -> bool
    ensures { result ≡ before || is_device progress.now }
{
    match progress {
        Err(AdvanceFault::Device) => true,
        Err(AdvanceFault::Broken) => before,
        Ok(_) => before,
    }
}

impl<D: Disk> Session<D> {
    /// The sizes of the region.
    pub fn geometry(&self) -> Geometry
        ensures { result ≡ self.now.committer.sizes }
    {
        self.committer.geometry()
    }

    /// Accepts a command and gives it the next number, or refuses it, exactly as [`Front::accept`]
    /// does. The disk isn't touched.
    pub fn accept(&mut self, command: Command<'_>) -> Result<u64, Refusal>
        ensures machine { (k : Machine) → SessionMatches k self.old
            → Accepting self.old.committer.sizes k (change_asked command.entry) result
            (λ next. SessionMatches next self.new) }
        ensures as_front { FrontAnswers self.old.front (change_asked command.entry) result
            self.new.front }
        ensures past { (k : Machine) (p : Past) → SessionMatches k self.old → HasPast p self.old
            → HasPast p self.new }
        ensures disk { self.new.committer ≡ self.old.committer }
    {
        commands_follow_the_machine();
        ahead_stays_ahead();
        look_at(&command);
        let number = self.front.accept(command);
        self.front.invariant_holds();
        number
    }

    /// Hands out the oldest group of accepted commands, with what was learnt by now; it waits until
    /// the committer takes it. `None` if all commands were handed out. `Err` if an allocation
    /// failed: the commands then still wait; nothing is allocated if all that was handed out is
    /// stored. The disk isn't touched.
    pub fn seal(&mut self) -> Result<Option<Sealed>, AllocError>
        ensures machine { (k : Machine) → SessionMatches k self.old
            → ReachesMachine (Sealing k result) (λ next. SessionMatches next self.new) }
        ensures queued { Queues self.old.front self.old.queue.groups.items result self.new.front
            self.new.queue.groups.items }
        ensures place { (k : Machine) → SessionMatches k self.old → k.acknowledged ≡ k.sealed
            → IsOk result }
        ensures past { (k : Machine) (p : Past) → SessionMatches k self.old → HasPast p self.old
            → HasPast p self.new }
        ensures disk { self.new.committer ≡ self.old.committer }
    {
        committed_rows_are_the_machines();
        ahead_stays_ahead();
        if self.queue.groups.reserve(1).is_err() {
            // If all commands were handed out, no place is needed.
            return if self.front.number() == self.sealed {
                Ok(None)
            } else {
                Err(AllocError)
            };
        }
        let Some(group) = self.front.seal() else {
            return Ok(None);
        };
        self.front.invariant_holds();
        let first = group.first();
        let last = first + (group.count() as u64 - 1);
        self.queue.groups.push_back_reserved(group);
        self.sealed = last;
        Ok(Some(Sealed { first, last }))
    }

    /// If nothing is under way, lets the committer take the oldest waiting group, with as many of
    /// those after it as one group holds.
    fn offer_next(&mut self)
        ensures machine { (k : Machine) → SessionMatches k self.old → SessionMatches k self.new }
        ensures taken { (k : Machine) → SessionMatches k self.old → self.new.has_failed ≡ false
            → self.new.committer.underway ≡ None → self.new.queue.groups.items ≡ [] }
        ensures disk { self.new.committer.disk ≡ self.old.committer.disk }
        ensures sizes { self.new.committer.sizes ≡ self.old.committer.sizes }
        ensures takes { MayTake D.view self.new.queue.groups.items self.old.committer
            self.new.committer }
        ensures unstored { (k : Machine) → SessionMatches k self.old
            → unstored self.new ≡ unstored self.old }
        ensures past { (k : Machine) (p : Past) → SessionMatches k self.old → HasPast p self.old
            → HasPast p self.new }
        ensures accepted { self.new.front ≡ self.old.front }
    {
        handed_groups_are_next();
        if self.has_failed {
            return;
        }
        if self.committer.steps_left() > 0 {
            return;
        }
        let Some(group) = self.queue.groups.pop_front() else {
            return;
        };
        let group = join_queued(group, &mut self.queue.groups);
        let _taken = self.committer.offer(group); // it is the next group, so it is taken
    }

    /// Makes the next device call, as [`Committer::advance`] does. If nothing is under way, the
    /// committer first takes the oldest waiting group.
    pub fn advance(&mut self) -> Result<Progress, AdvanceFault>
        ensures machine { (k : Machine) → SessionMatches k self.old
            → ReachesMachine (Advancing k result) (λ next. SessionMatches next self.new) }
        ensures any_moment { (k : Machine) → SessionMatches k self.old
            → LeavesOnly D.view self.old.committer.disk self.new.committer.disk
            (StandsForSome self.old.committer.sizes k) }
        ensures cause { HasRisen (D.view.failures self.old.committer.disk)
            (D.view.failures self.new.committer.disk) result }
        ensures call { CallsDevice D.called self.old.committer.disk result
            self.new.committer.disk }
        ensures no_call { IsNoCall result → self.new.committer.disk ≡ self.old.committer.disk }
        ensures sizes { self.new.committer.sizes ≡ self.old.committer.sizes }
        ensures steps { Steps D.view self.new.queue.groups.items self.old.committer result
            self.new.committer }
        ensures past { (k : Machine) (p : Past) → SessionMatches k self.old → HasPast p self.old
            → PastGrows p self.old self.new }
        ensures accepted { self.new.front ≡ self.old.front }
        ensures trimmed { EndsBehind self.new.committer.sizes
            (D.view.contents self.new.committer.disk) (D.view.unsynced self.new.committer.disk)
            result }
    {
        committed_rows_are_the_machines();
        handed_groups_are_next();
        self.offer_next();
        let progress = self.committer.advance();
        self.has_failed = has_failed(self.has_failed, &progress);
        progress
    }

    /// Begins to truncate the file after the last root that committed rows use, by the next two
    /// device calls. As [`Committer::trim`].
    pub fn trim(&mut self) -> Result<bool, NotIdle>
        ensures machine { (k : Machine) → SessionMatches k self.old → SessionMatches k self.new }
        ensures sound { (k : Machine) → SessionMatches k self.old → IsOk result → k.failed ≡ false }
        ensures as_committer { BeginsTrim D.view self.old.committer result
            self.new.committer }
        ensures past { (p : Past) → HasPast p self.old → HasPast p self.new }
        ensures accepted { self.new.front ≡ self.old.front }
        ensures disk { self.new.committer.disk ≡ self.old.committer.disk }
        ensures sizes { self.new.committer.sizes ≡ self.old.committer.sizes }
    {
        self.committer.trim()
    }

    /// Once the device failed, no command is accepted any more.
    fn notice(&mut self)
        ensures { self.new ≡ record self.old {
          front = record self.old.front { broken = self.old.front.broken || self.old.has_failed };
        } }
    {
        if self.has_failed {
            self.front.fail();
        }
    }

    /// Lets the accepted cache learn which commands are durable, so that the chunks that wait for
    /// them are freed, and returns the number of the last of them. If the device failed, no command
    /// is accepted any more.
    pub fn learn(&mut self) -> u64
        ensures machine { (k : Machine) → SessionMatches k self.old
            → ReachesMachine (Learns k result) (λ next. SessionMatches next self.new) }
        ensures told { (k : Machine) → SessionMatches k self.old
            → self.new.front.learnt ≡ self.new.committer.number }
        ensures past { (k : Machine) → SessionMatches k self.old
            → HasPast (just_learnt self.new) self.new }
        ensures disk { self.new.committer ≡ self.old.committer }
    {
        ahead_stays_ahead();
        self.notice();
        let number = self.committer.number();
        let _known = self.front.learn(Receipt { number }); // it was handed out
        self.front.invariant_holds();
        number
    }

    /// The record of the class of a name in the loader of a name, as accepted, whether or not it is
    /// durable.
    pub fn find(&self, loader: &[u8], class: &[u8]) -> Option<&Arc<Record, Global>>
        ensures { (k : Machine) → SessionMatches k self.now
            → Finds self.now.committer.sizes k loader.now class.now
            (option_map (λ r. arc_value r.now) result) }
    {
        commands_follow_the_machine();
        self.front.find(loader, class)
    }

    /// The accepted loaders and classes by their rows, each class with its record.
    pub fn rows(&self) -> &LiveRows<Prepared>
        ensures { result.now.rows ≡ self.now.front.rows }
    {
        self.front.rows()
    }

    /// Does nothing: its clause says what a crash leaves now. That is all commands that were
    /// acknowledged, and none that wasn't handed out.
    pub fn images(&self)
        ensures { (k : Machine) → SessionMatches k self.now
            → EachImage (D.view.contents self.now.committer.disk)
            (D.view.unsynced self.now.committer.disk)
            (StandsForSome self.now.committer.sizes k) }
    {
        committed_rows_are_the_machines();
        self.committer.images();
    }

    /// Does nothing: its clause says that while no group is stored, whatever a crash leaves now
    /// shows what is committed.
    pub fn committed(&self)
        ensures { NoGroup self.now.committer.underway
            → EachImage (D.view.contents self.now.committer.disk)
            (D.view.unsynced self.now.committer.disk) (ShowsCommitted self.now.committer) }
    {
        self.committer.images();
    }

    /// Does nothing: its clause says that whatever a crash leaves now, the half that counts in it
    /// is of the version that is written now.
    pub fn versions(&self)
        ensures { EachImage (D.view.contents self.now.committer.disk)
            (D.view.unsynced self.now.committer.disk) IsNewest }
    {
        self.committer.versions();
    }

    /// The number of the last command that is acknowledged.
    pub fn number(&self) -> u64
        ensures { result ≡ self.now.committer.number }
    {
        self.committer.number()
    }

    /// The disk, to look at.
    pub fn disk(&self) -> &D
        ensures { result.now ≡ self.now.committer.disk }
    {
        self.committer.disk()
    }

    /// The disk, as it is now.
    pub fn into_disk(self) -> D
        ensures { result ≡ self.committer.disk }
    {
        let Session {
            front: _front,
            committer,
            queue: _queue,
            sealed: _,
            has_failed: _,
        } = self;
        committer.into_disk()
    }
}

impl Session<SimDisk> {
    /// Makes the disk's next call fail; if that is a write, it stores its first `stores` bytes.
    pub fn arm(&mut self, stores: usize)
        ensures disk { self.new.committer ≡ record self.old.committer {
          disk = record self.old.committer.disk { armed = Some stores };
        } }
        ensures machine { (k : Machine) → SessionMatches k self.old → SessionMatches k self.new }
        ensures past { (p : Past) → HasPast p self.old → HasPast p self.new }
    {
        self.committer.arm(stores);
    }

    /// Lets the disk's next call succeed.
    pub fn disarm(&mut self)
        ensures disk { self.new.committer ≡ record self.old.committer {
          disk = record self.old.committer.disk { armed = None };
        } }
        ensures machine { (k : Machine) → SessionMatches k self.old → SessionMatches k self.new }
        ensures past { (p : Past) → HasPast p self.old → HasPast p self.new }
    {
        self.committer.disarm();
    }
}

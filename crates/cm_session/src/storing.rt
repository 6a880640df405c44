//! Stores one command after another: each is durable before the next is accepted.

ghost use Rattle.std.specs.Prelude.{◌≡◌, true, Err};
ghost use Rattle.cm_guards.specs.Calls.{LeavesOnly};
ghost use Rattle.cm_commands.specs.Commands.{change_asked};
ghost use Rattle.cm_front.specs.Accepting.{IsReason};
ghost use Rattle.cm_commit.specs.Advances.{HasRisen};
ghost use Rattle.cm_commands.specs.Machine.{Machine};
ghost use Rattle.cm_session.specs.Images.{StandsForSome};
ghost use Rattle.cm_session.specs.Moves.{SessionMatches, ReachesMachine, Advancing};
ghost use Rattle.cm_session.specs.Moves.{HasPast};
ghost use Rattle.cm_session.specs.Session.{Past};
ghost use Rattle.cm_session.specs.Storing.{IsWorking, IsAtRest, Storing, FailsOnly, MakesNoCall};
ghost use Rattle.cm_session.specs.Storing.{TellsFront, HasTrimmed, NoTrim, past_told};
ghost use Rattle.cm_session.specs.Storing.{refusal_told};

use crate::session::Session;
use cm_commands::{Command, Refusal};
use cm_commit::{AdvanceFault, Progress};
use cm_disk::Disk;
use thiserror::Error;

/// Why a command isn't known to be durable, with the text of the refusal that reports it.
#[derive(Clone, Copy, Debug, PartialEq, Eq, Error)]
#[error("{refusal}", refusal = Refusal::from(*self))]
pub enum NotStored {
    /// The command is refused; nothing changed.
    Refused(Refusal),
    /// The device failed while the command of this number was being stored: the file may or may not
    /// hold it. No further command is accepted.
    Unsure(u64),
}

impl From<NotStored> for Refusal {
    ghost from_gives = { λ fault refusal. refusal ≡ refusal_told fault };

    fn from(fault: NotStored) -> Refusal {
        match fault {
            NotStored::Refused(refusal) => refusal,
            NotStored::Unsure(number) => Refusal::Unsure(number),
        }
    }
}

fn is_working(progress: &Result<Progress, AdvanceFault>) -> bool
    ensures is { result ≡ true → IsWorking progress.now }
    ensures whenever { IsWorking progress.now → result ≡ true }
{
    matches!(progress, Ok(Progress::Working))
}

fn is_trimmed(progress: &Result<Progress, AdvanceFault>) -> bool
    ensures is { result ≡ true → HasTrimmed progress.now }
    ensures whenever { HasTrimmed progress.now → result ≡ true }
{
    matches!(progress, Ok(Progress::Trimmed(_)))
}

impl<D: Disk> Session<D> {
    /// Makes device calls until a group is stored, a trim is done, the device fails, or nothing is
    /// left to do.
    fn advance_work(&mut self) -> Result<Progress, AdvanceFault>
        ensures machine { (k : Machine) → SessionMatches k self.old
            → ReachesMachine (Advancing k result) (λ next. SessionMatches next self.new) }
        ensures ends { IsWorking result → ⊥ }
        ensures any_moment { (k : Machine) → SessionMatches k self.old
            → LeavesOnly D.view self.old.committer.disk self.new.committer.disk
            (StandsForSome self.old.committer.sizes k) }
        ensures cause { HasRisen (D.view.failures self.old.committer.disk)
            (D.view.failures self.new.committer.disk) result }
        ensures sizes { self.new.committer.sizes ≡ self.old.committer.sizes }
        ensures stays { NoTrim self.old.committer.underway → HasTrimmed result → ⊥ }
        ensures trimmed { HasTrimmed result → NoTrim self.new.committer.underway }
    {
        let mut progress = self.advance();
        while is_working(&progress) {
            progress = self.advance();
        }
        progress
    }

    /// Makes device calls until a group is stored, the device fails, or nothing is left to do.
    pub(crate) fn advance_group(&mut self) -> Result<Progress, AdvanceFault>
        ensures machine { (k : Machine) → SessionMatches k self.old
            → ReachesMachine (Advancing k result) (λ next. SessionMatches next self.new) }
        ensures ends { IsWorking result → ⊥ }
        ensures past_trims { HasTrimmed result → ⊥ }
        ensures any_moment { (k : Machine) → SessionMatches k self.old
            → LeavesOnly D.view self.old.committer.disk self.new.committer.disk
            (StandsForSome self.old.committer.sizes k) }
        ensures cause { HasRisen (D.view.failures self.old.committer.disk)
            (D.view.failures self.new.committer.disk) result }
        ensures sizes { self.new.committer.sizes ≡ self.old.committer.sizes }
    {
        let progress = self.advance_work();
        if is_trimmed(&progress) {
            return self.advance_work();
        }
        progress
    }

    /// Accepts a command and stores it: after `Ok`, with its number, no crash loses it any more.
    ///
    /// A refusal is exactly that of [`Front::accept`](cm_front::Front::accept).
    ///
    /// This is for a session in which everything accepted is durable, as it is when it was just
    /// opened, and as it is again after an `Ok` or a refusal. If groups wait, the allocation for
    /// one more may fail too: that is `Unsure`, and the command waits.
    pub fn store(&mut self, command: Command<'_>) -> Result<u64, NotStored>
        ensures machine { (k : Machine) → SessionMatches k self.old → IsAtRest k
            → Storing self.old.committer.sizes k (change_asked command.entry)
            (LeavesOnly D.view self.old.committer.disk self.new.committer.disk)
            result (λ next. SessionMatches next self.new) }
        ensures cause { (k : Machine) → SessionMatches k self.old → IsAtRest k
            → FailsOnly (D.view.failures self.old.committer.disk)
            (D.view.failures self.new.committer.disk)
            result }
        ensures told { (k : Machine) → SessionMatches k self.old → IsAtRest k
            → TellsFront self.old result self.new }
        ensures refused { (refusal : Refusal) → result ≡ Err (NotStored.Refused refusal)
            → IsReason self.old.front (change_asked command.entry) refusal }
        ensures past { (k : Machine) (p : Past) → SessionMatches k self.old → IsAtRest k
            → HasPast p self.old → HasPast (past_told p result self.new) self.new }
        ensures no_call { MakesNoCall result → self.new.committer ≡ self.old.committer }
        ensures sizes { self.new.committer.sizes ≡ self.old.committer.sizes }
    {
        let number = match self.accept(command) {
            Ok(number) => number,
            Err(refusal) => return Err(NotStored::Refused(refusal)),
        };
        if self.seal().is_err() {
            return Err(NotStored::Unsure(number));
        }
        let progress = self.advance_group();
        self.learn();
        match progress {
            Ok(_) => Ok(number),
            Err(_) => Err(NotStored::Unsure(number)),
        }
    }
}

//! All commands that were accepted, stored in as few groups as hold them.

ghost use Rattle.std.specs.Prelude.{◌≡◌, false};
ghost use Rattle.cm_guards.specs.Calls.{LeavesOnly};
ghost use Rattle.cm_commands.specs.Machine.{Machine};
ghost use Rattle.cm_session.specs.Images.{StandsForSome};
ghost use Rattle.cm_session.specs.Moves.{SessionMatches, ReachesMachine, HasPast, just_learnt};
ghost use Rattle.cm_session.specs.Committing.{IsCaughtUp, all_handed, StoresHanded, Commits};
ghost use Rattle.cm_session.specs.Committing.{CommitsUnlearnt, TellsFailure};

use crate::session::Session;
use cm_disk::{DeviceFault, Disk};
use cm_handover::committed_rows_are_the_machines;

impl<D: Disk> Session<D> {
    /// Makes device calls until all that was handed out is stored.
    fn store_handed(&mut self) -> Result<(), DeviceFault>
        ensures machine { (k : Machine) → SessionMatches k self.old → k.failed ≡ false
            → ReachesMachine (StoresHanded k result) (λ next. SessionMatches next self.new) }
        ensures any_moment { (k : Machine) → SessionMatches k self.old
            → k.failed ≡ false
            → LeavesOnly D.view self.old.committer.disk self.new.committer.disk
            (StandsForSome self.old.committer.sizes k) }
        ensures cause { (k : Machine) → SessionMatches k self.old → k.failed ≡ false
            → TellsFailure (D.view.failures self.old.committer.disk)
            (D.view.failures self.new.committer.disk) result }
        ensures sizes { self.new.committer.sizes ≡ self.old.committer.sizes }
    {
        self.images(); // so the proof knows what a crash leaves now
        // Each group that is stored raises the number by one at least.
        'groups: for _ in self.committer.number()..self.sealed {
            if self.advance_group().is_err() {
                return Err(DeviceFault);
            }
        }
        Ok(())
    }

    /// Hands out and stores one group after another, until all that was accepted is stored.
    fn store_groups(&mut self) -> Result<(), DeviceFault>
        ensures machine { (k : Machine) → SessionMatches k self.old → IsCaughtUp k
            → ReachesMachine (CommitsUnlearnt k result) (λ next. SessionMatches next self.new) }
        ensures any_moment { (k : Machine) → SessionMatches k self.old → IsCaughtUp k
            → LeavesOnly D.view self.old.committer.disk self.new.committer.disk
            (StandsForSome self.old.committer.sizes (all_handed k)) }
        ensures cause { (k : Machine) → SessionMatches k self.old → IsCaughtUp k
            → TellsFailure (D.view.failures self.old.committer.disk)
            (D.view.failures self.new.committer.disk) result }
        ensures sizes { self.new.committer.sizes ≡ self.old.committer.sizes }
    {
        committed_rows_are_the_machines();
        self.images(); // so the proof knows what a crash leaves now
        // Each group that is handed out has one command at least.
        'groups: for _ in self.sealed..self.front.number() {
            let _waits = self.seal().is_err(); // no group waits, so there is a place for one
            if self.store_handed().is_err() {
                return Err(DeviceFault);
            }
        }
        Ok(())
    }

    /// Stores all that was accepted, in as few groups as hold it: at `Ok`, no crash loses any of it
    /// any more. At `Err` the device failed: the file holds a beginning of it, and no further
    /// command is accepted.
    ///
    /// For a session in which everything that was handed out is stored, as it is when it was
    /// opened, and as it is again after an `Ok`.
    pub fn commit(&mut self) -> Result<(), DeviceFault>
        ensures machine { (k : Machine) → SessionMatches k self.old → IsCaughtUp k
            → ReachesMachine (Commits k result) (λ next. SessionMatches next self.new) }
        ensures any_moment { (k : Machine) → SessionMatches k self.old → IsCaughtUp k
            → LeavesOnly D.view self.old.committer.disk self.new.committer.disk
            (StandsForSome self.old.committer.sizes (all_handed k)) }
        ensures cause { (k : Machine) → SessionMatches k self.old → IsCaughtUp k
            → TellsFailure (D.view.failures self.old.committer.disk)
            (D.view.failures self.new.committer.disk) result }
        ensures past { (k : Machine) → SessionMatches k self.old → IsCaughtUp k
            → HasPast (just_learnt self.new) self.new }
        ensures sizes { self.new.committer.sizes ≡ self.old.committer.sizes }
    {
        let stored = self.store_groups();
        self.learn();
        stored
    }
}

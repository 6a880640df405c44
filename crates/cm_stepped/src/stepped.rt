//! A session whose device calls are made by its caller, one a step.

ghost use Rattle.std.specs.Prelude.{◌≡◌, ◌⊎◌, true, false, None, Err, IsErr, IsSome, IsNone};
ghost use Rattle.std.specs.Prelude.{IfSome};
ghost use Rattle.std.specs.Option.{option_map};
ghost use Rattle.std.specs.Arc.{arc_value};
ghost use Rattle.cm_front.specs.Accepting.{FrontAnswers};
ghost use Rattle.cm_guards.specs.Guards.{EachImage};
ghost use Rattle.cm_commands.specs.Commands.{change_asked};
ghost use Rattle.cm_commands.specs.Machine.{Machine};
ghost use Rattle.cm_commands.specs.declared.refusal.Refusal.TheVariants as refusal;
ghost use Rattle.cm_handover.specs.Laws.{Finds};
ghost use Rattle.cm_session.specs.Images.{StandsForSome};
ghost use Rattle.cm_session.specs.Moves.{Accepting, ReachesMachine};
ghost use Rattle.cm_stepped.specs.Stepping.{SteppedMatches, HandsOut, Asks, AsksNext, Makes, Steps};
ghost use Rattle.cm_stepped.specs.Stepping.{AsksNone, rests, is_last, is_idle};

use crate::step::{Broken, Step};
use cm_commands::{Command, Prepared, Refusal};
use cm_commit::Progress;
use cm_disk::Disk;
use cm_pool::Geometry;
use cm_record::Record;
use cm_rows::LiveRows;
use cm_session::Session;
use std::alloc::Global;
use std::sync::Arc;

/// A session over a disk that notes its calls, which the caller makes: one is asked for in a step,
/// and the next step is told whether it was made. The session is one call ahead of what was told.
///
/// A number is reported as stored only by a step that is told that the last call of its group was
/// made. So the calls that were made are at each moment a beginning of those that the session's own
/// disk made, and a crash leaves what a crash of that disk leaves.
///
/// Contracts speak of the machine as the caller knows it: what was reported to it as stored is
/// acknowledged there.
pub struct SteppedSession<D: Disk> {
    pub(crate) session: Session<D>,
    /// What the session returned as it noted the call that is asked for.
    pub(crate) asked: Option<Progress>,
    /// The number of the last command that was accepted.
    pub(crate) accepted: u64,
    /// The number of the last command that is known to be stored.
    pub(crate) stored: u64,
    pub(crate) is_broken: bool,
}

impl<D: Disk> SteppedSession<D> {
    /// The sizes of the region.
    pub fn geometry(&self) -> Geometry
        ensures { result ≡ self.now.session.committer.sizes }
    {
        self.session.geometry()
    }

    /// The number of the last command that was accepted.
    pub fn accepted(&self) -> u64
        ensures { result ≡ self.now.accepted }
    {
        self.accepted
    }

    /// The number of the last command that is known to be stored.
    pub fn stored(&self) -> u64
        ensures { result ≡ self.now.stored }
    {
        self.stored
    }

    /// The disk, while a call is asked for: it noted that call last. `None` if no call is to be
    /// made.
    pub fn noted(&self) -> Option<&D>
        ensures some { IfSome result (λ d. (d.now ≡ self.now.session.committer.disk)
            × (self.now.is_broken ≡ false) × IsSome self.now.asked) }
        ensures none { IsNone result → (self.now.is_broken ≡ true) ⊎ (self.now.asked ≡ None) }
    {
        if self.is_broken {
            return None;
        }
        match self.asked {
            Some(_) => Some(self.session.disk()),
            None => None,
        }
    }

    /// Accepts a command and gives it the next number, or refuses it, exactly as
    /// [`Session::accept`] does. Once a call wasn't made, each command is refused as
    /// [`Refusal::Broken`]. Nothing is stored yet, and no call is noted.
    pub fn accept(&mut self, command: Command<'_>) -> Result<u64, Refusal>
        ensures machine { (k : Machine) → SteppedMatches k self.old → self.old.is_broken ≡ false
            → Accepting self.old.session.committer.sizes k (change_asked command.entry) result
            (λ next. SteppedMatches next self.new) }
        ensures as_front { self.old.is_broken ≡ false → FrontAnswers self.old.session.front
            (change_asked command.entry) result self.new.session.front }
        ensures broken { self.old.is_broken ≡ true
            → (result ≡ Err refusal.Broken) × (self.new ≡ self.old) }
        ensures disk { self.new.session.committer ≡ self.old.session.committer }
        ensures asked { (self.new.asked ≡ self.old.asked) × (self.new.stored ≡ self.old.stored)
            × (self.new.is_broken ≡ self.old.is_broken) }
    {
        if self.is_broken {
            return Err(Refusal::Broken);
        }
        match self.session.accept(command) {
            Ok(number) => {
                self.accepted = number;
                Ok(number)
            }
            Err(refusal) => Err(refusal),
        }
    }

    /// The record of the class of a name in the loader of a name, as accepted, whether or not it is
    /// stored.
    pub fn find(&self, loader: &[u8], class: &[u8]) -> Option<&Arc<Record, Global>>
        ensures { (k : Machine) → SteppedMatches k self.now
            → Finds self.now.session.committer.sizes k loader.now class.now
            (option_map (λ r. arc_value r.now) result) }
    {
        self.session.find(loader, class)
    }

    /// The accepted loaders and classes by their rows, each class with its record.
    pub fn rows(&self) -> &LiveRows<Prepared>
        ensures { result.now.rows ≡ self.now.session.front.rows }
    {
        self.session.rows()
    }

    /// Hands out the oldest group of accepted commands, once all that was handed out is stored.
    fn hand_out(&mut self)
        requires { self.old.asked ≡ None }
        ensures machine { (k : Machine) → SteppedMatches k self.old → k.acknowledged ≡ k.sealed
            → ReachesMachine (HandsOut k) (λ next. SteppedMatches next self.new) }
        ensures disk { self.new.session.committer ≡ self.old.session.committer }
        ensures same { (self.new.asked ≡ None) × (self.new.is_broken ≡ self.old.is_broken) }
    {
        let _waits = self.session.seal().is_err(); // no group waits, so there is a place for one
    }

    /// Has the session make its next call, which the disk notes.
    fn ask(&mut self) -> Result<Step, Broken>
        requires asked { self.old.asked ≡ None }
        requires works { self.old.is_broken ≡ false }
        ensures machine { (k : Machine) → SteppedMatches k self.old
            → ReachesMachine (Asks D.view D.called k self.old result self.new)
            (λ next. SteppedMatches next self.new) }
        ensures none { is_idle result ≡ true → AsksNone self.old self.new }
    {
        let progress = match self.session.advance() {
            Ok(progress) => progress,
            Err(_) => {
                self.is_broken = true;
                return Err(Broken);
            }
        };
        if is_rest(progress) {
            return Ok(Step::Idle);
        }
        self.asked = Some(progress);
        Ok(Step::Call)
    }

    /// Has the session make its next call. If none is left, the next group is handed out first.
    fn ask_next(&mut self) -> Result<Step, Broken>
        requires asked { self.old.asked ≡ None }
        requires works { self.old.is_broken ≡ false }
        ensures { (k : Machine) → SteppedMatches k self.old
            → ReachesMachine (AsksNext D.view D.called k self.old result self.new)
            (λ next. SteppedMatches next self.new) }
    {
        let step = self.ask();
        if !is_idle_step(&step) {
            return step;
        }
        self.hand_out();
        self.ask()
    }

    /// Takes it that the call that was asked for is made. If it was a group's last, the number of
    /// the group's last command.
    fn take_made(&mut self) -> Option<u64>
        ensures machine { (k : Machine) → SteppedMatches k self.old
            → ReachesMachine (Makes k self.old.asked result)
            (λ next. SteppedMatches next self.new) }
        ensures disk { self.new.session.committer ≡ self.old.session.committer }
        ensures same { (self.new.asked ≡ None) × (self.new.is_broken ≡ self.old.is_broken) }
    {
        let is_last = ends_group(&self.asked);
        self.asked = None;
        if !is_last {
            return None;
        }
        self.stored = self.session.learn();
        Some(self.stored)
    }

    /// The next step. It is told whether the call that was asked for was made, which it ignores if
    /// none was asked for.
    ///
    /// After [`Step::Call`] the disk has noted one more call, and while that is made a crash leaves
    /// all that was reported to the caller as stored, and nothing that wasn't accepted.
    ///
    /// # Errors
    /// [`Broken`] if that call wasn't made, if the disk refuses to note the next one, or if either
    /// was so before. No call is asked for any more, and no number is told.
    pub fn step(&mut self, made: bool) -> Result<Step, Broken>
        ensures broken { self.old.is_broken ≡ true
            → IsErr result × (self.new ≡ self.old) }
        ensures lost { self.old.is_broken ≡ false → IsSome self.old.asked → made ≡ false
            → IsErr result × (self.new ≡ record self.old { is_broken = true }) }
        ensures machine { (k : Machine) → SteppedMatches k self.old → self.old.is_broken ≡ false
            → (IsSome self.old.asked → made ≡ true)
            → ReachesMachine (Steps D.view D.called k self.old result self.new)
            (λ next. SteppedMatches next self.new) }
    {
        if self.is_broken {
            return Err(Broken);
        }
        if self.asked.is_some() && !made {
            self.is_broken = true;
            return Err(Broken);
        }
        match self.take_made() {
            Some(number) => Ok(Step::Stored(number)),
            None => self.ask_next(),
        }
    }

    /// Does nothing: its clause says what a crash leaves while no call is asked for. That is all
    /// commands that were reported to the caller as stored, and none that wasn't accepted.
    pub fn images(&self)
        ensures { (k : Machine) → SteppedMatches k self.now → self.now.asked ≡ None
            → EachImage (D.view.contents self.now.session.committer.disk)
            (D.view.unsynced self.now.session.committer.disk)
            (StandsForSome self.now.session.committer.sizes k) }
    {
        self.session.images();
    }
}

impl<D: Disk + Drop> Drop for SteppedSession<D> {
    fn drop(self) {
        let SteppedSession {
            session,
            asked: _,
            accepted: _,
            stored: _,
            is_broken: _,
        } = self;
        let _disk = session.into_disk();
    }
}

/// Whether nothing was left to do.
fn is_rest(progress: Progress) -> bool
    ensures { result ≡ rests progress }
{
    matches!(progress, Progress::Idle)
}

/// Whether the call that is asked for is the last of a group.
fn ends_group(asked: &Option<Progress>) -> bool
    ensures { result ≡ is_last asked.now }
{
    matches!(asked, Some(Progress::Done(_)))
}

/// Whether no call is asked for.
fn is_idle_step(step: &Result<Step, Broken>) -> bool
    ensures { result ≡ is_idle step.now }
{
    matches!(step, Ok(Step::Idle))
}

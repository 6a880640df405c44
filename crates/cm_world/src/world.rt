//! A world, and the events that happen to it.

ghost use Rattle.std.specs.Prelude.{◌≡◌, IfOk, IfErr, IsErr};
ghost use Rattle.cm_commands.specs.Machine.{Machine};
ghost use Rattle.cm_session.specs.Moves.{SessionMatches, IsOutside};
ghost use Rattle.cm_world.specs.Runs.{HasRun};
ghost use Rattle.cm_world.specs.Moves.{EventMoves, OpensAgain};

use crate::event::Event;
use crate::reply::Reply;
use cm_disk::SimDisk;
use cm_pool::Geometry;
use cm_session::Session;
use cm_verdict::OpenFault;
use std::alloc::Global;

/// A cache over a disk in memory: the accepted cache, the committer of its disk, and the groups
/// between them.
pub struct World {
    pub(crate) alloc: Global,
    pub(crate) session: Session<SimDisk>,
}

impl World {
    /// One event, and its reply. The machine that the world matches makes a step over the world's
    /// own disk, and the world that is handed back matches the machine after it.
    ///
    /// It is an `Err`, with no world, only if the event opens the file again and the device or an
    /// allocation failed in that.
    pub fn step(mut self, event: Event<'_>) -> Result<(World, Reply), OpenFault>
        ensures moved { (k : Machine) → SessionMatches k self.session
            → IfOk result (λ p. EventMoves k event.entry p.1 self p.0) }
        ensures fault { (k : Machine) → SessionMatches k self.session → IfErr result IsOutside }
        ensures goes_on { IsErr result → OpensAgain event.entry }
    {
        let reply = match event {
            Event::Accept(command) => self.accept(command),
            Event::Seal => self.seal(),
            Event::Advance => self.advance(),
            Event::Trim => self.trim(),
            Event::Learn => self.learn(),
            Event::Look(loader, class) => self.look(loader, class),
            Event::Fault(stores) => self.arm(stores),
            Event::Reopen => return self.reopen(),
            Event::Crash(choice) => return self.crash(choice),
        };
        Ok((self, reply))
    }

    /// Runs events one after another over a new file of these sizes, with one reply for each. It
    /// ends early only if the device or an allocation failed while a file was made or opened.
    pub fn run(
        alloc: Global,
        geometry: Geometry,
        events: Vec<Event<'_>>,
    ) -> Result<(Vec<Reply>, World), OpenFault>
        ensures ran { IfOk result (λ p. HasRun geometry events.entry.items p.0.items p.1) }
        ensures fault { IfErr result IsOutside }
    {
        let mut replies = Vec::with_capacity(alloc, events.len())?;
        let mut world = World::new(alloc, geometry)?;
        for event in events {
            let (next, reply) = match world.step(event) {
                Ok(stepped) => stepped,
                Err(fault) => return Err(fault),
            };
            world = next;
            replies.push_reserved(reply);
        }
        Ok((replies, world))
    }

    /// The disk, as it is now.
    pub fn into_disk(self) -> SimDisk
        ensures { result ≡ self.session.committer.disk }
    {
        let World { alloc: _, session } = self;
        session.into_disk()
    }
}

//! Worlds whose file is opened.

ghost use Rattle.std.specs.Prelude.{◌≡◌, IfOk, IfErr};
ghost use Rattle.cm_pool.specs.Geometry.{Sizes};
ghost use Rattle.cm_disk.specs.Sim.{sim_contents, sim_unsynced};
ghost use Rattle.cm_disk.specs.Disk.{IsDurable};
ghost use Rattle.cm_layout.specs.Laws.{IsNewest};
ghost use Rattle.cm_commands.specs.Machine.{Machine};
ghost use Rattle.cm_recover.specs.NewFile.{new_bytes, IsEmptyCache};
ghost use Rattle.cm_session.specs.Images.{StandsForSome};
ghost use Rattle.cm_session.specs.Moves.{SessionMatches, IsOutside};
ghost use Rattle.cm_world.specs.Moves.{MovesTo, EventMoves, state};
ghost use Rattle.cm_world.specs.Runs.{WorldMatches, IsNewWorld, IsBegun};
ghost use Rattle.cm_world.specs.Steps.{State};
ghost use Rattle.cm_world.specs.declared.event.Event.TheVariants as event;

use crate::reply::Reply;
use crate::world::World;
use cm_disk::{Choice, SimDisk, durable_has_one_image};
use cm_pool::Geometry;
use cm_recover::{FormatFault, NotOpened, format, new_file_is_empty, newest_is_not_older};
use cm_verdict::OpenFault;
use std::alloc::Global;

/// Opens the file of a disk.
fn open_file(alloc: Global, disk: SimDisk) -> Result<(World, Reply), OpenFault>
    ensures opened { (sizes : Sizes) (before : State)
        → StandsForSome sizes before.machine (sim_contents disk) → IsNewest (sim_contents disk)
        → IfOk result (λ p. MovesTo sizes before.machine p.1 disk before p.0) }
    ensures fault { (sizes : Sizes) (k : Machine) → StandsForSome sizes k (sim_contents disk)
        → IfErr result IsOutside }
{
    newest_is_not_older();
    match cm_session::open(alloc, disk) {
        Ok(mut session) => {
            session.disarm(); // its calls did so already: this is for the proof
            session.images();
            let reply = Reply::Opened(session.number());
            Ok((World { alloc, session }, reply))
        }
        Err(NotOpened { fault, disk: _disk }) => Err(fault),
    }
}

/// A disk that holds a new file of these sizes.
fn make_disk(alloc: Global, geometry: Geometry) -> Result<SimDisk, OpenFault>
    ensures made { IfOk result (λ disk. sim_contents disk ≡ new_bytes geometry) }
    ensures empty { IfOk result (λ disk. IsEmptyCache geometry (sim_contents disk)) }
    ensures newest { IfOk result (λ disk. IsNewest (sim_contents disk)) }
    ensures fault { IfErr result IsOutside }
{
    new_file_is_empty();
    geometry.invariant_holds();
    let mut disk = SimDisk::new(alloc);
    match format(alloc, &mut disk, geometry) {
        Ok(()) => Ok(disk),
        Err(FormatFault::NoMemory) => Err(OpenFault::NoMemory),
        Err(_) => Err(OpenFault::Device),
    }
}

impl World {
    /// The world of a new file of these sizes, in which nothing was accepted yet.
    ///
    /// It is an `Err` only if the device or an allocation failed.
    pub fn new(alloc: Global, geometry: Geometry) -> Result<World, OpenFault>
        ensures begun { IfOk result (IsBegun geometry) }
        ensures fault { IfErr result IsOutside }
    {
        let disk = make_disk(alloc, geometry)?;
        match open_file(alloc, disk) {
            Ok((world, _reply)) => Ok(world),
            Err(fault) => Err(fault),
        }
    }

    /// Opens the file again, as it is.
    pub(crate) fn reopen(self) -> Result<(World, Reply), OpenFault>
        ensures moved { (k : Machine) → SessionMatches k self.session
            → IfOk result (λ p. EventMoves k event.Reopen p.1 self p.0) }
        ensures fault { (k : Machine) → SessionMatches k self.session → IfErr result IsOutside }
    {
        let World { alloc, session } = self;
        session.images();
        session.versions();
        let mut disk = session.into_disk();
        disk.disarm();
        open_file(alloc, disk)
    }

    /// Opens the file that a crash leaves.
    pub(crate) fn crash(self, choice: Choice) -> Result<(World, Reply), OpenFault>
        ensures moved { (k : Machine) → SessionMatches k self.session
            → IfOk result (λ p. EventMoves k (event.Crash choice) p.1 self p.0) }
        ensures fault { (k : Machine) → SessionMatches k self.session → IfErr result IsOutside }
    {
        let World { alloc, session } = self;
        session.images();
        session.versions();
        durable_has_one_image();
        let disk = session.into_disk().crash(alloc, &choice)?;
        open_file(alloc, disk)
    }
}

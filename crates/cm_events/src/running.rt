//! A simulation from its text to the text of its replies.

ghost use Rattle.std.specs.Prelude.{◌≡◌, IfOk, IfErr};
ghost use Rattle.cm_disk.specs.Sim.{sim_contents};
ghost use Rattle.cm_events.specs.Simulated.{IsSimulated, SimulationStops};

use crate::fault::SimulationFault;
use crate::simulation::{Simulation, read_simulation};
use crate::text::answer_lines;
use cm_disk::{Disk, SimDisk};
use cm_verdict::OpenFault;
use cm_world::World;
use std::alloc::{AllocError, Global};
use thiserror::Error;

/// The result of a simulation.
#[derive(Drop)]
pub struct Simulated {
    /// One line for each of its lines except the first.
    pub text: Vec<u8>,
    /// The disk that is left.
    pub disk: SimDisk,
}

/// Why a simulation isn't run to its end.
#[derive(Clone, Copy, Debug, PartialEq, Eq, Error)]
pub enum SimulateFault {
    /// Its text can't be read.
    #[error("{0}")]
    Text(SimulationFault),
    /// The disk in memory, or another allocation, failed while a file was made or opened.
    #[error("{0}")]
    World(OpenFault),
    /// An allocation failed.
    #[error("out of memory")]
    NoMemory,
}

/// Runs the events of a text over a new file in memory.
pub fn simulate(alloc: Global, text: &[u8]) -> Result<Simulated, SimulateFault>
    ensures done { IfOk result (λ s. IsSimulated text.now s.text.items s.disk) }
    ensures stopped { IfErr result (SimulationStops text.now) }
{
    let simulation = match read_simulation(alloc, text) {
        Ok(simulation) => simulation,
        Err(fault) => return Err(SimulateFault::Text(fault)),
    };
    let Simulation {
        geometry,
        events,
        turns,
    } = simulation;
    let (replies, world) = match World::run(alloc, geometry, events) {
        Ok(ran) => ran,
        Err(fault) => return Err(SimulateFault::World(fault)),
    };
    let disk = world.into_disk();
    match answer_lines(alloc, &turns, &replies) {
        Ok(text) => Ok(Simulated { text, disk }),
        Err(_) => Err(SimulateFault::NoMemory),
    }
}

/// The bytes that a disk has. It is in memory, so only an allocation fails.
pub fn bytes_of(alloc: Global, disk: SimDisk) -> Result<Vec<u8>, AllocError>
    ensures { IfOk result (λ bytes. bytes.items ≡ sim_contents disk) }
{
    let mut disk = disk;
    disk.disarm();
    let len = disk.len().map_err(|_| AllocError)?;
    let mut bytes = Vec::from_elem(alloc, 0u8, len as usize)?;
    disk.read(0, &mut bytes).map_err(|_| AllocError)?;
    Ok(bytes)
}

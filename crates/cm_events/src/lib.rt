//! Simulations as text: lines that request a world's events, their run, and lines of replies.
#![tactic(auto)]

mod fault;
mod geometry;
mod line;
mod lines;
mod made;
mod number;
mod running;
mod simulation;
mod text;

pub use fault::SimulationFault;
pub use running::{SimulateFault, Simulated, bytes_of, simulate};
pub use simulation::{Simulation, Turn, read_simulation};
pub use text::answer_lines;

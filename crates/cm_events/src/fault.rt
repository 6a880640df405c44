//! Why a text is no simulation.

use thiserror::Error;

/// Why a text can't be read as a simulation.
#[derive(Clone, Copy, Debug, PartialEq, Eq, Error)]
pub enum SimulationFault {
    /// The line of this number, counted from 1, isn't an event, or the first line doesn't give the
    /// sizes. All lines before it are right.
    #[error("line {0}: not an event")]
    BadLine(usize),
    /// An allocation failed.
    #[error("out of memory")]
    NoMemory,
}

//! Why a line can't be read or written.

use thiserror::Error;

/// Why a line can't be read or written.
#[derive(Clone, Copy, Debug, PartialEq, Eq, Error)]
pub enum LineFault {
    /// The reader failed.
    #[error("the input failed")]
    Input,
    /// The writer failed, or takes nothing.
    #[error("the output failed")]
    Output,
    /// An allocation failed.
    #[error("out of memory")]
    NoMemory,
}

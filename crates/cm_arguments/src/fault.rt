//! Usage errors.

ghost use Rattle.std.specs.Prelude.{◌≡◌};
ghost use Rattle.cm_arguments.specs.declared.fault.UsageFault.TheVariants as fault;

use std::alloc::AllocError;
use thiserror::Error;

/// Why a command line requests nothing that can be done, with the text to print.
#[derive(Debug, Drop, Error)]
pub enum UsageFault {
    /// Help is requested: the help text, for standard output.
    #[error("{0}")]
    Help(String),
    /// A usage error: what is wrong with the words, and how the program is used, for standard
    /// error.
    #[error("{0}")]
    Words(String),
    /// An allocation failed.
    #[error("out of memory")]
    NoMemory,
}

impl From<AllocError> for UsageFault {
    ghost from_gives = { λ _ e. e ≡ fault.NoMemory };

    fn from(_error: AllocError) -> UsageFault {
        UsageFault::NoMemory
    }
}

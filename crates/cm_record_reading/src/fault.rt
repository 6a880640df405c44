//! Why words are no record.
ghost use Rattle.std.specs.Prelude.{◌≡◌};
ghost use Rattle.cm_record_reading.specs.declared.fault.RecordFault.TheVariants as fault;

use std::alloc::{AllocError, AllocFailed};
use thiserror::Error;

/// Why words are not accepted as a record.
#[derive(Clone, Copy, Debug, PartialEq, Eq, Error)]
pub enum RecordFault {
    /// No class has these words as its layout, or there are more than 524,288 of them.
    #[error("not a record")]
    NotARecord,
    /// An allocation failed.
    #[error("out of memory")]
    NoMemory,
}

impl From<AllocError> for RecordFault {
    ghost from_gives = { λ _ e. e ≡ fault.NoMemory };

    fn from(_error: AllocError) -> RecordFault {
        RecordFault::NoMemory
    }
}

impl<T: Drop> From<AllocFailed<T>> for RecordFault {
    ghost from_gives = { λ _ e. e ≡ fault.NoMemory };

    fn from(_error: AllocFailed<T>) -> RecordFault {
        RecordFault::NoMemory
    }
}

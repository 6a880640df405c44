//! Why a class has no record.
ghost use Rattle.std.specs.Prelude.{◌≡◌};
ghost use Rattle.cm_record_writing.specs.declared.refusal.RecordRefusal.TheVariants as refusal;

use std::alloc::AllocError;
use thiserror::Error;

/// Why a class has no record.
#[derive(Clone, Copy, Debug, PartialEq, Eq, Error)]
pub enum RecordRefusal {
    /// Its layout has more than 524,288 words.
    #[error("the record is too long")]
    TooLong,
    /// An allocation failed.
    #[error("out of memory")]
    NoMemory,
}

impl From<AllocError> for RecordRefusal {
    ghost from_gives = { λ _ e. e ≡ refusal.NoMemory };

    fn from(_error: AllocError) -> RecordRefusal {
        RecordRefusal::NoMemory
    }
}

//! Why a device isn't read.

ghost use Rattle.std.specs.Prelude.{◌≡◌};
ghost use Rattle.cm_device_disk.specs.declared.fault.ReadError.TheVariants as read_error;

use std::alloc::{AllocError, AllocFailed};

/// Why a device isn't read. It is unchanged.
#[derive(Clone, Copy, Debug)]
pub enum ReadError<F> {
    /// The device doesn't read the bytes.
    Device(F),
    /// An allocation for the bytes failed.
    NoMemory,
}

impl<F> From<AllocError> for ReadError<F> {
    ghost from_gives = { λ _ e. e ≡ read_error.NoMemory };

    fn from(_error: AllocError) -> ReadError<F> {
        ReadError::NoMemory
    }
}

impl<F, T: Drop> From<AllocFailed<T>> for ReadError<F> {
    ghost from_gives = { λ _ e. e ≡ read_error.NoMemory };

    fn from(_error: AllocFailed<T>) -> ReadError<F> {
        ReadError::NoMemory
    }
}

//! Why a file can't be used as a disk.

ghost use Rattle.std.specs.Prelude.{◌≡◌};
ghost use Rattle.cm_file_disk.specs.declared.fault.OpenError.TheVariants as open_error;
ghost use Rattle.cm_file_disk.specs.declared.fault.CreateError.TheVariants as create_error;

use cm_device_disk::ReadError;
use std::fs::TryLockError;
use std::io;
use thiserror::Error;

/// Why a file isn't opened as a disk. The file is unchanged.
#[derive(Clone, Copy, Debug, Error)]
pub enum OpenError {
    /// It is a folder, a pipe or a device of the system.
    #[error("not a regular file")]
    NotRegular,
    /// Another process uses it, or another disk of this one.
    #[error("in use by another process")]
    InUse,
    /// Its file system doesn't lock it, so nothing would keep other processes from writing to it.
    #[error("can't be locked: {0}")]
    NotLocked(io::Error),
    /// It has more than 2^40 bytes.
    #[error("longer than 2^40 bytes, the most that a disk has")]
    TooLong,
    /// The system doesn't find, open or read it.
    #[error("{0}")]
    Device(io::Error),
    /// An allocation for its bytes failed.
    #[error("out of memory")]
    NoMemory,
}

impl From<io::Error> for OpenError {
    ghost from_gives = { λ cause e. e ≡ open_error.Device cause };

    fn from(cause: io::Error) -> OpenError {
        OpenError::Device(cause)
    }
}

impl From<TryLockError> for OpenError {
    ghost use Rattle.cm_file_disk.specs.Fault.{not_opened_of};

    ghost from_gives = { λ error e. e ≡ not_opened_of error };

    fn from(error: TryLockError) -> OpenError {
        match error {
            TryLockError::WouldBlock => OpenError::InUse,
            TryLockError::Error(cause) => OpenError::NotLocked(cause),
        }
    }
}

impl From<ReadError<io::Error>> for OpenError {
    ghost use Rattle.cm_file_disk.specs.Fault.{open_error_of};

    ghost from_gives = { λ error e. e ≡ open_error_of error };

    fn from(error: ReadError<io::Error>) -> OpenError {
        match error {
            ReadError::Device(cause) => OpenError::Device(cause),
            ReadError::NoMemory => OpenError::NoMemory,
        }
    }
}

/// Why a file isn't created as a disk.
#[derive(Clone, Copy, Debug, Error)]
pub enum CreateError {
    /// Something has that name already, even if it is a dangling link. It is unchanged.
    #[error("something has that name already")]
    Exists,
    /// Another process opened it as soon as it was there. It is removed again.
    #[error("in use by another process")]
    InUse,
    /// Its file system doesn't lock it. It is removed again.
    #[error("can't be locked: {0}")]
    NotLocked(io::Error),
    /// The system doesn't create it, or doesn't make it durable.
    #[error("{0}")]
    Device(io::Error),
}

impl From<io::Error> for CreateError {
    ghost from_gives = { λ cause e. e ≡ create_error.Device cause };

    fn from(cause: io::Error) -> CreateError {
        CreateError::Device(cause)
    }
}

impl From<TryLockError> for CreateError {
    ghost use Rattle.cm_file_disk.specs.Fault.{not_created_of};

    ghost from_gives = { λ error e. e ≡ not_created_of error };

    fn from(error: TryLockError) -> CreateError {
        match error {
            TryLockError::WouldBlock => CreateError::InUse,
            TryLockError::Error(cause) => CreateError::NotLocked(cause),
        }
    }
}

//! Why a file isn't made.

ghost use Rattle.std.specs.Prelude.{◌≡◌};
ghost use Rattle.cm_recover.specs.declared.fault.FormatFault.TheVariants as fault;

use cm_disk::DeviceFault;
use std::alloc::AllocError;
use thiserror::Error;

/// Why a file isn't made.
#[derive(Clone, Copy, Debug, PartialEq, Eq, Error)]
pub enum FormatFault {
    /// The disk isn't empty. It stays as it was.
    #[error("exists")]
    NotEmpty,
    /// The device failed.
    #[error("device")]
    Device,
    /// An allocation failed. The disk stays as it was.
    #[error("memory")]
    NoMemory,
}

impl From<DeviceFault> for FormatFault {
    ghost from_gives = { λ _ e. e ≡ fault.Device };

    fn from(_fault: DeviceFault) -> FormatFault {
        FormatFault::Device
    }
}

impl From<AllocError> for FormatFault {
    ghost from_gives = { λ _ e. e ≡ fault.NoMemory };

    fn from(_error: AllocError) -> FormatFault {
        FormatFault::NoMemory
    }
}

//! Why an import ended before its end.

ghost use Rattle.std.specs.Prelude.{◌≡◌};
ghost use Rattle.cm_importing.specs.declared.fault.ImportFault.TheVariants as fault;

use cm_commands::Refusal;
use cm_disk::DeviceFault;
use cm_verdict::OpenFault;
use std::alloc::AllocError;
use thiserror::Error;

/// Why an import ended before its end. What the feed was told as stored is stored.
#[derive(Clone, Copy, Debug, PartialEq, Eq, Error)]
pub enum ImportFault {
    /// The disk's cache can't be opened. The feed wasn't asked for anything.
    #[error("{0}")]
    Open(OpenFault),
    /// The loader isn't there, and can't be added. The feed wasn't asked for anything.
    #[error("the loader is refused: {0}")]
    Loader(Refusal),
    /// The device failed. The file holds a beginning of the group that the feed gave last, of which
    /// it wasn't told anything.
    #[error("the device failed")]
    Device,
    /// An allocation failed. Nothing was done with a group of which the feed wasn't told anything.
    #[error("out of memory")]
    NoMemory,
}

impl From<AllocError> for ImportFault {
    ghost from_gives = { λ _ e. e ≡ fault.NoMemory };

    fn from(_error: AllocError) -> ImportFault {
        ImportFault::NoMemory
    }
}

impl From<DeviceFault> for ImportFault {
    ghost from_gives = { λ _ e. e ≡ fault.Device };

    fn from(_fault: DeviceFault) -> ImportFault {
        ImportFault::Device
    }
}

//! A disk over a real file.
#![tactic(auto)]

mod ahead;
mod device;
mod fault;
mod opening;

pub use ahead::read_ahead;
use cm_device_disk::{DeviceDisk, OpenedDevice};
pub use device::FileDevice;
pub use fault::{CreateError, OpenError};
pub use opening::{create, open, open_read_only};
use std::io;

/// A disk over a regular file that nothing else writes to.
///
/// What the file holds follows the disk's contents as far as the system keeps its promises.
pub type FileDisk = DeviceDisk<FileDevice, io::Error>;

/// A regular file that was opened, and what was read of it.
pub type OpenedFile = OpenedDevice<FileDevice>;

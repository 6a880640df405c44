//! A disk over any device, which implements the trait of all disks without assumptions.
#![tactic(auto)]

mod ahead;
mod device;
mod disk;
mod fault;
mod held_disk;
mod history;
mod image;
mod laws;
mod opening;
mod pieces;
mod word_run;

pub use ahead::{RangeWords, WordsAhead, read_part, unread};
pub use device::Device;
pub use disk::DeviceDisk;
pub use fault::ReadError;
pub use held_disk::HeldDisk;
pub use laws::made_call_leaves_no_more;
pub use opening::OpenedDevice;

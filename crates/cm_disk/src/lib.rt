//! The model of a disk: what it holds, what of that is durable, and what a crash may leave.
#![tactic(auto)]

mod choice;
mod disk;
mod fuse;
mod history;
mod laws;
mod medium;
mod sim;

pub use choice::Choice;
pub use disk::{DeviceFault, Disk, WordRange};
pub use fuse::FuseDisk;
pub use laws::{
    chosen_is_an_image, durable_has_one_image, image_has_a_choice, torn_write_is_an_image,
    write_is_read_back, write_is_torn_in_its_range,
};
pub use sim::SimDisk;

//! Samples that several crates of tests share: small regions, classes, and disks in memory.
#![tactic(auto)]

mod classes;
mod disks;
mod geometries;

pub use classes::{CLASS_A, CLASS_A_TEXT, class, class_file, padded_class_file};
pub use disks::{bytes_of, disk_of, new_disk};
pub use geometries::{least_geometry, small_geometry};

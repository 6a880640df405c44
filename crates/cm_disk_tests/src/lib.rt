//! Tests of disks in memory and over files, and of a small committer for any disk.
#![tactic(auto)]

#[cfg(test)]
mod calls;
#[cfg(test)]
mod crashes;
#[cfg(test)]
mod deferred;
#[cfg(test)]
mod failing_files;
#[cfg(test)]
mod faults;
#[cfg(test)]
mod file_contents;
#[cfg(test)]
mod held;
#[cfg(test)]
mod long_writes;
#[cfg(test)]
mod opening_files;
mod reading;
#[cfg(test)]
mod stops;
#[cfg(test)]
mod taking;
mod trimming;
mod turning;

pub use reading::{count_open, read_both};
pub use trimming::{cut_behind, trim};
pub use turning::{Guarded, OPEN, store_apart, turn, turn_gate, write_apart, write_gate};

//! Laying the record of a class file straight from its bytes.
#![tactic(auto)]

mod constants;
mod file;
mod lists;
mod measure;
mod numbers;
mod runs;
mod sections;
mod sizes;

pub use file::lay_file;

//! The names of live loaders and classes, in byte order.
#![tactic(auto)]

mod names;

pub use names::{class_names, loader_names};

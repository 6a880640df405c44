//! Streams of class files: one after another, each preceded by its length.
#![tactic(auto)]

mod reading;
mod stream;

pub use reading::read_stream;
pub use stream::{StreamFault, classes_in};

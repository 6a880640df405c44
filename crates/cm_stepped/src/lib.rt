//! A session whose device calls are made by its caller, one a step: for a program that does its own
//! input and output.
#![tactic(auto)]

mod call_list;
mod from_bytes;
mod opening;
mod step;
mod stepped;

pub use call_list::CallList;
pub use from_bytes::{BytesFault, open_bytes};
pub use opening::open;
pub use step::{Broken, Step};
pub use stepped::SteppedSession;

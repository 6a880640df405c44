//! One thread's use of a cache file, where each call is a step of the abstract machine.
#![tactic(auto)]

mod committing;
mod joining;
mod laws;
mod opening;
mod queue;
mod session;
mod storing;

pub use laws::held_cache_begins_machine;
pub use opening::{open, open_in_threads};
pub use session::{Sealed, Session};
pub use storing::NotStored;

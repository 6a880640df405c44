//! Scripts on a cache: lines are read and run, and their replies written, one after another.
#![tactic(auto)]

mod ahead;
mod answer;
mod apply;
mod reply;
mod script;
mod texts;

pub use apply::{ApplyFault, apply_script, apply_threads};
pub use reply::{Reply, ReplyKind};
pub use script::Outcome;

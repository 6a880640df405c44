//! Classes that are ready to be defined, the commands that change a cache, and why one is refused.
#![tactic(auto)]

mod command;
mod fault;
mod from_bytes;
mod kept;
mod names;
mod prepared;
mod refusal;
mod short_name;

pub use cm_rules::BadClass;
pub use command::Command;
pub use fault::PrepareFault;
pub use from_bytes::prepare;
pub use names::Names;
pub use prepared::Prepared;
pub use refusal::Refusal;

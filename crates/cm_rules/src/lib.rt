//! The static rules on class files of version 52.0 (JVMS SE 8, chapter 4), in their order.
#![tactic(auto)]

mod fault;
mod findings;
mod keeps;
mod laws;
mod read;
mod rule;
mod rules;
mod search;

pub use fault::{BadClass, ClassFault};
pub use laws::fault_is_the_first;
pub use read::{first_fault, read_class};
pub use rule::{Broken, Rule, Spot};

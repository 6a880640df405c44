//! What a command line requests of the program.
#![tactic(auto)]

mod action;
mod command;
mod fault;
mod number;
mod parsing;
mod usage;

pub use action::Action;
pub use fault::UsageFault;
pub use number::{Number, ROOTS, SLOTS, TOP, usual_geometry};
pub use parsing::{parse, wrong_words};
pub use usage::{Printed, WordsFault, print_text, words};

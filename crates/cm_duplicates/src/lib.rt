//! Which field or method of a class is the first with the name and the descriptor of one before it.
#![tactic(auto)]

mod candidates;
mod duplicates;
mod fingerprints;
mod interner;
mod laws;
mod meeting;
mod pairs;
mod repeated;

pub use duplicates::{first_duplicate_field, first_duplicate_method};
pub use laws::first_duplicate_is_the_first;

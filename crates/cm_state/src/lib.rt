//! The cache without chunks or journal: its state, its steps, and which contents stand for it.
#![tactic(auto)]

mod laws;

pub use laws::{
    arenas_are_apart, changes_go_on, contents_determine_cache, entries_are_steps, named_loaders_go,
    rows_tell_state,
};

//! The space of a region: its pool, the loaders' arenas, and chunks that wait to be free.
#![tactic(auto)]

mod adopt;
mod laws;
mod leaving;
mod space;
mod waiting;

pub use laws::{
    chunks_are_apart, each_word_has_its_place, held_chunks_are_used, learning_frees_what_is_due,
    roots_reach_what_is_adopted,
};
pub use space::Space;

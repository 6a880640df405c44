//! Arenas: the chains of chunks that hold the metadata of one loader (OpenJDK JEP 387).
#![tactic(auto)]

mod arena;
mod better;
mod fetch;
mod refusal;

pub use arena::{Arena, Moved};
pub use refusal::PlaceRefusal;

//! The cache for C: what `c/cmcore.h` declares. There is no logic here: each export takes what a
//! handle leads to, calls the crates below, and puts the answer into numbers.
#![tactic(auto)]

mod cache;
mod calls;
mod class;
mod comparing;
mod handle;
mod inner;
mod listing;
mod loose;
mod parts;
mod places;
mod record;
mod status;
mod tag;
mod views;

pub use handle::Handle;

//! A cache on a disk in memory, crashed at will: its replies are those of the machine.
#![tactic(auto)]

mod event;
mod laws;
mod opening;
mod reply;
mod steps;
mod world;

pub use event::Event;
pub use laws::replies_tell_of_calls;
pub use reply::Reply;
pub use world::World;

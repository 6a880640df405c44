//! Classes that are imported into one loader of a cache, group after group, over any disk; loaders
//! that are unloaded, and classes that are compared with those of a loader.
#![tactic(auto)]

mod comparing;
mod fault;
mod feed;
mod group;
mod importing;
mod named;
mod outcome;
mod unloading;

pub use comparing::{Compared, compare};
pub use fault::ImportFault;
pub use feed::Feed;
pub use importing::import;
pub use outcome::Outcome;
pub use unloading::unload;

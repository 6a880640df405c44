//! How much of its file a cache takes: by loader, by the order of chunks, in the journal.
#![tactic(auto)]

mod among;
mod by_loader;
mod chunks;
mod counting;
mod measuring;
mod report;
mod roots;
mod unused;
mod usage;

pub use by_loader::LoaderUse;
pub use chunks::OwnedChunk;
pub use measuring::statistics;
pub use report::{JournalUse, Statistics};
pub use usage::Usage;

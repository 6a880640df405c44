//! The live rows of a cache, with the rules that entries keep; only `new` allocates.
#![tactic(auto)]

mod last_kept;
mod links;
mod live_loader;
mod live_rows;
mod loader_places;
mod place_rules;
mod placing;
mod row_places;
mod rows;
mod walk;
mod whole_pool;

pub use cm_index::Kept;
pub use last_kept::LastKept;
pub use live_loader::LastChunk;
pub use live_rows::LiveRows;
pub use walk::Walk;

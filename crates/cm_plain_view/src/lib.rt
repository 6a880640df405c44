//! A view of a region file's bytes as plain data, in memory that its caller owns: looking up and
//! listing read slices alone.
#![tactic(auto)]

mod finding;
mod judging;
mod loader;
mod opening;
mod walking;

pub use cm_view_index::{ViewRow, name_of};
pub use finding::{find_class, loader_named};
pub use judging::judge_row;
pub use loader::ViewLoader;
pub use opening::{NotViewed, ViewCounts, open_view};
pub use walking::next_class;

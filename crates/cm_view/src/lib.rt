//! A view of a region file's bytes, for reading alone: it is open at once, and each record is
//! judged when it is asked for.
#![tactic(auto)]

mod fault;
mod finding;
mod laws;
mod listing;
mod loaders;
mod taking;
mod view;
mod walking;

pub use cm_view_index::{ViewRow, mark_of, name_of};
pub use fault::{FindFault, ViewFault};
pub use finding::find;
pub use laws::{rows_show_names, view_is_exact, views_show_caches};
pub use taking::take_record;
pub use view::View;

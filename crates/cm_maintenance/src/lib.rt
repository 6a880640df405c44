//! Checks, lists and truncates cache files, and writes the results as lines.
#![tactic(auto)]

mod check_lines;
mod checking;
mod fault;
mod gathered;
mod laws;
mod list_lines;
mod listing;
mod report;
mod status;
mod telling;
mod texts;
mod trim_lines;
mod trimming;

pub use check_lines::check_to;
pub use checking::check;
pub use fault::NotReported;
pub use laws::listing_is_state;
pub use list_lines::list_to;
pub use listing::{ListedClass, ListedLoader, list, list_accepted};
pub use report::Report;
pub use status::Status;
pub use telling::tell_fault;
pub use trim_lines::trim_to;

//! Makes a region file, and opens one.
#![tactic(auto)]

mod fault;
mod laws;
mod making;
mod new_file;
mod opening;
mod standing;
mod upgrading;

pub use fault::FormatFault;
pub use laws::{new_file_is_empty, newest_is_not_older};
pub use making::format;
pub use opening::{NotOpened, open, open_in_threads};
pub use standing::{StandingFile, read_standing};

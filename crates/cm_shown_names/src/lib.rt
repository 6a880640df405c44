//! The name that the bytes of a record show, read from three words without judging the record.
#![tactic(auto)]

mod laws;
mod shown;

pub use laws::{kept_names_itself, record_shows_name};
pub use shown::name_shown;

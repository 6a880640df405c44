//! The accepted cache: which commands are accepted, what is found, and what is handed to the disk.
#![tactic(auto)]

mod accept;
mod checks;
mod front;
mod laws;
mod name_list;
mod restore;
mod unsealed;

// What is accepted is defined in a lower crate and exported here too, so that a user of the cache
// needs no other crate.
pub use cm_commands::{Command, Names, PrepareFault, Prepared, Refusal, prepare};
pub use front::{Front, Stranger};
pub use laws::{arenas_are_of_rows, chains_go_with_rows, places_keep_rules};

//! Writing a class as the words of its record.
#![tactic(auto)]

mod parts;
mod places;
mod refusal;
mod runs;
mod sections;
mod writing;

pub use refusal::RecordRefusal;
pub use writing::write_class;

//! Attributes whose contents are checked, and which bytes these are (JVMS SE 8, 4.7).
#![tactic(auto)]

mod bootstrap;
mod bootstrap_counts;
mod code;
mod contents;
mod known;
mod laws;
mod numbers;
mod part;

pub use bootstrap_counts::bootstrap_count;
pub use code::read_code;
pub use contents::{is_content, is_value_of, value_kind};
pub use known::{Known, count, first_place, is_known};
pub use laws::{content_is_its_parts, value_is_its_part};
pub use numbers::{is_whole, read_u2, read_u4, skip};

//! The verdict on a file: what a region file holds, or its first damage in the order of recovery.
#![tactic(auto)]

mod counting;
mod decode;
mod defined_at;
mod fault;
mod judging;
mod laws;
mod ranges;
mod reach;
mod reading;
mod record;
mod records;
mod row_record;
mod second_pass;
mod shared_rows;
mod standing;
mod superblock;
mod walk;
mod words;

pub use counting::{Counting, counting_half};
pub use defined_at::DefinedAt;
pub use fault::{Damage, FileFault, OpenFault};
pub use judging::{judge, judge_in_threads};
pub use laws::{found_is_framed, found_is_live, verdict_is_exact};
pub use ranges::record_ranges;
pub use reach::bytes_before_roots;
pub use reading::{FoundFile, is_older, read_found};
pub use record::read_record;
pub use row_record::RowRecord;
pub use standing::{JudgedFile, read_verdict};
pub use superblock::find_sizes;
pub use walk::{HalfWalk, walk_through};

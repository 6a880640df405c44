//! Appends groups to a region file, one device call at a time, and shows what a crash leaves of it.
#![tactic(auto)]

mod applying;
mod bytes;
mod calls;
mod checkpoint;
mod committer;
mod entries;
mod joining;
mod journal_end;
mod laws;
mod mismatch;
mod move_records;
mod plan;
mod progress;
mod renewal;
mod step;
mod trim;

pub use committer::{Committer, NotMade};
pub use journal_end::JournalEnd;
pub use laws::{
    checkpoints_renew, committed_is_guarded, groups_go_through, groups_turn, other_halves_shut,
    others_are_told, plans_have_steps, shut_halves_may_change, trims_stand, written_halves_open,
};
pub use mismatch::Mismatch;
pub use progress::{AdvanceFault, NotIdle, Progress};
pub use renewal::{RenewFault, renew};

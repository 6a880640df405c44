//! What a crash-safe store needs of any disk, whatever its layout: guarded bytes, gates, plans of
//! device calls, and runs of calls.
#![tactic(auto)]

mod claim;
mod laws;

pub use claim::Claim;
pub use laws::{
    cuts_behind_keep_a_claim, gates_turn_claims, guarded_claim_holds_of_each_image,
    plans_keep_a_claim, reads_change_nothing, runs_leave_a_claim, stages_are_gone_through,
    syncs_keep_a_claim, writes_apart_keep_a_claim,
};

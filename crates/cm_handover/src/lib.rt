//! Laws: the accepted cache does what the abstract machine does, and what it hands over may always
//! be committed next.
#![tactic(auto)]

mod carrying;
mod folding;
mod handover;
mod laws;

pub use carrying::groups_may_follow;
pub use folding::handed_changes_lead_on;
pub use handover::{ahead_stays_ahead, handed_groups_are_next, opened_is_ahead};
pub use laws::{commands_follow_the_machine, committed_rows_are_the_machines};

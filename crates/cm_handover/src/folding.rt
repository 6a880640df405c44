//! What was handed over leads from one state of the cache to the next, as a law.

ghost use Rattle.cm_handover.specs.Folding.{FollowersLeadOn};

use cm_state::entries_are_steps;

/// Entries that follow the rows of a cache make changes, and the fold of these changes is the state
/// of the rows after the entries.
pub fn handed_changes_lead_on()
    ensures { FollowersLeadOn }
{
    entries_are_steps();
}

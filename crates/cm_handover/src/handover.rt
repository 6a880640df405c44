//! How the accepted cache runs ahead of the committed one, as laws.

ghost use Rattle.cm_handover.specs.Handover.{OpenedIsAhead, AcceptedIsAhead, HandedIsAhead};
ghost use Rattle.cm_handover.specs.Handover.{LearntIsAhead, FailedIsAhead};
ghost use Rattle.cm_handover.specs.Handover.{HandedMayBeNext, CommittedIsAhead};

use cm_front::chains_go_with_rows;
use cm_pool::{held_chunks_come_and_go, roots_are_free};
use cm_space::{chunks_are_apart, held_chunks_are_used, learning_frees_what_is_due};
use cm_state::entries_are_steps;

/// A cache that was just opened isn't ahead of what is committed.
pub fn opened_is_ahead()
    ensures { OpenedIsAhead }
{
    chains_go_with_rows();
    held_chunks_are_used();
    chunks_are_apart();
}

/// A cache that is ahead of what is committed stays so: with each command that it accepts, with
/// each group that it hands out, with each number that it learns and that is committed, and after a
/// failure.
pub fn ahead_stays_ahead()
    ensures accepted { AcceptedIsAhead }
    ensures handed { HandedIsAhead }
    ensures learnt { LearntIsAhead }
    ensures failed { FailedIsAhead }
{
    chains_go_with_rows();
    held_chunks_come_and_go();
    roots_are_free();
    held_chunks_are_used();
    chunks_are_apart();
    learning_frees_what_is_due();
    entries_are_steps();
}

/// The oldest commands that it handed out, as one group, may be committed next; and once they are,
/// it is ahead of the rows after them.
pub fn handed_groups_are_next()
    ensures next { HandedMayBeNext }
    ensures committed { CommittedIsAhead }
{
    entries_are_steps();
}

//! The accepted cache does what the machine does, as laws.

ghost use Rattle.cm_handover.specs.Laws.{AcceptedIsMade, RefusedIsRefused, FoundIsThere};
ghost use Rattle.cm_handover.specs.Laws.{CommittedFollows, CommandsAreCounted, RowsAreAfter};
ghost use Rattle.cm_handover.specs.Laws.{OpenedFollows};

use cm_record::words_tell_name;
use cm_state::{changes_go_on, entries_are_steps, rows_tell_state};

/// Each command that the accepted cache takes is one of the machine's, with the same number; each
/// that it refuses is refused by the machine, or because the cache is broken or closed; and what it
/// finds is what the machine has.
pub fn commands_follow_the_machine()
    ensures accepted { AcceptedIsMade }
    ensures refused { RefusedIsRefused }
    ensures found { FoundIsThere }
{
    words_tell_name();
    rows_tell_state();
    changes_go_on();
    entries_are_steps();
}

/// Rows that are committed are the state after as many of the machine's commands as their number
/// says. This stays true as groups are committed, and when the file is opened again.
pub fn committed_rows_are_the_machines()
    ensures committed { CommittedFollows }
    ensures counted { CommandsAreCounted }
    ensures rows { RowsAreAfter }
    ensures opened { OpenedFollows }
{
    changes_go_on();
    entries_are_steps();
}

//! Where the journal continues.

ghost use Rattle.std.specs.Prelude.{◌≡◌, ◌≤◌, ◌<◌, ◌+◌, ◌^◌};
ghost use Rattle.std.specs.Arc.{arc_value};
ghost use Rattle.cm_layout.specs.Rows.{bare, rows_with, slots_of_rows};
ghost use Rattle.cm_commit.specs.Checkpoints.{is_due as is_due_for, next_head, renewed_journal};
ghost use Rattle.cm_commit.specs.Checkpoints.{target_of as target};
ghost use Rattle.cm_commit.specs.Steps.{FitsHalf};

use cm_group::Group;
use cm_layout::{ENTRY_VERSION, Half, HalfHead};
use cm_pool::Geometry;
use cm_record::Record;
use cm_rows::LiveRows;
use std::alloc::Global;
use std::sync::Arc;

/// Where the journal continues: the half that counts ends at this slot, after the command of this
/// number.
#[derive(Clone, Copy, Debug, PartialEq, Eq)]
pub struct JournalEnd {
    pub geometry: Geometry,
    /// The half that counts.
    pub half: Half,
    /// The slot where the half's groups end.
    pub end: u32,
    /// The half's epoch: the open half of greater epoch is the one that counts.
    pub epoch: u64,
    /// Whether the other half's gate is open.
    pub other_open: bool,
    /// The number of the last command.
    pub number: u64,
}

/// Whether the half that counts has no room for a group, so that a checkpoint comes first.
pub(crate) fn is_due(journal: &JournalEnd, group: &Group) -> bool
    ensures { result ≡ is_due_for journal.now group.now.entries }
{
    journal.end as usize + group.slots() >= journal.geometry.slots() as usize
}

/// The head of the half that a checkpoint writes.
pub(crate) fn renewed_head(journal: &JournalEnd, rows: &LiveRows<Arc<Record, Global>>) -> HalfHead
    requires { FitsHalf journal.now (bare (rows_with arc_value rows.now.rows)) }
    ensures { result ≡ next_head journal.now.epoch journal.now.number
        (bare (rows_with arc_value rows.now.rows)) }
{
    HalfHead {
        version: ENTRY_VERSION,
        live: rows.slots() as u32,
        epoch: journal.epoch + 1,
        base: journal.number,
    }
}

/// Where the journal continues after a checkpoint.
pub(crate) fn renewed(journal: &JournalEnd, rows: &LiveRows<Arc<Record, Global>>) -> JournalEnd
    requires { FitsHalf journal.now (bare (rows_with arc_value rows.now.rows)) }
    ensures { result ≡ renewed_journal journal.now (bare (rows_with arc_value rows.now.rows)) }
{
    let head = renewed_head(journal, rows);
    JournalEnd {
        geometry: journal.geometry,
        half: journal.half.other(),
        end: 1 + head.live,
        epoch: head.epoch,
        other_open: true,
        number: head.base,
    }
}

/// Where a group is written: after the last one, or after the rows of a checkpoint.
pub(crate) fn target_of(
    journal: &JournalEnd,
    rows: &LiveRows<Arc<Record, Global>>,
    group: &Group,
) -> JournalEnd
    requires { FitsHalf journal.now (bare (rows_with arc_value rows.now.rows)) }
    ensures { result
        ≡ target journal.now (bare (rows_with arc_value rows.now.rows)) group.now.entries }
{
    if is_due(journal, group) {
        renewed(journal, rows)
    } else {
        *journal
    }
}

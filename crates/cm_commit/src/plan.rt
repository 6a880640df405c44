//! The device calls that a group takes, including those of a checkpoint before it.

ghost use Rattle.std.specs.Prelude.{◌≡◌, ◌≤◌, ◌<◌, ◌^◌, ◌↔◌, IfOk, IsTrue, is_ok, length};
ghost use Rattle.std.specs.Prelude.{vec_capacity, ℕ, List, false};
ghost use Rattle.std.specs.Arc.{arc_value};
ghost use Rattle.cm_layout.specs.declared.row.Row.{Row};
ghost use Rattle.cm_layout.specs.Rows.{bare, rows_with};
ghost use Rattle.cm_guards.specs.Stages.{CallsOnce, TakesCall, after_call, calls_left};
ghost use Rattle.cm_group.specs.Groups.{entries_in};
ghost use Rattle.cm_commit.specs.declared.journal_end.JournalEnd.{JournalEnd};
ghost use Rattle.cm_commit.specs.declared.step.CommitStep.TheVariants as step;
ghost use Rattle.cm_commit.specs.declared.step.PlanStep.TheVariants as plan;
ghost use Rattle.cm_commit.specs.Checkpoints.{target_of as target};
ghost use Rattle.cm_commit.specs.GroupPlans.{plan_of, roots_of_entries, all_writes};
ghost use Rattle.cm_commit.specs.Keeps.{most_written};
ghost use Rattle.cm_commit.specs.Steps.{FitsHalf, FitsJournal, plan_left, is_trim};

use crate::calls::make_group_call;
use crate::checkpoint::{checkpoint_calls, make_checkpoint_call};
use crate::entries::group_calls;
use crate::journal_end::{JournalEnd, is_due, target_of};
use crate::step::{CheckpointStep, CommitStep, PlanStep};
use cm_disk::{DeviceFault, Disk};
use cm_group::{CarriedEntry, Group};
use cm_record::Record;
use cm_rows::LiveRows;
use std::alloc::Global;
use std::sync::Arc;

/// What the first call of a group is, if the file has `roots` whole roots.
pub(crate) fn first_step(journal: &JournalEnd, roots: u32, group: &Group) -> PlanStep
    ensures { (rows : List (Row (Unit {0}))) → plan_left journal.now rows roots group.now result
        ≡ plan_of journal.now rows roots group.now.entries }
{
    if is_due(journal, group) {
        PlanStep::Checkpoint(CheckpointStep::Shut)
    } else {
        PlanStep::Group(CommitStep::Grow { roots })
    }
}

/// The step that follows one of a checkpoint.
fn behind_checkpoint(next: Option<CheckpointStep>, roots: u32) -> PlanStep
    ensures { result ≡ elim next
        [ Some at ↦ plan.Checkpoint at | None ↦ plan.Group (step.Grow roots) ] }
{
    match next {
        Some(at) => PlanStep::Checkpoint(at),
        None => PlanStep::Group(CommitStep::Grow { roots }),
    }
}

/// Makes the next device call of a group and returns the step that follows. The file had `roots`
/// whole roots before the group.
pub(crate) fn make_call<D: Disk>(
    disk: &mut D,
    buffer: &mut Vec<u8>,
    journal: &JournalEnd,
    rows: &LiveRows<Arc<Record, Global>>,
    roots: u32,
    group: &Group,
    now: PlanStep,
) -> Result<PlanStep, DeviceFault>
    requires room { most_written journal.now.geometry ≤ vec_capacity buffer.old }
    requires half { FitsHalf journal.now (bare (rows_with arc_value rows.now.rows)) }
    requires group { FitsJournal (target journal.now (bare (rows_with arc_value rows.now.rows))
        group.now.entries) group.now }
    requires fits { TakesCall (plan_left journal.now (bare (rows_with arc_value rows.now.rows))
        roots group.now now) (length (D.view.contents disk.old)) }
    ensures called { CallsOnce D.view
        (plan_left journal.now (bare (rows_with arc_value rows.now.rows)) roots group.now now)
        disk.old disk.new result }
    ensures answered { D.called disk.old disk.new (is_ok result) }
    ensures next { IfOk result (λ s. plan_left journal.now
        (bare (rows_with arc_value rows.now.rows)) roots group.now s
        ≡ after_call (plan_left journal.now (bare (rows_with arc_value rows.now.rows)) roots
        group.now now)) }
    ensures of_group { IfOk result (λ s. is_trim s ≡ false) }
    ensures room { vec_capacity buffer.old ≤ vec_capacity buffer.new }
{
    match now {
        PlanStep::Checkpoint(at) => {
            let next = make_checkpoint_call(disk, buffer, journal, rows, at)?;
            Ok(behind_checkpoint(next, roots))
        }
        PlanStep::Group(at) => {
            let target = target_of(journal, rows, group);
            let next = make_group_call(disk, buffer, target, group, at)?;
            Ok(PlanStep::Group(next))
        }
        PlanStep::Trim(_) => Ok(now),
    }
}

/// Whether all calls are made.
pub(crate) fn is_done(now: PlanStep) -> bool
    ensures { IsTrue result ↔ now ≡ plan.Group step.Done }
{
    match now {
        PlanStep::Group(CommitStep::Done) => true,
        PlanStep::Group(_) | PlanStep::Checkpoint(_) | PlanStep::Trim(_) => false,
    }
}

/// How many device calls of a group with these entries are left at a step, if the file had `roots`
/// whole roots before it.
pub(crate) fn calls_at(now: PlanStep, roots: u32, entries: &[CarriedEntry]) -> u64
    requires roots { roots_of_entries (entries_in entries.now) < 2 ^ 32 }
    requires few { length (all_writes entries.now) < 2 ^ 32 }
    ensures { (j : JournalEnd) (rows : List (Row (Unit {0}))) (first learnt : ℕ)
        → result ≡ calls_left (plan_left j rows roots
        (record { first = first; learnt = learnt; entries = entries.now }) now) }
{
    match now {
        PlanStep::Checkpoint(at) => {
            let group = group_calls(CommitStep::Grow { roots }, entries);
            checkpoint_calls(at) + group
        }
        PlanStep::Group(at) => group_calls(at, entries),
        PlanStep::Trim(_) => 0,
    }
}

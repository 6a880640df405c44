//! The device calls that truncate a file after the roots that rows use.

ghost use Rattle.std.specs.Prelude.{◌≡◌, ◌<◌, ◌^◌, IfOk, is_ok, length, List, None, ℕ};
ghost use Rattle.cm_layout.specs.declared.row.Row.{Row as AnyRow};
ghost use Rattle.cm_guards.specs.Stages.{CallsOnce, TakesCall, after_call, calls_left};
ghost use Rattle.cm_commit.specs.declared.journal_end.JournalEnd.{JournalEnd};
ghost use Rattle.cm_commit.specs.Steps.{trim_left, trim_rest, stages_left, is_trim as is_trim_step};
ghost use Rattle.cm_commit.specs.Trims.{roots_of_row, roots_of_rows};

use crate::step::{PlanStep, TrimStep};
use cm_disk::{DeviceFault, Disk};
use cm_layout::{Row, root_at};
use cm_pool::Geometry;
use cm_record::Record;
use cm_rows::LiveRows;
use std::alloc::Global;
use std::sync::Arc;

/// How many roots a row needs: one more than the root of its record.
fn roots_of(row: &Row<Arc<Record, Global>>) -> u32
    requires { roots_of_row row.now < 2 ^ 32 }
    ensures { result ≡ roots_of_row row.now }
{
    match row {
        Row::Class(row, _) => row.place.chunk.root + 1,
        Row::Loader(_) => 0,
    }
}

/// How many roots rows use: one more than the greatest.
pub(crate) fn used_roots(rows: &LiveRows<Arc<Record, Global>>) -> u32
    requires { roots_of_rows rows.now.rows < 2 ^ 32 }
    ensures { result ≡ roots_of_rows rows.now.rows }
{
    let mut used = 0;
    let mut left = rows.walk();
    while let Some(row) = left.next() {
        used = used.max(roots_of(row));
    }
    used
}

/// Makes the next device call of a trim that leaves `roots` roots, and returns the step that
/// follows, or `None` after the last.
pub(crate) fn make_trim_call<D: Disk>(
    disk: &mut D,
    geometry: Geometry,
    roots: u32,
    now: TrimStep,
) -> Result<Option<TrimStep>, DeviceFault>
    requires { TakesCall (trim_left geometry roots now) (length (D.view.contents disk.old)) }
    ensures called { CallsOnce D.view
        (trim_left geometry roots now) disk.old disk.new result }
    ensures answered { D.called disk.old disk.new (is_ok result) }
    ensures next { IfOk result (λ s. trim_rest geometry roots s
        ≡ after_call (trim_left geometry roots now)) }
{
    match now {
        TrimStep::Cut => {
            disk.cut(root_at(geometry, roots))?;
            Ok(Some(TrimStep::Sync))
        }
        TrimStep::Sync => {
            disk.sync()?;
            Ok(None)
        }
    }
}

/// Whether the step is one of a trim.
pub(crate) fn is_trim(now: PlanStep) -> bool
    ensures { result ≡ is_trim_step now }
{
    match now {
        PlanStep::Trim(_) => true,
        PlanStep::Checkpoint(_) | PlanStep::Group(_) => false,
    }
}

/// How many device calls are left when no group is under way.
pub(crate) fn trim_calls(now: PlanStep) -> u64
    ensures { (j : JournalEnd) (rows : List (AnyRow (Unit {0}))) (roots : ℕ)
        → result ≡ calls_left (stages_left j rows roots None now) }
{
    match now {
        PlanStep::Trim(TrimStep::Cut) => 2,
        PlanStep::Trim(TrimStep::Sync) => 1,
        PlanStep::Checkpoint(_) | PlanStep::Group(_) => 0,
    }
}

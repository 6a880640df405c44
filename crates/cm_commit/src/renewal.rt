//! Writes the journal anew when nothing is under way yet.

ghost use Rattle.std.specs.Prelude.{◌≡◌, ◌≤◌, Err, OnOk, IfOk, vec_capacity, length};
ghost use Rattle.std.specs.Arc.{arc_value};
ghost use Rattle.cm_disk.specs.Calls.{HasCause};
ghost use Rattle.cm_guards.specs.Calls.{LeavesOnly};
ghost use Rattle.cm_layout.specs.Frames.{entry_version};
ghost use Rattle.cm_layout.specs.Laws.{IsFramed};
ghost use Rattle.cm_layout.specs.Offsets.{half_size};
ghost use Rattle.cm_layout.specs.Rows.{bare, rows_with};
ghost use Rattle.cm_commit.specs.Checkpoints.{renewed_journal};
ghost use Rattle.cm_commit.specs.GroupPlans.{whole_roots};
ghost use Rattle.cm_commit.specs.Keeps.{IsHeld};
ghost use Rattle.cm_commit.specs.Renewals.{MayRenew, RenewCause};
ghost use Rattle.cm_commit.specs.declared.renewal.RenewFault.TheVariants as fault;

use crate::checkpoint::make_checkpoint_call;
use crate::journal_end::{JournalEnd, renewed};
use crate::step::CheckpointStep;
use cm_disk::{DeviceFault, Disk};
use cm_layout::half_bytes;
use cm_record::Record;
use cm_rows::LiveRows;
use std::alloc::{AllocError, Global};
use std::sync::Arc;
use thiserror::Error;

/// Why a journal wasn't written anew.
#[derive(Clone, Copy, Debug, PartialEq, Eq, Error)]
pub enum RenewFault {
    /// The device failed. What the file held it still holds, in the old half or in the new one.
    #[error("the device failed")]
    Device,
    /// An allocation failed. The disk is as it was.
    #[error("an allocation failed")]
    NoMemory,
}

impl From<DeviceFault> for RenewFault {
    ghost from_gives = { λ _ e. e ≡ fault.Device };

    fn from(_fault: DeviceFault) -> RenewFault {
        RenewFault::Device
    }
}

impl From<AllocError> for RenewFault {
    ghost from_gives = { λ _ e. e ≡ fault.NoMemory };

    fn from(_error: AllocError) -> RenewFault {
        RenewFault::NoMemory
    }
}

// Makes the device calls of a checkpoint, one after another.
fn make_calls<D: Disk>(
    disk: &mut D,
    buffer: &mut Vec<u8>,
    journal: &JournalEnd,
    rows: &LiveRows<Arc<Record, Global>>,
) -> Result<(), DeviceFault>
    requires room { half_size journal.now.geometry ≤ vec_capacity buffer.old }
    requires held { MayRenew (D.view.contents disk.old) (D.view.unsynced disk.old) journal.now
        (rows_with arc_value rows.now.rows) }
    ensures held { OnOk result (IsHeld (D.view.contents disk.new) (D.view.unsynced disk.new)
        (renewed_journal journal.now (bare (rows_with arc_value rows.now.rows)))
        (rows_with arc_value rows.now.rows)
        (whole_roots journal.now.geometry (length (D.view.contents disk.old))) entry_version) }
    ensures images { LeavesOnly D.view disk.old disk.new (λ image. IsFramed journal.now.geometry
        image (rows_with arc_value rows.now.rows) journal.now.number) }
    ensures cause { HasCause (D.view.failures disk.old) (D.view.failures disk.new) result }
{
    let mut next = Some(CheckpointStep::Shut);
    while let Some(at) = next {
        next = make_checkpoint_call(disk, buffer, journal, rows, at)?;
    }
    Ok(())
}

/// Writes the half of the journal that doesn't count anew, with the live rows and in the version
/// that is written now, and makes it the one that counts: the six device calls of a checkpoint, one
/// after another. It returns where the journal continues then. This is how a file of version 1 is
/// upgraded.
///
/// At each moment a crash leaves these rows and this number, in the old half or in the new one.
pub fn renew<D: Disk>(
    alloc: Global,
    disk: &mut D,
    journal: &JournalEnd,
    rows: &LiveRows<Arc<Record, Global>>,
) -> Result<JournalEnd, RenewFault>
    requires held { MayRenew (D.view.contents disk.old) (D.view.unsynced disk.old) journal.now
        (rows_with arc_value rows.now.rows) }
    ensures renewed { IfOk result
        (λ j. j ≡ renewed_journal journal.now (bare (rows_with arc_value rows.now.rows))) }
    ensures held { IfOk result (λ j. IsHeld (D.view.contents disk.new) (D.view.unsynced disk.new) j
        (rows_with arc_value rows.now.rows)
        (whole_roots journal.now.geometry (length (D.view.contents disk.old))) entry_version) }
    ensures images { LeavesOnly D.view disk.old disk.new (λ image. IsFramed journal.now.geometry
        image (rows_with arc_value rows.now.rows) journal.now.number) }
    ensures cause { RenewCause (D.view.failures disk.old) (D.view.failures disk.new) result }
{
    let mut buffer = Vec::with_capacity(alloc, half_bytes(journal.geometry) as usize)?;
    make_calls(disk, &mut buffer, journal, rows)?;
    Ok(renewed(journal, rows))
}

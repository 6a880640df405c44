//! The device calls of a checkpoint.

ghost use Rattle.std.specs.Prelude.{◌≡◌, ◌≤◌, IfOk, is_ok, length, vec_capacity, List};
ghost use Rattle.std.specs.Arc.{arc_value};
ghost use Rattle.cm_layout.specs.Offsets.{half_size};
ghost use Rattle.cm_layout.specs.Rows.{bare, rows_with};
ghost use Rattle.cm_layout.specs.Slots.{open_gate};
ghost use Rattle.cm_guards.specs.Stages.{MakesWrite, CallsOnce, TakesWrite, TakesCall, after_call};
ghost use Rattle.cm_guards.specs.Stages.{gate_write, calls_left};
ghost use Rattle.cm_layout.specs.declared.row.Row.{Row};
ghost use Rattle.cm_commit.specs.declared.journal_end.JournalEnd.{JournalEnd};
ghost use Rattle.cm_commit.specs.declared.step.CheckpointStep.TheVariants as checkpoint;
ghost use Rattle.cm_commit.specs.Steps.{FitsHalf, checkpoint_left, checkpoint_rest};
ghost use Rattle.cm_commit.specs.Steps.{half_gate as gate_of, renewed_write};

use crate::bytes::put_half;
use crate::journal_end::{JournalEnd, renewed_head};
use crate::step::CheckpointStep;
use cm_disk::{DeviceFault, Disk};
use cm_layout::{OPEN_GATE, half_at};
use cm_record::Record;
use cm_rows::LiveRows;
use std::alloc::Global;
use std::sync::Arc;

/// The byte of a shut gate.
const SHUT_GATE: u8 = 0;

/// The position of the gate of the half that doesn't count.
fn half_gate(journal: &JournalEnd) -> u64
    ensures { result ≡ gate_of journal.now }
{
    half_at(journal.geometry, journal.half.other())
}

/// Writes a byte to the gate of the half that doesn't count.
fn write_gate<D: Disk>(disk: &mut D, journal: &JournalEnd, byte: u8) -> Result<(), DeviceFault>
    requires fits { TakesWrite (gate_write (gate_of journal.now) byte)
        (length (D.view.contents disk.old)) }
    ensures written { MakesWrite D.view
        (gate_write (gate_of journal.now) byte) disk.old disk.new result }
    ensures answered { D.called disk.old disk.new (is_ok result) }
{
    disk.write_at(half_gate(journal), &[byte])
}

/// Shuts the half that doesn't count, if its gate is open. A gate that is shut isn't overwritten,
/// since a crash could leave it open: a sync takes the place of that write.
fn shut<D: Disk>(disk: &mut D, journal: &JournalEnd) -> Result<(), DeviceFault>
    requires fits { (rows : List (Row (Unit {0}))) → TakesCall
        (checkpoint_left journal.now rows checkpoint.Shut) (length (D.view.contents disk.old)) }
    ensures called { (rows : List (Row (Unit {0}))) → CallsOnce D.view
        (checkpoint_left journal.now rows checkpoint.Shut) disk.old disk.new
        result }
    ensures answered { D.called disk.old disk.new (is_ok result) }
{
    if journal.other_open {
        write_gate(disk, journal, SHUT_GATE)
    } else {
        disk.sync()
    }
}

/// Writes the half that doesn't count, from the byte after its gate: its head, the live rows, and a
/// shut slot.
fn write_half<D: Disk>(
    disk: &mut D,
    buffer: &mut Vec<u8>,
    journal: &JournalEnd,
    rows: &LiveRows<Arc<Record, Global>>,
) -> Result<(), DeviceFault>
    requires room { half_size journal.now.geometry ≤ vec_capacity buffer.old }
    requires half { FitsHalf journal.now (bare (rows_with arc_value rows.now.rows)) }
    requires fits { TakesWrite
        (renewed_write journal.now (bare (rows_with arc_value rows.now.rows)))
        (length (D.view.contents disk.old)) }
    ensures written { MakesWrite D.view
        (renewed_write journal.now (bare (rows_with arc_value rows.now.rows))) disk.old disk.new
        result }
    ensures answered { D.called disk.old disk.new (is_ok result) }
    ensures room { vec_capacity buffer.old ≤ vec_capacity buffer.new }
{
    let head = renewed_head(journal, rows);
    put_half(buffer, &head, rows);
    disk.write_at(half_gate(journal) + 1, buffer)
}

/// Makes the next device call of a checkpoint and returns the step that follows, or `None` after
/// the last. From then on the journal continues in the other half, after the live rows.
pub(crate) fn make_checkpoint_call<D: Disk>(
    disk: &mut D,
    buffer: &mut Vec<u8>,
    journal: &JournalEnd,
    rows: &LiveRows<Arc<Record, Global>>,
    now: CheckpointStep,
) -> Result<Option<CheckpointStep>, DeviceFault>
    requires room { half_size journal.now.geometry ≤ vec_capacity buffer.old }
    requires half { FitsHalf journal.now (bare (rows_with arc_value rows.now.rows)) }
    requires fits { TakesCall (checkpoint_left journal.now
        (bare (rows_with arc_value rows.now.rows)) now) (length (D.view.contents disk.old)) }
    ensures called { CallsOnce D.view
        (checkpoint_left journal.now (bare (rows_with arc_value rows.now.rows)) now) disk.old
        disk.new result }
    ensures answered { D.called disk.old disk.new (is_ok result) }
    ensures next { IfOk result (λ s. checkpoint_rest journal.now
        (bare (rows_with arc_value rows.now.rows)) s
        ≡ after_call (checkpoint_left journal.now (bare (rows_with arc_value rows.now.rows)) now)) }
    ensures room { vec_capacity buffer.old ≤ vec_capacity buffer.new }
{
    match now {
        CheckpointStep::Shut => {
            shut(disk, journal)?;
            Ok(Some(CheckpointStep::SyncShut))
        }
        CheckpointStep::SyncShut => {
            disk.sync()?;
            Ok(Some(CheckpointStep::Write))
        }
        CheckpointStep::Write => {
            write_half(disk, buffer, journal, rows)?;
            Ok(Some(CheckpointStep::SyncWritten))
        }
        CheckpointStep::SyncWritten => {
            disk.sync()?;
            Ok(Some(CheckpointStep::Open))
        }
        CheckpointStep::Open => {
            write_gate(disk, journal, OPEN_GATE)?;
            Ok(Some(CheckpointStep::SyncOpened))
        }
        CheckpointStep::SyncOpened => {
            disk.sync()?;
            Ok(None)
        }
    }
}

/// How many device calls of a checkpoint are left at a step.
pub(crate) fn checkpoint_calls(now: CheckpointStep) -> u64
    ensures few { result ≤ 6 }
    ensures calls { (j : JournalEnd) (rows : List (Row (Unit {0})))
        → result ≡ calls_left (checkpoint_left j rows now) }
{
    match now {
        CheckpointStep::Shut => 6,
        CheckpointStep::SyncShut => 5,
        CheckpointStep::Write => 4,
        CheckpointStep::SyncWritten => 3,
        CheckpointStep::Open => 2,
        CheckpointStep::SyncOpened => 1,
    }
}

//! The device calls that store a group.

ghost use Rattle.std.specs.Prelude.{◌≡◌, ◌≤◌, ◌<◌, ◌+◌, ◌*◌, IfOk, is_ok, length, vec_capacity};
ghost use Rattle.cm_layout.specs.Offsets.{root_size};
ghost use Rattle.cm_layout.specs.Slots.{open_gate};
ghost use Rattle.cm_group.specs.Groups.{entries_in, group_limit};
ghost use Rattle.cm_commit.specs.declared.step.CommitStep.TheVariants as step;
ghost use Rattle.cm_guards.specs.Stages.{after_call};
ghost use Rattle.cm_commit.specs.GroupPlans.{root_write, place_write, slots_write};
ghost use Rattle.cm_guards.specs.Stages.{MakesWrite, CallsOnce, TakesWrite, TakesCall};
ghost use Rattle.cm_guards.specs.Stages.{gate_write};
ghost use Rattle.cm_commit.specs.Steps.{FitsJournal, next_gate, stages_at};

use crate::bytes::{put_record, put_slots, put_zeros};
use crate::entries::{next_write, roots_needed};
use crate::journal_end::JournalEnd;
use crate::step::CommitStep;
use cm_disk::{DeviceFault, Disk};
use cm_group::Group;
use cm_layout::{OPEN_GATE, record_at, root_at, root_bytes, slot_at};
use cm_pool::{Geometry, Place};
use cm_record::Record;

/// Writes a root of zeros.
fn write_root<D: Disk>(
    disk: &mut D,
    buffer: &mut Vec<u8>,
    geometry: Geometry,
    root: u32,
) -> Result<(), DeviceFault>
    requires room { root_size geometry ≤ vec_capacity buffer.old }
    requires fits { TakesWrite (root_write geometry root) (length (D.view.contents disk.old)) }
    ensures written { MakesWrite D.view
        (root_write geometry root) disk.old disk.new result }
    ensures answered { D.called disk.old disk.new (is_ok result) }
    ensures room { vec_capacity buffer.old ≤ vec_capacity buffer.new }
{
    put_zeros(buffer, root_bytes(geometry) as usize);
    disk.write_at(root_at(geometry, root), buffer)
}

/// Writes a record at its place.
fn write_record<D: Disk>(
    disk: &mut D,
    buffer: &mut Vec<u8>,
    geometry: Geometry,
    place: Place,
    class: &Record,
) -> Result<(), DeviceFault>
    requires room { 8 * length class.now ≤ vec_capacity buffer.old }
    requires fits { TakesWrite (place_write geometry place class.now)
        (length (D.view.contents disk.old)) }
    ensures written { MakesWrite D.view
        (place_write geometry place class.now) disk.old disk.new result }
    ensures answered { D.called disk.old disk.new (is_ok result) }
    ensures room { vec_capacity buffer.old ≤ vec_capacity buffer.new }
{
    put_record(buffer, class);
    disk.write_at(record_at(geometry, place), buffer)
}

/// Writes a group's slots, from the byte after its gate.
fn write_slots<D: Disk>(
    disk: &mut D,
    buffer: &mut Vec<u8>,
    journal: JournalEnd,
    group: &Group,
) -> Result<(), DeviceFault>
    requires room { root_size journal.geometry ≤ vec_capacity buffer.old }
    requires group { FitsJournal journal group.now }
    requires fits { TakesWrite (slots_write journal.geometry journal.half journal.end
        journal.number (entries_in group.now.entries)) (length (D.view.contents disk.old)) }
    ensures written { MakesWrite D.view
        (slots_write journal.geometry journal.half journal.end journal.number
        (entries_in group.now.entries)) disk.old disk.new result }
    ensures answered { D.called disk.old disk.new (is_ok result) }
    ensures room { vec_capacity buffer.old ≤ vec_capacity buffer.new }
{
    let at = slot_at(journal.geometry, journal.half, journal.end) + 1;
    let count = group.slots() as u16;
    put_slots(buffer, journal, count, group.entries());
    disk.write_at(at, buffer)
}

/// Writes the next record of a group, from this one of this entry's on, or its slots if no record
/// is left. Returns the step that follows.
fn write_next<D: Disk>(
    disk: &mut D,
    buffer: &mut Vec<u8>,
    journal: JournalEnd,
    group: &Group,
    entry: usize,
    number: usize,
) -> Result<CommitStep, DeviceFault>
    requires room { root_size journal.geometry ≤ vec_capacity buffer.old }
    requires group { FitsJournal journal group.now }
    requires fits { TakesCall (stages_at journal group.now (step.Write entry number))
        (length (D.view.contents disk.old)) }
    ensures called { CallsOnce D.view
        (stages_at journal group.now (step.Write entry number)) disk.old disk.new result }
    ensures answered { D.called disk.old disk.new (is_ok result) }
    ensures next { IfOk result (λ s. stages_at journal group.now s
        ≡ after_call (stages_at journal group.now (step.Write entry number))) }
    ensures room { vec_capacity buffer.old ≤ vec_capacity buffer.new }
{
    match next_write(group.entries(), entry, number) {
        Some(next) => {
            write_record(disk, buffer, journal.geometry, next.place, next.class)?;
            Ok(CommitStep::Write {
                entry: next.entry,
                number: next.number,
            })
        }
        None => {
            write_slots(disk, buffer, journal, group)?;
            Ok(CommitStep::Sync)
        }
    }
}

/// Writes the next root of zeros that a group needs, if the file has too few roots, or else the
/// first record. Returns the step that follows.
fn grow<D: Disk>(
    disk: &mut D,
    buffer: &mut Vec<u8>,
    journal: JournalEnd,
    group: &Group,
    roots: u32,
) -> Result<CommitStep, DeviceFault>
    requires room { root_size journal.geometry ≤ vec_capacity buffer.old }
    requires group { FitsJournal journal group.now }
    requires fits { TakesCall (stages_at journal group.now (step.Grow roots))
        (length (D.view.contents disk.old)) }
    ensures called { CallsOnce D.view
        (stages_at journal group.now (step.Grow roots)) disk.old disk.new result }
    ensures answered { D.called disk.old disk.new (is_ok result) }
    ensures next { IfOk result (λ s. stages_at journal group.now s
        ≡ after_call (stages_at journal group.now (step.Grow roots))) }
    ensures room { vec_capacity buffer.old ≤ vec_capacity buffer.new }
{
    if roots < roots_needed(group.entries()) {
        write_root(disk, buffer, journal.geometry, roots)?;
        Ok(CommitStep::Grow { roots: roots + 1 })
    } else {
        write_next(disk, buffer, journal, group, 0, 0)
    }
}

/// Writes the byte of a group's gate.
fn write_gate<D: Disk>(disk: &mut D, journal: JournalEnd) -> Result<(), DeviceFault>
    requires fits { TakesWrite (gate_write (next_gate journal) open_gate)
        (length (D.view.contents disk.old)) }
    ensures written { MakesWrite D.view
        (gate_write (next_gate journal) open_gate) disk.old disk.new result }
    ensures answered { D.called disk.old disk.new (is_ok result) }
{
    let gate = slot_at(journal.geometry, journal.half, journal.end);
    disk.write_at(gate, &[OPEN_GATE])
}

/// Makes the next device call of a group, other than those of a checkpoint, and returns the step
/// that follows.
pub(crate) fn make_group_call<D: Disk>(
    disk: &mut D,
    buffer: &mut Vec<u8>,
    journal: JournalEnd,
    group: &Group,
    now: CommitStep,
) -> Result<CommitStep, DeviceFault>
    requires room { root_size journal.geometry ≤ vec_capacity buffer.old }
    requires group { FitsJournal journal group.now }
    requires fits { TakesCall (stages_at journal group.now now)
        (length (D.view.contents disk.old)) }
    ensures called { CallsOnce D.view
        (stages_at journal group.now now) disk.old disk.new result }
    ensures answered { D.called disk.old disk.new (is_ok result) }
    ensures next { IfOk result (λ s. stages_at journal group.now s
        ≡ after_call (stages_at journal group.now now)) }
    ensures room { vec_capacity buffer.old ≤ vec_capacity buffer.new }
{
    match now {
        CommitStep::Grow { roots } => grow(disk, buffer, journal, group, roots),
        CommitStep::Write { entry, number } => {
            write_next(disk, buffer, journal, group, entry, number)
        }
        CommitStep::Sync => {
            disk.sync()?;
            Ok(CommitStep::Gate)
        }
        CommitStep::Gate => {
            write_gate(disk, journal)?;
            Ok(CommitStep::LastSync)
        }
        CommitStep::LastSync => {
            disk.sync()?;
            Ok(CommitStep::Done)
        }
        CommitStep::Done => Ok(CommitStep::Done),
    }
}

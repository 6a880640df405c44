//! The bytes of the writes of groups and checkpoints.

ghost use Rattle.std.specs.Prelude.{◌≡◌, ◌≤◌, ◌+◌, ◌*◌, ◌++◌, ◌<◌, ◌^◌, length, vec_capacity};
ghost use Rattle.cm_record_layout.specs.Packing.{word_bytes};
ghost use Rattle.cm_layout.specs.Zeros.{blank};
ghost use Rattle.cm_layout.specs.Offsets.{slot_size};
ghost use Rattle.cm_layout.specs.Slots.{half_head_rest, group_head_rest, row_slots, entry_slots};
ghost use Rattle.cm_layout.specs.Rows.{bare, rows_with};
ghost use Rattle.std.specs.Arc.{arc_value};
ghost use Rattle.cm_commit.specs.Checkpoints.{half_behind_gate};
ghost use Rattle.std.specs.List.{flat_map};
ghost use Rattle.cm_group.specs.Groups.{entries_in, slots_taken};
ghost use Rattle.cm_commit.specs.GroupPlans.{slots_behind_gate, shut_slot};

use crate::journal_end::JournalEnd;
use cm_group::CarriedEntry;
use cm_layout::{GroupHead, HalfHead, SLOT_BYTES};
use cm_record::Record;
use cm_rows::LiveRows;
use std::alloc::Global;
use std::sync::Arc;

/// Replaces the buffer's contents with `count` zeros.
#[tactic(auto, unfolding(cm_layout::specs::Zeros::blank))]
pub(crate) fn put_zeros(buffer: &mut Vec<u8>, count: usize)
    requires { count ≤ vec_capacity buffer.old }
    ensures zeros { buffer.new.items ≡ blank count }
    ensures room { vec_capacity buffer.old ≤ vec_capacity buffer.new }
{
    buffer.clear();
    buffer.resize(count, 0).unwrap();
}

/// Replaces the buffer's contents with the bytes of a record.
pub(crate) fn put_record(buffer: &mut Vec<u8>, class: &Record)
    requires { 8 * length class.now ≤ vec_capacity buffer.old }
    ensures bytes { buffer.new.items ≡ word_bytes class.now }
    ensures room { vec_capacity buffer.old ≤ vec_capacity buffer.new }
{
    // Only what is longer than what was there is filled with zeros first.
    buffer.resize(8 * class.words() as usize, 0).unwrap();
    class.bytes_into(buffer);
}

/// Appends the slots of entries.
fn add_entries(buffer: &mut Vec<u8>, entries: &[CarriedEntry])
    requires { length buffer.old.items + length (flat_map entry_slots (entries_in entries.now))
        ≤ vec_capacity buffer.old }
    ensures bytes { buffer.new.items ≡ buffer.old.items
        ++ flat_map entry_slots (entries_in entries.now) }
    ensures room { vec_capacity buffer.old ≤ vec_capacity buffer.new }
{
    for carried in entries {
        let slots = carried.bare().encode();
        buffer.extend_from_slice(slots.as_bytes()).unwrap();
    }
}

/// Replaces the buffer's contents with the head of a half, from the byte after its gate.
fn put_half_head(buffer: &mut Vec<u8>, head: &HalfHead)
    requires { 63 ≤ vec_capacity buffer.old }
    ensures bytes { buffer.new.items ≡ half_head_rest head.now }
    ensures room { vec_capacity buffer.old ≤ vec_capacity buffer.new }
{
    buffer.clear();
    buffer.extend_from_slice(&head.encode()[1..]).unwrap();
}

/// Appends the slots of live rows.
fn add_rows(buffer: &mut Vec<u8>, rows: &LiveRows<Arc<Record, Global>>)
    requires { length buffer.old.items
        + length (flat_map row_slots (bare (rows_with arc_value rows.now.rows)))
        ≤ vec_capacity buffer.old }
    ensures bytes { buffer.new.items ≡ buffer.old.items
        ++ flat_map row_slots (bare (rows_with arc_value rows.now.rows)) }
    ensures room { vec_capacity buffer.old ≤ vec_capacity buffer.new }
{
    let mut left = rows.walk();
    while let Some(row) = left.next() {
        let slots = row.encode();
        buffer.extend_from_slice(slots.as_bytes()).unwrap();
    }
}

/// Replaces the buffer's contents with a half of the journal, from the byte after its gate: its
/// head, the live rows, and a shut slot after them.
pub(crate) fn put_half(buffer: &mut Vec<u8>, head: &HalfHead, rows: &LiveRows<Arc<Record, Global>>)
    requires room { 127 + length (flat_map row_slots (bare (rows_with arc_value rows.now.rows)))
        ≤ vec_capacity buffer.old }
    ensures bytes { buffer.new.items
        ≡ half_behind_gate head.now (bare (rows_with arc_value rows.now.rows)) }
    ensures room { vec_capacity buffer.old ≤ vec_capacity buffer.new }
{
    put_half_head(buffer, head);
    add_rows(buffer, rows);
    add_shut_slot(buffer);
}

/// Replaces the buffer's contents with the head of a group, from the byte after its gate.
fn put_head(buffer: &mut Vec<u8>, head: &GroupHead)
    requires { 63 ≤ vec_capacity buffer.old }
    ensures bytes { buffer.new.items ≡ group_head_rest head.now }
    ensures room { vec_capacity buffer.old ≤ vec_capacity buffer.new }
{
    buffer.clear();
    buffer.extend_from_slice(&head.encode()[1..]).unwrap();
}

/// Appends a shut slot.
#[tactic(auto, unfolding(cm_layout::specs::Zeros::blank))]
fn add_shut_slot(buffer: &mut Vec<u8>)
    requires { length buffer.old.items + slot_size ≤ vec_capacity buffer.old }
    ensures bytes { buffer.new.items ≡ buffer.old.items ++ blank slot_size }
    ensures room { vec_capacity buffer.old ≤ vec_capacity buffer.new }
{
    buffer.extend_from_slice(&[0; SLOT_BYTES]).unwrap();
}

/// Replaces the buffer's contents with a group's slots, from the byte after its gate: its head, its
/// entries, and a shut slot after them if the half has one there.
pub(crate) fn put_slots(
    buffer: &mut Vec<u8>,
    journal: JournalEnd,
    count: u16,
    entries: &[CarriedEntry],
)
    requires count { count ≡ slots_taken entries.now }
    requires number { journal.number < 2 ^ 63 }
    requires end { journal.end + count < journal.geometry.slots }
    requires size { length (flat_map entry_slots (entries_in entries.now)) ≡ 64 * count }
    requires room { 64 * count + 127 ≤ vec_capacity buffer.old }
    ensures bytes { buffer.new.items ≡ slots_behind_gate journal.number (entries_in entries.now)
        ++ shut_slot journal.geometry (journal.end + count + 1) }
    ensures room { vec_capacity buffer.old ≤ vec_capacity buffer.new }
{
    let head = GroupHead {
        count,
        first: journal.number + 1,
    };
    put_head(buffer, &head);
    add_entries(buffer, entries);
    if journal.end + u32::from(count) + 1 < journal.geometry.slots() {
        add_shut_slot(buffer);
    }
}

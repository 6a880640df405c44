//! The walk through the half that counts.

ghost use Rattle.std.specs.Prelude.{◌≡◌, ◌≤◌, ◌<◌, ◌+◌, ◌*◌, ◌-◌, ◌^◌, [], length, false, true};
ghost use Rattle.std.specs.Prelude.{OnOk};
ghost use Rattle.cm_layout.specs.Offsets.{slot_size};
ghost use Rattle.cm_layout.specs.Frames.{IsGoodHead};
ghost use Rattle.cm_verdict.specs.Faults.{damage_of as damage_of_rule};
ghost use Rattle.cm_verdict.specs.Decoding.{row_in as row_spelled, entry_in as entry_spelled};
ghost use Rattle.cm_verdict.specs.Decoding.{group_head_in as group_head_spelled, numbers_in};
ghost use Rattle.cm_verdict.specs.Decoding.{numbers_taken};
ghost use Rattle.cm_verdict.specs.Walk.{placed_row as placed_row_at};
ghost use Rattle.cm_verdict.specs.Walk.{placed_entry as placed_entry_at, live_turn as live_turn_of};
ghost use Rattle.cm_verdict.specs.Walk.{entry_turn as entry_turn_of, is_good_group};
ghost use Rattle.cm_verdict.specs.Walk.{gate_turn as gate_turn_of, turn as turn_of, walk};
ghost use Rattle.cm_verdict.specs.Walk.{start, first_slot as first_slot_of};
ghost use Rattle.cm_verdict.specs.Found.{walk_through as walk_through_of};
ghost use Rattle.cm_verdict.specs.Walking.{walked, IsSteady, IsSameWalk, IsWalkTurn, IsTurn};
ghost use Rattle.cm_verdict.specs.Walking.{IsWalk};

use crate::counting::Counting;
use crate::decode::{entry_in, group_head_in, row_in};
use crate::defined_at::DefinedAt;
use crate::fault::{Damage, FileFault};
use cm_layout::{
    Entry, EntryRule, GROUP_SLOTS, GroupHead, Half, LAST_NUMBER, OLDEST_VERSION, OPEN_GATE, Row,
    SLOT_BYTES, front_slot, is_rest,
};
use cm_pool::Geometry;
use cm_rows::LiveRows;

/// How far the walk through a half of the journal has come.
#[derive(Drop)]
pub struct HalfWalk {
    geometry: Geometry,
    /// The version of the half's entries.
    version: u16,
    /// The live rows.
    book: LiveRows<DefinedAt>,
    /// The number of the half's slot 0, counted over both halves.
    first: u32,
    /// The next slot of the half.
    slot: u32,
    /// The number of the last command.
    number: u64,
    /// Whether the walk is still in the live rows, before any group.
    live: bool,
    /// How many slots of the live rows, or of the current group, are still to come.
    left: u32,
}

/// How a walk continues.
#[derive(Clone, Copy, Debug, PartialEq, Eq)]
enum WalkStep {
    On,
    End,
}

// The damage that an entry is which breaks this rule.
fn damage_of(rule: EntryRule) -> Damage
    ensures { result ≡ damage_of_rule rule }
{
    match rule {
        EntryRule::OnRows => Damage::Rows,
        EntryRule::OnChunks => Damage::Chunks,
    }
}

// The row, with the slot of its entry.
fn placed_row(slot: u32, row: Row<()>) -> Row<DefinedAt>
    ensures { result ≡ placed_row_at slot row }
{
    match row {
        Row::Loader(row) => Row::Loader(row),
        Row::Class(row, _) => Row::Class(row, DefinedAt { slot }),
    }
}

// The entry, with its slot if it defines a class.
fn placed_entry(slot: u32, entry: Entry<()>) -> Entry<DefinedAt>
    ensures { result ≡ placed_entry_at slot entry }
{
    match entry {
        Entry::Live(row) => Entry::Live(placed_row(slot, row)),
        Entry::Unload(entry) => Entry::Unload(entry),
        Entry::Move(entry) => Entry::Move(entry),
        Entry::UnloadAll(entry) => Entry::UnloadAll(entry),
    }
}

impl HalfWalk {
    /// The number of the last command.
    pub fn number(&self) -> u64
        ensures { result ≡ (walked self.now).number }
    {
        self.number
    }

    /// The slot where the groups end: a gate that isn't open, or the half's end.
    pub fn end(&self) -> u32
        ensures { result ≡ (walked self.now).slot }
    {
        self.slot
    }

    /// The live rows, each class with the slot of its entry.
    pub fn into_book(self) -> LiveRows<DefinedAt>
        ensures { result.rows ≡ (walked self).rows }
    {
        self.book
    }

    // Takes a live row. `slots` are those of the live rows that are still to come.
    fn live_turn(&mut self, slots: &[u8]) -> Result<(), Damage>
        requires steady { IsSteady self.old }
        requires live { self.old.live ≡ true }
        requires some { 1 ≤ self.old.left }
        requires slots { length slots.now ≡ slot_size * self.old.left }
        ensures turned { IsWalkTurn result (walked self.new)
            (live_turn_of self.old.geometry self.old.first (walked self.old)
            (row_spelled self.old.version slots.now)) }
        ensures steady { OnOk result (IsSteady self.new) }
        ensures kept { IsSameWalk self.old self.new }
    {
        let Some(row) = row_in(self.version, slots) else {
            return Err(Damage::Slot);
        };
        let taken = row.slots() as u32;
        let row = placed_row(self.first + self.slot, row);
        if let Some(rule) = self.book.apply_live(self.number, row) {
            return Err(damage_of(rule));
        }
        self.slot += taken;
        self.left -= taken;
        Ok(())
    }

    // Takes an entry of a group. `slots` are those of the group that are still to come.
    fn entry_turn(&mut self, slots: &[u8]) -> Result<(), Damage>
        requires steady { IsSteady self.old }
        requires live { self.old.live ≡ false }
        requires some { 1 ≤ self.old.left }
        requires slots { length slots.now ≡ slot_size * self.old.left }
        ensures turned { IsWalkTurn result (walked self.new)
            (entry_turn_of self.old.geometry self.old.first (walked self.old)
            (entry_spelled self.old.version slots.now)) }
        ensures steady { OnOk result (IsSteady self.new) }
        ensures kept { IsSameWalk self.old self.new }
    {
        let Some(entry) = entry_in(self.version, slots) else {
            return Err(Damage::Slot);
        };
        let taken = entry.slots() as u32;
        let entry = placed_entry(self.first + self.slot, entry);
        if let Some(rule) = self.book.apply(self.number + 1, entry) {
            return Err(damage_of(rule));
        }
        self.slot += taken;
        self.number += 1;
        self.left -= taken;
        Ok(())
    }

    // Whether the head of a group in the next slot is good, if these slots follow it.
    fn is_good_group(&self, head: &GroupHead, entries: &[u8]) -> bool
        requires steady { IsSteady self.now }
        requires entries { length entries.now + slot_size * (self.now.slot + 1)
            ≡ slot_size * self.now.geometry.slots }
        ensures { result ≡ is_good_group self.now.geometry (walked self.now) head.now entries.now }
    {
        let count = u32::from(head.count);
        count >= 1
            && count as usize <= GROUP_SLOTS
            && self.slot + count <= self.geometry.slots() - 1
            && head.first == self.number + 1
            && self.number + numbers_taken(self.version, head.count, entries) <= LAST_NUMBER
    }

    // Takes a gate: the head of a group, or the half's end.
    fn gate_turn(&mut self, slots: &[u8]) -> Result<WalkStep, Damage>
        requires steady { IsSteady self.old }
        requires none { self.old.left ≡ 0 }
        requires some { self.old.slot < self.old.geometry.slots }
        requires slots { length slots.now + slot_size * self.old.slot
            ≡ slot_size * self.old.geometry.slots }
        ensures turned { IsTurn result (walked self.old) (walked self.new)
            (gate_turn_of self.old.geometry (walked self.old) slots.now) }
        ensures steady { OnOk result (IsSteady self.new) }
        ensures kept { IsSameWalk self.old self.new }
    {
        if slots[0] != OPEN_GATE {
            return Ok(WalkStep::End);
        }
        let Some(head) = group_head_in(front_slot(slots)) else {
            return Err(Damage::Head);
        };
        if !self.is_good_group(&head, &slots[SLOT_BYTES..]) {
            return Err(Damage::Head);
        }
        self.slot += 1;
        self.live = false;
        self.left = u32::from(head.count);
        Ok(WalkStep::On)
    }

    // Takes the first row, entry or gate that the slots from here on spell.
    #[tactic(auto, unfolding(crate::specs::Walk::turn))]
    fn turn(&mut self, slots: &[u8]) -> Result<WalkStep, Damage>
        requires steady { IsSteady self.old }
        requires some { self.old.slot < self.old.geometry.slots }
        requires slots { length slots.now + slot_size * self.old.slot
            ≡ slot_size * self.old.geometry.slots }
        ensures turned { IsTurn result (walked self.old) (walked self.new)
            (turn_of self.old.geometry self.old.first (walked self.old) slots.now) }
        ensures steady { OnOk result (IsSteady self.new) }
        ensures kept { IsSameWalk self.old self.new }
    {
        if self.left == 0 {
            return self.gate_turn(slots);
        }
        let left = &slots[..SLOT_BYTES * self.left as usize];
        if self.live {
            self.live_turn(left)?;
        } else {
            self.entry_turn(left)?;
        }
        Ok(WalkStep::On)
    }

    // The beginning of a walk through the half that counts, after its head.
    fn new(geometry: Geometry, book: LiveRows<DefinedAt>, counts: &Counting) -> HalfWalk
        requires book { book ≡ record { sizes = geometry; rows = [] } }
        requires good { IsGoodHead geometry counts.now.head }
        ensures walked { walked result ≡ start counts.now.head }
        ensures half { result.first ≡ first_slot_of geometry counts.now.half }
        ensures geometry { result.geometry ≡ geometry }
        ensures steady { IsSteady result }
    {
        let slots = geometry.slots();
        let first = match counts.half {
            Half::Zero => 0,
            Half::One => slots,
        };
        HalfWalk {
            geometry,
            version: counts.head.version,
            book,
            first,
            slot: 1,
            number: counts.head.base,
            live: true,
            left: counts.head.live,
        }
    }

    // Walks through the half to its end. The result is the finished walk, or the first damage.
    fn walk_all(mut self, half: &[u8]) -> Result<HalfWalk, FileFault>
        requires steady { IsSteady self }
        requires begin { self.slot ≡ 1 }
        requires long { length half.now ≡ 64 * self.geometry.slots }
        ensures { IsWalk result (walk self.geometry self.first half.now (self.geometry.slots - 1)
            (walked self)) }
    {
        // A turn takes at least one slot, and two for a loader with a long name.
        for _turn in 1..self.geometry.slots() {
            let at = self.slot;
            if at >= self.geometry.slots() {
                return Ok(self);
            }
            match self.turn(&half[SLOT_BYTES * at as usize..]) {
                Ok(WalkStep::On) => {}
                Ok(WalkStep::End) => return Ok(self),
                Err(what) => return Err(FileFault::Damaged {
                    what,
                    slot: self.first + at,
                }),
            }
        }
        Ok(self)
    }
}

/// Goes through the slots of the half that counts, live rows first, then groups. The result is the
/// finished walk, or the first damage. `book` has no rows; nothing is allocated. The head is a good
/// one, as [`counting_half`](crate::counting_half) returns it.
pub fn walk_through(
    geometry: Geometry,
    book: LiveRows<DefinedAt>,
    counts: &Counting,
    half: &[u8],
) -> Result<HalfWalk, FileFault>
    requires book { book ≡ record { sizes = geometry; rows = [] } }
    requires good { IsGoodHead geometry counts.now.head }
    requires long { length half.now ≡ 64 * geometry.slots }
    ensures { IsWalk result (walk_through_of geometry counts.now half.now) }
{
    HalfWalk::new(geometry, book, counts).walk_all(half)
}

// How many of a group's slots take a number: all but continuation slots of names, which version 1
// doesn't have.
fn numbers_taken(version: u16, count: u16, slots: &[u8]) -> u64
    requires { slot_size * count ≤ length slots.now }
    ensures value { result ≡ numbers_taken version count slots.now }
    ensures few { result ≤ count }
{
    if version == OLDEST_VERSION {
        u64::from(count)
    } else {
        numbers_in(count, slots)
    }
}

fn numbers_in(count: u16, slots: &[u8]) -> u64
    requires { slot_size * count ≤ length slots.now }
    ensures value { result ≡ numbers_in count slots.now }
    ensures few { result ≤ count }
{
    let mut numbers = 0;
    for slot in 0..usize::from(count) {
        if !is_rest(front_slot(&slots[SLOT_BYTES * slot..])) {
            numbers += 1;
        }
    }
    numbers
}

//! Groups: what the accepted cache hands to its disk at once.

ghost use Rattle.std.specs.Prelude.{◌≡◌, ◌+◌, ◌^◌, ◌<◌, ◌≤◌, ◌↔◌, ◌++◌, ◌∷◌, [], ℕ, List, length};
ghost use Rattle.std.specs.Prelude.{IsOk, IfOk, IfErr, OnOk, OnErr, IsTrue};
ghost use Rattle.cm_group.specs.Groups.{IsGroup, IsContinuedBy, joined_group, group_limit};
ghost use Rattle.cm_group.specs.Groups.{slots_taken};
ghost use Rattle.cm_group.specs.Groups.{next_number};

use crate::carried::CarriedEntry;
use crate::room::GroupRoom;
use cm_layout::GROUP_SLOTS;
use std::alloc::{AllocError, Global};
use std::marker::Model;

/// Entries of one to 64 slots with consecutive numbers, each with the records that it writes: what
/// the accepted cache hands to its disk at once. It has room for 64 entries from the start.
#[derive(Drop)]
pub struct Group {
    first: u64,
    learnt: u64,
    slots: usize,
    entries: Vec<CarriedEntry>,
}

impl Model for Group {
    ghost use Rattle.std.specs.Prelude.{vec_capacity};
    ghost use Rattle.cm_group.specs.Groups.{Handed, KeepsGroup};

    ghost Value = { Handed };

    ghost view = { λ g. record { first = g.first; learnt = g.learnt; entries = g.entries.items } };

    ghost invariant = { λ g. KeepsGroup (vec_capacity g.entries) g.slots
        (record { first = g.first; learnt = g.learnt; entries = g.entries.items }) };
}

impl Group {
    /// A group of one entry, which has this number. Nothing is learnt yet. It uses room that was
    /// allocated before, so nothing is allocated here.
    pub fn new_in(room: GroupRoom, number: u64, entry: CarriedEntry) -> Group
        requires from { 1 ≤ number }
        requires to { number ≤ 2 ^ 63 }
        ensures { result ≡ record { first = number; learnt = 0; entries = entry ∷ [] } }
    {
        let mut entries = room.into_entries();
        let slots = entry.slots();
        entries.push(entry).unwrap();
        Group {
            first: number,
            learnt: 0,
            slots,
            entries,
        }
    }

    /// A group of one entry, which has this number. Nothing is learnt yet.
    pub fn new(alloc: Global, number: u64, entry: CarriedEntry) -> Result<Group, AllocError>
        requires from { 1 ≤ number }
        requires to { number ≤ 2 ^ 63 }
        ensures { IfOk result
            (λ g. g ≡ record { first = number; learnt = 0; entries = entry ∷ [] }) }
    {
        let room = GroupRoom::new(alloc)?;
        Ok(Group::new_in(room, number, entry))
    }

    /// Does nothing: its clause states the invariant of groups.
    pub fn invariant_holds(&self)
        ensures { IsGroup self.now }
    {
        let _read = self.first; // reading a field provides the invariant
    }

    /// The number of the first entry.
    pub fn first(&self) -> u64
        ensures value { result ≡ self.now.first }
        ensures lawful { IsGroup self.now }
    {
        self.first
    }

    /// How many entries there are.
    pub fn count(&self) -> usize
        ensures { result ≡ length self.now.entries }
    {
        self.entries.len()
    }

    /// The number up to which the cache had learnt that commands are durable when it handed out the
    /// group.
    pub fn learnt_number(&self) -> u64
        ensures value { result ≡ self.now.learnt }
        ensures below { result < self.now.first }
    {
        self.learnt
    }

    /// How many slots the entries take.
    pub fn slots(&self) -> usize
        ensures value { result ≡ slots_taken self.now.entries }
        ensures few { result ≤ group_limit }
    {
        self.slots
    }

    /// The entries in order.
    pub fn entries(&self) -> &[CarriedEntry]
        ensures { result.now ≡ self.now.entries }
    {
        &self.entries
    }

    /// The entries in order, with the records that they carry.
    pub fn into_entries(self) -> Vec<CarriedEntry>
        ensures { result.items ≡ self.entries }
    {
        let Group { entries, .. } = self;
        entries
    }

    /// Adds one more entry, with the next number. It is handed back, and nothing is changed,
    /// exactly if the group has no slots for it. Doesn't allocate.
    pub fn push(&mut self, entry: CarriedEntry) -> Result<(), CarriedEntry>
        requires number { next_number self.old ≤ 2 ^ 63 }
        ensures room { IsOk result ↔ (slots_taken (self.old.entries ++ entry ∷ []) ≤ group_limit) }
        ensures ok { OnOk result
            (self.new ≡ record {
              first = self.old.first;
              learnt = self.old.learnt;
              entries = self.old.entries ++ entry ∷ [];
            }) }
        ensures err { IfErr result (λ back. (back ≡ entry) × (self.new ≡ self.old)) }
    {
        if self.slots + entry.slots() > GROUP_SLOTS {
            return Err(entry);
        }
        self.slots += entry.slots();
        self.entries.push(entry).unwrap();
        Ok(())
    }

    /// Sets what the cache has learnt by the time that it hands out the group.
    pub fn set_learnt(&mut self, learnt: u64)
        requires { learnt < self.old.first }
        ensures { self.new ≡ record {
          first = self.old.first;
          learnt = learnt;
          entries = self.old.entries;
        } }
    {
        self.learnt = learnt;
    }

    /// Joins another group to this one. It is handed back, and nothing is changed, if it doesn't
    /// begin one past this group's last number, if what it knows to be durable isn't below this
    /// group's first number, or if both have more than 64 slots. Doesn't allocate.
    pub fn add(&mut self, mut other: Group) -> Result<(), Group>
        ensures goes_on { IsOk result ↔ IsContinuedBy self.old other }
        ensures ok { OnOk result (self.new ≡ joined_group self.old other) }
        ensures err { IfErr result (λ back. (back ≡ other) × (self.new ≡ self.old)) }
    {
        if !self.goes_on(&other) {
            return Err(other);
        }
        self.learnt = self.learnt.max(other.learnt);
        self.slots += other.slots;
        self.entries.append(&mut other.entries).unwrap();
        Ok(())
    }

    /// Whether another group continues where this one ends, and one group can hold both.
    fn goes_on(&self, other: &Group) -> bool
        ensures { IsTrue result ↔ IsContinuedBy self.now other.now }
    {
        self.first + self.entries.len() as u64 == other.first
            && other.learnt < self.first
            && self.slots + other.slots <= GROUP_SLOTS
    }
}

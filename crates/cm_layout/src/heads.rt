//! The heads of halves and groups.

ghost use Rattle.std.specs.Prelude.{◌≡◌, IfSome, Some};

use crate::kind;
use crate::slot::{GATE_AT, KIND_AT, OPEN_GATE, SLOT_BYTES, is_same_slot};
use byteorder::{ByteOrder, LittleEndian};

// Where the fields of a half's head are.
const VERSION_AT: usize = 2;

const LIVE_AT: usize = 4;

const EPOCH_AT: usize = 8;

const BASE_AT: usize = 16;

// Where the fields of a group's head are.
const COUNT_AT: usize = 2;

const FIRST_AT: usize = 8;

/// The version of entries that is written.
pub const ENTRY_VERSION: u16 = 2;

/// The oldest version of entries that is read. A file of it is upgraded when it is opened.
pub const OLDEST_VERSION: u16 = 1;

/// The last number that a command may have.
pub const LAST_NUMBER: u64 = 1 << 63;

/// The head of a half of the journal, its slot 0.
#[derive(Clone, Copy, Debug, PartialEq, Eq)]
pub struct HalfHead {
    /// The version of the half's entries.
    pub version: u16,
    /// How many slots the live rows after it take.
    pub live: u32,
    /// Of two open halves, the one with the greater epoch counts.
    pub epoch: u64,
    /// The number of the last command whose effect the live rows hold.
    pub base: u64,
}

/// The head of a group of entries.
#[derive(Clone, Copy, Debug, PartialEq, Eq)]
pub struct GroupHead {
    /// How many slots the entries after it take.
    pub count: u16,
    /// The number of its first entry.
    pub first: u64,
}

impl HalfHead {
    ghost use Rattle.cm_layout.specs.Slots.{half_head_slot, FitsHalfHead};

    /// The slot of this head with an open gate.
    pub fn encode(&self) -> [u8; SLOT_BYTES]
        ensures { result ≡ half_head_slot self.now }
    {
        let mut slot = [0; SLOT_BYTES];
        slot[GATE_AT] = OPEN_GATE;
        slot[KIND_AT] = kind::HALF_HEAD;
        LittleEndian::write_u16(&mut slot[VERSION_AT..], self.version);
        LittleEndian::write_u32(&mut slot[LIVE_AT..], self.live);
        LittleEndian::write_u64(&mut slot[EPOCH_AT..], self.epoch);
        LittleEndian::write_u64(&mut slot[BASE_AT..], self.base);
        slot
    }

    /// The head that a slot with an open gate spells, if it spells one.
    pub fn decode(slot: &[u8; SLOT_BYTES]) -> Option<HalfHead>
        ensures found { IfSome result (λ h. slot.now ≡ half_head_slot h) }
        ensures only { (h : _) → FitsHalfHead h → slot.now ≡ half_head_slot h → result ≡ Some h }
    {
        let head = HalfHead::at_its_places(slot);
        is_same_slot(&head.encode(), slot).then_some(head)
    }

    // The fields found in a head's slot. Only encoding the head again shows whether it is one.
    fn at_its_places(slot: &[u8; SLOT_BYTES]) -> HalfHead
        ensures { (h : _) → FitsHalfHead h → slot.now ≡ half_head_slot h → result ≡ h }
    {
        HalfHead {
            version: LittleEndian::read_u16(&slot[VERSION_AT..]),
            live: LittleEndian::read_u32(&slot[LIVE_AT..]),
            epoch: LittleEndian::read_u64(&slot[EPOCH_AT..]),
            base: LittleEndian::read_u64(&slot[BASE_AT..]),
        }
    }
}

impl GroupHead {
    ghost use Rattle.cm_layout.specs.Slots.{group_head_slot, FitsGroupHead};

    /// The slot of this head with an open gate.
    pub fn encode(&self) -> [u8; SLOT_BYTES]
        ensures { result ≡ group_head_slot self.now }
    {
        let mut slot = [0; SLOT_BYTES];
        slot[GATE_AT] = OPEN_GATE;
        slot[KIND_AT] = kind::GROUP_HEAD;
        LittleEndian::write_u16(&mut slot[COUNT_AT..], self.count);
        LittleEndian::write_u64(&mut slot[FIRST_AT..], self.first);
        slot
    }

    /// The head that a slot with an open gate spells, if it spells one.
    pub fn decode(slot: &[u8; SLOT_BYTES]) -> Option<GroupHead>
        ensures found { IfSome result (λ h. slot.now ≡ group_head_slot h) }
        ensures only { (h : _) → FitsGroupHead h → slot.now ≡ group_head_slot h → result ≡ Some h }
    {
        let head = GroupHead::at_its_places(slot);
        is_same_slot(&head.encode(), slot).then_some(head)
    }

    // The fields found in a head's slot. Only encoding the head again shows whether it is one.
    fn at_its_places(slot: &[u8; SLOT_BYTES]) -> GroupHead
        ensures { (h : _) → FitsGroupHead h → slot.now ≡ group_head_slot h → result ≡ h }
    {
        GroupHead {
            count: LittleEndian::read_u16(&slot[COUNT_AT..]),
            first: LittleEndian::read_u64(&slot[FIRST_AT..]),
        }
    }
}

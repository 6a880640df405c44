//! A live loader, and its slots.

ghost use Rattle.std.specs.Prelude.{◌≡◌, ◌≤◌, ◌*◌, ◌++◌, length, take, drop, IfSome, Some};
ghost use Rattle.std.specs.Prelude.{if◌then◌else◌, nat_le};
ghost use Rattle.cm_layout.specs.Names.{name_room, limit_of, slots_of_name};
ghost use Rattle.cm_layout.specs.Offsets.{slot_size};
ghost use Rattle.cm_layout.specs.Zeros.{zeros};

use crate::kind;
use crate::name::{LONG_NAME_ROOM, NAME_ROOM, SlotName, name_limit_of};
use crate::slot::{KIND_AT, SLOT_BYTES};
use crate::slots::Slots;
use byteorder::{ByteOrder, LittleEndian};

// Where the fields of a loader's slot are. In a continuation slot the name is at the same place.
const LENGTH_AT: usize = 2;

const NUMBER_AT: usize = 8;

const NAME_AT: usize = 16;

/// A live loader.
#[derive(Clone, Copy, Debug)]
pub struct LoaderRow {
    /// The number of the command that made it, by which everything else in the journal refers to
    /// it.
    pub number: u64,
    pub name: SlotName,
}

impl LoaderRow {
    ghost use Rattle.cm_layout.specs.Slots.{loader_slot, rest_slot as rest_slot_of, loader_slots};
    ghost use Rattle.cm_layout.specs.Slots.{FitsLoader};

    /// The slots of this row: two if its name is a long one.
    pub fn encode(&self) -> Slots
        ensures { result ≡ loader_slots self.now }
    {
        let first = self.first_slot();
        if self.name.is_long() {
            Slots::two(&first, &self.rest_slot())
        } else {
            Slots::one(&first)
        }
    }

    // The first slot, with as much of the name as it has room for.
    fn first_slot(&self) -> [u8; SLOT_BYTES]
        ensures { result ≡ loader_slot self.now }
    {
        let mut slot = [0; SLOT_BYTES];
        slot[KIND_AT] = kind::LOADER;
        slot[LENGTH_AT] = self.name.as_bytes().len() as u8;
        LittleEndian::write_u64(&mut slot[NUMBER_AT..], self.number);
        slot[NAME_AT..].copy_from_slice(self.name.front());
        slot
    }

    // The continuation slot, with the end of the name.
    fn rest_slot(&self) -> [u8; SLOT_BYTES]
        ensures { result ≡ rest_slot_of self.now.name }
    {
        let mut slot = [0; SLOT_BYTES];
        slot[KIND_AT] = kind::REST;
        slot[NAME_AT..].copy_from_slice(self.name.rest());
        slot
    }

    /// The row that these slots begin with, if they begin with a loader's row as entries of this
    /// version have it: its slot, and for a longer name its continuation slot.
    pub fn decode(version: u16, slots: &[u8]) -> Option<LoaderRow>
        requires { slot_size ≤ length slots.now }
        ensures found { IfSome result (λ row.
            take (slot_size * slots_of_name row.name) slots.now ≡ loader_slots row) }
        ensures version { IfSome result (λ row. length row.name ≤ limit_of version) }
        ensures only { (row : _) (behind : _) → FitsLoader row → length row.name ≤ limit_of version
            → slots.now ≡ loader_slots row ++ behind → result ≡ Some row }
    {
        let row = LoaderRow::at_its_places(version, slots)?;
        if slots.starts_with(row.encode().as_bytes()) {
            Some(row)
        } else {
            None
        }
    }

    // The fields found in a loader's slots. Only encoding the row again shows whether it is one.
    fn at_its_places(version: u16, slots: &[u8]) -> Option<LoaderRow>
        requires { slot_size ≤ length slots.now }
        ensures version { IfSome result (λ row. length row.name ≤ limit_of version) }
        ensures only { (row : _) (behind : _) → FitsLoader row → length row.name ≤ limit_of version
            → slots.now ≡ loader_slots row ++ behind → result ≡ Some row }
    {
        let len = usize::from(slots[LENGTH_AT]);
        if len > name_limit_of(version) {
            return None;
        }
        let name = name_room_in(slots);
        Some(LoaderRow {
            number: LittleEndian::read_u64(&slots[NUMBER_AT..]),
            name: SlotName::new(&name[..len])?,
        })
    }
}

// The bytes where a loader's slots have room for its name; zeros for the second slot if there is
// none.
fn name_room_in(slots: &[u8]) -> [u8; LONG_NAME_ROOM]
    requires { slot_size ≤ length slots.now }
    ensures { result ≡ take name_room (drop 16 slots.now)
        ++ (if nat_le 128 (length slots.now) then take name_room (drop 80 slots.now)
        else zeros name_room) }
{
    let mut name = [0; LONG_NAME_ROOM];
    name[..NAME_ROOM].copy_from_slice(&slots[NAME_AT..SLOT_BYTES]);
    if slots.len() >= 2 * SLOT_BYTES {
        name[NAME_ROOM..].copy_from_slice(&slots[SLOT_BYTES + NAME_AT..2 * SLOT_BYTES]);
    }
    name
}

//! Unloading a loader, and the slot that says so.

ghost use Rattle.std.specs.Prelude.{◌≡◌, IfSome, Some};

use crate::kind;
use crate::slot::{KIND_AT, SLOT_BYTES, is_same_slot};
use byteorder::{ByteOrder, LittleEndian};

// Where the field of an unload's slot is.
const LOADER_AT: usize = 8;

/// A loader is unloaded: its rows are removed.
#[derive(Clone, Copy, Debug, PartialEq, Eq)]
pub struct Unload {
    /// The loader's number.
    pub loader: u64,
}

impl Unload {
    ghost use Rattle.cm_layout.specs.Slots.{unload_slot, FitsUnload};

    /// The slot of this entry.
    pub fn encode(&self) -> [u8; SLOT_BYTES]
        ensures { result ≡ unload_slot self.now }
    {
        let mut slot = [0; SLOT_BYTES];
        slot[KIND_AT] = kind::UNLOAD;
        LittleEndian::write_u64(&mut slot[LOADER_AT..], self.loader);
        slot
    }

    /// The entry that a slot spells, if it spells the unloading of a loader.
    pub fn decode(slot: &[u8; SLOT_BYTES]) -> Option<Unload>
        ensures found { IfSome result (λ entry. slot.now ≡ unload_slot entry) }
        ensures only { (entry : _) → FitsUnload entry → slot.now ≡ unload_slot entry
            → result ≡ Some entry }
    {
        let entry = Unload::at_its_places(slot);
        is_same_slot(&entry.encode(), slot).then_some(entry)
    }

    // The field found in an unload's slot. Only encoding the entry again shows whether it is one.
    fn at_its_places(slot: &[u8; SLOT_BYTES]) -> Unload
        ensures { (entry : _) → FitsUnload entry → slot.now ≡ unload_slot entry → result ≡ entry }
    {
        Unload {
            loader: LittleEndian::read_u64(&slot[LOADER_AT..]),
        }
    }
}

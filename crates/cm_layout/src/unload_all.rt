//! Unloading several loaders at once, and the slot that says so.

ghost use Rattle.std.specs.Prelude.{◌≡◌, IfSome, Some};

use crate::kind;
use crate::loader_numbers::{LoaderNumbers, UNLOAD_LIMIT};
use crate::slot::{KIND_AT, SLOT_BYTES, is_same_slot};
use byteorder::{ByteOrder, LittleEndian};

// Where the fields of such an entry's slot are.
const COUNT_AT: usize = 2;

const LOADERS_AT: usize = 8;

/// Several loaders are unloaded at once: the rows of all of them are removed.
#[derive(Clone, Copy, Debug)]
pub struct UnloadAll {
    /// The loaders' numbers, in the order in which they were requested.
    pub loaders: LoaderNumbers,
}

impl UnloadAll {
    ghost use Rattle.cm_layout.specs.Slots.{unload_all_slot, FitsUnloadAll};

    /// The slot of this entry.
    pub fn encode(&self) -> [u8; SLOT_BYTES]
        ensures { result ≡ unload_all_slot self.now }
    {
        let mut slot = [0; SLOT_BYTES];
        slot[KIND_AT] = kind::UNLOAD_ALL;
        slot[COUNT_AT] = self.loaders.as_slice().len() as u8;
        LittleEndian::write_u64_into(&self.loaders.padded(), &mut slot[LOADERS_AT..]);
        slot
    }

    /// The entry that a slot spells, if it spells the unloading of several loaders.
    pub fn decode(slot: &[u8; SLOT_BYTES]) -> Option<UnloadAll>
        ensures found { IfSome result (λ entry. slot.now ≡ unload_all_slot entry) }
        ensures only { (entry : _) → FitsUnloadAll entry → slot.now ≡ unload_all_slot entry
            → result ≡ Some entry }
    {
        let entry = UnloadAll::at_its_places(slot)?;
        is_same_slot(&entry.encode(), slot).then_some(entry)
    }

    // The fields found in such a slot. Only encoding the entry again shows whether it is one.
    fn at_its_places(slot: &[u8; SLOT_BYTES]) -> Option<UnloadAll>
        ensures { (entry : _) → FitsUnloadAll entry → slot.now ≡ unload_all_slot entry
            → result ≡ Some entry }
    {
        let len = usize::from(slot[COUNT_AT]);
        if len > UNLOAD_LIMIT {
            return None;
        }
        let mut numbers = [0; UNLOAD_LIMIT];
        LittleEndian::read_u64_into(&slot[LOADERS_AT..], &mut numbers);
        let loaders = LoaderNumbers::new(&numbers[..len])?;
        Some(UnloadAll { loaders })
    }
}

//! Moving the records on a loader's last chunk to another chunk, and the slot that says so.

ghost use Rattle.std.specs.Prelude.{◌≡◌, IfSome, Some};

use crate::chunk_field::{read_chunk, write_chunk};
use crate::kind;
use crate::slot::{KIND_AT, SLOT_BYTES, is_same_slot};
use byteorder::{ByteOrder, LittleEndian};
use cm_pool::Chunk;

// Where the fields of a move's slot are.
const LOADER_AT: usize = 8;

const FROM_AT: usize = 16;

const TO_AT: usize = 28;

/// The records on a loader's last chunk are on another chunk from here on, at the same offsets.
#[derive(Clone, Copy, Debug, PartialEq, Eq)]
pub struct Move {
    /// The loader's number.
    pub loader: u64,
    pub from: Chunk,
    pub to: Chunk,
}

impl Move {
    ghost use Rattle.cm_layout.specs.Slots.{move_slot, FitsMove};

    /// The slot of this entry.
    pub fn encode(&self) -> [u8; SLOT_BYTES]
        ensures { result ≡ move_slot self.now }
    {
        let mut slot = [0; SLOT_BYTES];
        slot[KIND_AT] = kind::MOVE;
        LittleEndian::write_u64(&mut slot[LOADER_AT..], self.loader);
        write_chunk(&mut slot[FROM_AT..], self.from);
        write_chunk(&mut slot[TO_AT..], self.to);
        slot
    }

    /// The entry that a slot spells, if it spells a move.
    pub fn decode(slot: &[u8; SLOT_BYTES]) -> Option<Move>
        ensures found { IfSome result (λ entry. slot.now ≡ move_slot entry) }
        ensures only { (entry : _) → FitsMove entry → slot.now ≡ move_slot entry
            → result ≡ Some entry }
    {
        let entry = Move::at_its_places(slot);
        is_same_slot(&entry.encode(), slot).then_some(entry)
    }

    // The fields found in a move's slot. Only encoding the entry again shows whether it is one.
    fn at_its_places(slot: &[u8; SLOT_BYTES]) -> Move
        ensures { (entry : _) → FitsMove entry → slot.now ≡ move_slot entry → result ≡ entry }
    {
        Move {
            loader: LittleEndian::read_u64(&slot[LOADER_AT..]),
            from: read_chunk(&slot[FROM_AT..]),
            to: read_chunk(&slot[TO_AT..]),
        }
    }
}

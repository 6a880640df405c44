//! A live class, and its slot.

ghost use Rattle.std.specs.Prelude.{◌≡◌, IfSome, Some};

use crate::chunk_field::{read_chunk, write_chunk};
use crate::kind;
use crate::slot::{KIND_AT, SLOT_BYTES, is_same_slot};
use byteorder::{ByteOrder, LittleEndian};
use cm_pool::Place;

// Where the fields of a class's slot are.
const WORDS_AT: usize = 4;

const LOADER_AT: usize = 8;

const CHUNK_AT: usize = 16;

const OFFSET_AT: usize = 28;

/// A live class: the loader it belongs to, and the place of its record.
#[derive(Clone, Copy, Debug, PartialEq, Eq)]
pub struct ClassRow {
    /// The loader's number.
    pub loader: u64,
    pub place: Place,
}

impl ClassRow {
    ghost use Rattle.cm_layout.specs.Slots.{class_slot, FitsClass};

    /// The slot of this row.
    pub fn encode(&self) -> [u8; SLOT_BYTES]
        ensures { result ≡ class_slot self.now }
    {
        let mut slot = [0; SLOT_BYTES];
        slot[KIND_AT] = kind::CLASS;
        LittleEndian::write_u32(&mut slot[WORDS_AT..], self.place.words);
        LittleEndian::write_u64(&mut slot[LOADER_AT..], self.loader);
        write_chunk(&mut slot[CHUNK_AT..], self.place.chunk);
        LittleEndian::write_u32(&mut slot[OFFSET_AT..], self.place.offset);
        slot
    }

    /// The row that a slot spells, if it spells a class's row.
    pub fn decode(slot: &[u8; SLOT_BYTES]) -> Option<ClassRow>
        ensures found { IfSome result (λ row. slot.now ≡ class_slot row) }
        ensures only { (row : _) → FitsClass row → slot.now ≡ class_slot row → result ≡ Some row }
    {
        let row = ClassRow::at_its_places(slot);
        is_same_slot(&row.encode(), slot).then_some(row)
    }

    // The fields found in a class's slot. Only encoding the row again shows whether it is one.
    fn at_its_places(slot: &[u8; SLOT_BYTES]) -> ClassRow
        ensures { (row : _) → FitsClass row → slot.now ≡ class_slot row → result ≡ row }
    {
        ClassRow {
            loader: LittleEndian::read_u64(&slot[LOADER_AT..]),
            place: Place {
                chunk: read_chunk(&slot[CHUNK_AT..]),
                offset: LittleEndian::read_u32(&slot[OFFSET_AT..]),
                words: LittleEndian::read_u32(&slot[WORDS_AT..]),
            },
        }
    }
}

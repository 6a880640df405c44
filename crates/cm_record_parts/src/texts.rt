//! Texts of a record, compared with bytes.
ghost use Rattle.std.specs.Prelude.{◌≡◌, ℕ, List, get_or, bytes_eq};
ghost use Rattle.cm_class.specs.declared.class_file.ClassFile.{ClassFile};
ghost use Rattle.cm_class.specs.Names.{names_utf8};
ghost use Rattle.cm_record_layout.specs.Layout.{IsRecordOf};
ghost use Rattle.cm_record_layout.specs.Packing.{word_bytes};
ghost use Rattle.cm_record_parts.specs.Places.{LieAt};

use crate::constants::constant_at_index;
use crate::places::{Place, text_place};
use crate::words::word_at;
use cm_record_layout::bytes_of;

/// The byte at a place of the record, counted from its first; 0 past the end.
pub(crate) fn byte_at(words: &[u64], at: usize) -> u8
    ensures { result ≡ get_or (word_bytes words.now) at 0 }
{
    bytes_of(word_at(words, at / 8))[at % 8]
}

// Whether the bytes at a place are these.
fn lies_at(words: &[u64], place: Place, bytes: &[u8]) -> bool
    ensures { (own : List ℕ) → LieAt words.now place own → result ≡ bytes_eq own bytes.now }
{
    if place.len as usize != bytes.len() {
        return false;
    }
    for i in 0..bytes.len() {
        if byte_at(words, place.at as usize + i) != bytes[i] {
            return false;
        }
    }
    true
}

/// Whether an index of the pool has a Utf8 of these bytes.
pub(crate) fn is_utf8(words: &[u64], index: u16, bytes: &[u8]) -> bool
    ensures { (c : ClassFile) → IsRecordOf c words.now → result ≡ names_utf8 c index bytes.now }
{
    match text_place(constant_at_index(words, index)) {
        Some(place) => lies_at(words, place, bytes),
        None => false,
    }
}

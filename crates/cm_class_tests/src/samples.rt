//! Class files, byte by byte.
use cm_samples::CLASS_A;
use std::alloc::{AllocError, Global};

/// A class file with each kind of part: the heading, and one constant of each kind, with two slots
/// for each Long and Double; an interface, a field with an attribute of two bytes, a method, and an
/// attribute with none.
pub const EACH_KIND: [u8; 125] = [
    0xca, 0xfe, 0xba, 0xbe, 0, 0, 0, 0x34, 0, 17, 1, 0, 0, 3, 1, 2, 3, 4, 4, 0x7f, 0xc0, 0, 0, 5,
    0, 0, 0, 0, 0, 0, 0, 9, 6, 1, 0, 0, 0, 0, 0, 0, 0, 7, 0, 1, 8, 0, 1, 9, 0, 8, 0, 13, 10, 0xff,
    0xff, 0, 13, 11, 0, 8, 0, 13, 12, 0, 1, 0, 2, 15, 6, 0, 11, 16, 0, 1, 18, 0, 0, 0, 13, //
    2, 0, 0, 8, 0, 0, 0, 1, 0, 8, 0, 1, 0, 0x19, 0, 1, 0, 1, 0, 1, 0, 1, 0, 0, 0, 2, 0xab, 0xcd, 0,
    1, 4, 1, 0, 2, 0, 3, 0, 0, 0, 1, 0, 5, 0, 0, 0, 0,
];

/// Class A with one of its bytes replaced.
pub fn with_byte(place: usize, byte: u8) -> [u8; 53] {
    let mut bytes = CLASS_A;
    if let Some(here) = bytes.get_mut(place) {
        *here = byte;
    }
    bytes
}

/// The bytes of these parts, one after another.
pub fn join_parts(alloc: Global, parts: &[&[u8]]) -> Result<Vec<u8>, AllocError> {
    let mut bytes = Vec::new(alloc);
    for part in parts {
        bytes.extend_from_slice(part)?;
    }
    Ok(bytes)
}

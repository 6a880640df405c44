//! Class files of version 52 that keep the rules: public classes of `java/lang/Object` with nothing
//! else, or with one attribute.

use cm_commands::{PrepareFault, Prepared, prepare};
use std::alloc::{AllocError, Global};

/// The smallest such class, of the name `A`. Its record has 16 words.
pub const CLASS_A: [u8; 53] = [
    0xca, 0xfe, 0xba, 0xbe, 0, 0, 0, 0x34, 0, 5, 7, 0, 2, 1, 0, 1, 0x41, 7, 0, 4, 1, 0, 0x10, 0x6a,
    0x61, 0x76, 0x61, 0x2f, 0x6c, 0x61, 0x6e, 0x67, 0x2f, 0x4f, 0x62, 0x6a, 0x65, 0x63, 0x74, 0,
    0x21, 0, 1, 0, 3, 0, 0, 0, 0, 0, 0, 0, 0,
];

/// The same as a script spells it.
pub const CLASS_A_TEXT: &[u8] = b"cafebabe000000340005070002010001410700040100106a6176612f6c616e67\
    2f4f626a6563740021000100030000000000000000";

/// The constant of the super class, and its name.
const SUPER_CLASS: &[u8] = b"\x07\0\x04\x01\0\x10java/lang/Object";

/// Public, with its indexes of the class and of its super class; no interfaces, fields or methods.
const BODY: &[u8] = b"\0\x21\0\x01\0\x03\0\0\0\0\0\0";

/// Everything up to the super class. The pool has one constant less than this count.
fn push_name(bytes: &mut Vec<u8>, count: u8, name: &[u8]) -> Result<(), AllocError> {
    let [high, low] = u16::try_from(name.len()).unwrap_or(u16::MAX).to_be_bytes();
    bytes.extend_from_slice(&[
        0xca, 0xfe, 0xba, 0xbe, 0, 0, 0, 0x34, 0, count, 7, 0, 2, 1, high, low,
    ])?;
    bytes.extend_from_slice(name)
}

/// The smallest class of this name, which is shorter than 65,536 bytes.
pub fn class_file(alloc: Global, name: &[u8]) -> Result<Vec<u8>, AllocError> {
    let mut bytes = Vec::new(alloc);
    push_name(&mut bytes, 5, name)?;
    for part in [SUPER_CLASS, BODY, b"\0\0"] {
        bytes.extend_from_slice(part)?;
    }
    Ok(bytes)
}

/// The same with an attribute `X` of this many zeros.
pub fn padded_class_file(alloc: Global, name: &[u8], size: u32) -> Result<Vec<u8>, AllocError> {
    let mut bytes = Vec::new(alloc);
    push_name(&mut bytes, 6, name)?;
    for part in [
        SUPER_CLASS,
        b"\x01\0\x01X",
        BODY,
        b"\0\x01\0\x05",
        &size.to_be_bytes(),
    ] {
        bytes.extend_from_slice(part)?;
    }
    for _ in 0..size {
        bytes.push(0)?;
    }
    Ok(bytes)
}

/// The smallest class of this name, ready to be defined. Its record has 16 words if the name has up
/// to eight bytes.
pub fn class(alloc: Global, name: &[u8]) -> Result<Prepared, PrepareFault> {
    let bytes = class_file(alloc, name)?;
    prepare(alloc, &bytes)
}

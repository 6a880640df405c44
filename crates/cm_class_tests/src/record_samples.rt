//! Classes and their records, and how to make them.
use cm_class::{Class, read_shape};
use cm_record::{Record, build};
use std::alloc::{AllocError, Global};
use std::test::Fail;

// The record of class A, from the layout's description.
pub const RECORD_A: [u64; 16] = [
    0x10,
    0x0000_0003_0001_0021,
    5,
    8,
    0xd,
    0xd,
    0xd,
    0xd,
    0,
    0x0000_0002_0000_0007,
    0x0000_000d_0001_0001,
    0x0000_0004_0000_0007,
    0x0000_000e_0010_0001,
    0x41,
    0x6e61_6c2f_6176_616a,
    0x7463_656a_624f_2f67,
];

// Each tag, an interface, a field and a method with attributes, and an attribute of the class.
pub const ALL_TAGS: [u8; 162] = [
    0xca, 0xfe, 0xba, 0xbe, 0, 0, 0, 0x34, 0, 17, // 16 slots
    1, 0, 9, 1, 2, 3, 4, 5, 6, 7, 8, 9, // 1: Utf8 of nine bytes
    3, 1, 2, 3, 4, // 2
    4, 0xff, 0xfe, 0xfd, 0xfc, // 3
    5, 1, 2, 3, 4, 5, 6, 7, 8, // 4, 5
    6, 7, 0, 0, 0, 0, 0, 0, 7, // 6, 7
    7, 0, 1, // 8
    8, 0xff, 0xff, // 9
    9, 0, 8, 0, 12, // 10
    10, 0, 8, 0, 12, // 11
    11, 1, 2, 3, 4, // 12
    12, 0, 1, 0, 1, // 13
    15, 6, 0, 10, // 14
    16, 0, 1, // 15
    18, 0, 0, 0, 13, // 16
    0, 0x21, 0, 8, 0, 0, // flags, this, no super
    0, 2, 0, 8, 0xab, 0xcd, // interfaces
    0, 1, 0, 2, 0, 1, 0, 1, 0, 1, 0, 1, 0, 0, 0, 3, 9, 8, 7, // a field with one attribute
    0, 1, 0, 1, 0, 1, 0, 1, 0, 2, // a method with two
    0, 1, 0, 0, 0, 0, 0, 1, 0, 0, 0, 8, 1, 2, 3, 4, 5, 6, 7, 8, //
    0, 1, 0, 1, 0, 0, 0, 5, 5, 4, 3, 2, 1, // an attribute of the class
];

// Its record, written by hand from the layout's description.
pub const RECORD_ALL_TAGS: [u64; 44] = [
    44,
    0x0002_0000_0008_0021,
    0x0001_0001_0001_0011,
    8,
    25,
    27,
    31,
    39,
    0,
    0x0000_0027_0009_0001,
    0x0102_0304_0000_0003,
    0xfffe_fdfc_0000_0004,
    5,
    0x0102_0304_0506_0708,
    6,
    0x0700_0000_0000_0007,
    0x0000_0001_0000_0007,
    0x0000_ffff_0000_0008,
    0x000c_0008_0000_0009,
    0x000c_0008_0000_000a,
    0x0304_0102_0000_000b,
    0x0001_0001_0000_000c,
    0x000a_0006_0000_000f,
    0x0000_0001_0000_0010,
    0x000d_0000_0000_0012,
    8,
    0xabcd,
    0x0001_0001_0001_0002,
    31,
    0x0002_0001_0001_0001,
    33,
    0x0000_0003_0000_0001,
    41,
    1,
    42,
    0x0000_0008_0000_0001,
    42,
    0x0000_0005_0000_0001,
    43,
    0x0807_0605_0403_0201,
    9,
    0x0007_0809,
    0x0807_0605_0403_0201,
    0x0001_0203_0405,
];

pub fn record_of_class(alloc: Global, class: &Class) -> Result<Record, Fail> {
    Ok(build(alloc, class)?)
}

pub fn record_of(alloc: Global, bytes: &[u8]) -> Result<Record, Fail> {
    let class = read_shape(alloc, bytes)?;
    record_of_class(alloc, &class)
}

pub fn bytes_of(alloc: Global, words: &[u64]) -> Result<Vec<u8>, AllocError> {
    let mut bytes = Vec::new(alloc);
    for word in words {
        bytes.extend_from_slice(&word.to_le_bytes())?;
    }
    Ok(bytes)
}

pub fn record_bytes(alloc: Global, record: &Record) -> Result<Vec<u8>, AllocError> {
    let mut bytes = Vec::from_elem(alloc, 0u8, 8 * record.words() as usize)?;
    record.bytes_into(bytes.as_mut_slice());
    Ok(bytes)
}

// Class A's record with another word at a place.
pub fn with_word(place: usize, word: u64) -> [u64; 16] {
    let mut words = RECORD_A;
    if let Some(here) = words.get_mut(place) {
        *here = word;
    }
    words
}

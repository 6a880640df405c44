//! The superblock of a region file, and where its parts are.
use cm_layout::{Half, Superblock, record_at, root_at, slot_at};
use cm_pool::{Chunk, Geometry, Place};
use std::process::Abort;
use std::test::Fail;

// Magic, version, and sizes: a top of 8, 64 roots, 4,096 slots.
const FRONT: [u8; 24] = *b"CMCACHE1\x01\0\0\0\x08\0\0\0\x40\0\0\0\0\x10\0\0";

// Whether bytes are that front, zeros, and an open gate.
fn is_as_described(bytes: &[u8]) -> bool {
    let Some(rest) = bytes.strip_prefix(&FRONT) else {
        return false;
    };
    match rest.split_last() {
        Some((gate, zeros)) => {
            *gate == 0xA5 && zeros.len() == 4_071 && zeros.iter().all(|b| *b == 0)
        }
        None => false,
    }
}

#[test]
fn a_superblock_is_its_front_zeros_and_an_open_gate(rt: HostRuntime) -> Result<(), Fail> {
    let geometry = Geometry::new(8, 64, 4096).ok_or("within the limits")?;
    let bytes = Superblock { geometry }.encode(rt.alloc())?;
    assert!(rt; is_as_described(&bytes));
    assert_eq!(rt; Superblock::decode(&bytes), Some(Superblock { geometry }));
    Ok(())
}

// Places and the bytes put there: magic, version, a top of 2, no root, 257 slots' high byte, a byte
// among the zeros, the gate.
const WRONG: [(usize, u8); 7] = [
    (0, 0),
    (8, 2),
    (12, 2),
    (16, 0),
    (22, 1),
    (2_000, 1),
    (4_095, 0),
];

// Whether bytes are read with a different byte at a place, which is then put back; true if there is
// no such place.
fn is_read_with(bytes: &mut [u8], at: usize, byte: u8) -> bool {
    let Some(there) = bytes.get_mut(at) else {
        return true;
    };
    let kept = *there;
    *there = byte;
    let is_read = Superblock::decode(bytes).is_some();
    if let Some(there) = bytes.get_mut(at) {
        *there = kept;
    }
    is_read
}

// The first place with a different byte at which bytes are still read; or their end, if they are
// read without their last byte.
fn first_read(bytes: &mut [u8]) -> Option<usize> {
    for (at, byte) in &WRONG {
        if is_read_with(bytes, *at, *byte) {
            return Some(*at);
        }
    }
    match bytes.split_last() {
        Some((_, shorter)) if Superblock::decode(shorter).is_none() => None,
        _ => Some(bytes.len()),
    }
}

#[test]
fn a_superblock_has_no_other_spelling(rt: HostRuntime) -> Result<(), Fail> {
    let geometry = Geometry::new(3, 1, 256).ok_or("within the limits")?;
    let mut bytes = Superblock { geometry }.encode(rt.alloc())?;
    assert_eq!(rt; first_read(&mut bytes), None);
    Ok(())
}

#[test]
fn parts_lie_where_the_sizes_say(rt: HostRuntime) -> Result<(), Fail> {
    let geometry = Geometry::new(8, 64, 4096).ok_or("within the limits")?;
    let place = Place {
        chunk: Chunk {
            root: 0,
            order: 1,
            at: 256,
        },
        offset: 16,
        words: 20,
    };
    let found = [
        slot_at(geometry, Half::Zero, 1),
        slot_at(geometry, Half::One, 0),
        root_at(geometry, 0),
        root_at(geometry, 1),
        record_at(geometry, place),
    ];
    let expected = [4_160, 266_240, 528_384, 790_528, 528_384 + 8 * 272];
    assert_eq!(rt; found, expected);
    Ok(())
}

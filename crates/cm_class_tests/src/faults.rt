//! Bytes that are no class file, and their faults.
use crate::samples::{EACH_KIND, join_parts, with_byte};
use cm_class::{ShapeFault, read_shape};
use cm_samples::CLASS_A;
use std::alloc::{AllocError, Global};
use std::test::Fail;

/// A place in class A, the byte put there, and the first byte with which no class continues.
const WRONG: [(usize, u8, usize); 11] = [
    (0, 0xcb, 0),
    (3, 0xbf, 3),
    (4, 1, 4),
    (5, 3, 5),
    (6, 1, 6),
    (7, 53, 7),
    (9, 0, 9),
    (10, 2, 10),
    (13, 0, 13),
    (17, 19, 17),
    (20, 17, 20),
];

fn fault(alloc: Global, bytes: &[u8]) -> Option<ShapeFault> {
    read_shape(alloc, bytes).err()
}

fn has_fault(alloc: Global, bytes: &[u8], expected: ShapeFault) -> bool {
    fault(alloc, bytes) == Some(expected)
}

#[test]
fn beginnings_are_truncated(rt: HostRuntime) {
    for bytes in [CLASS_A.as_slice(), EACH_KIND.as_slice()] {
        for len in 0..bytes.len() {
            let is_truncated = has_fault(rt.alloc(), &bytes[..len], ShapeFault::Truncated);
            assert!(rt; is_truncated, "at {len}");
        }
    }
}

fn fault_with(
    alloc: Global,
    bytes: &[u8],
    behind: &[u8],
) -> Result<Option<ShapeFault>, AllocError> {
    let bytes = join_parts(alloc, &[bytes, behind])?;
    Ok(fault(alloc, &bytes))
}

/// Whether bytes after a class are reported as trailing, at this place.
fn are_trailing(alloc: Global, bytes: &[u8], behind: &[u8], at: usize) -> Result<bool, AllocError> {
    Ok(fault_with(alloc, bytes, behind)? == Some(ShapeFault::Trailing(at)))
}

#[test]
fn what_follows_is_trailing(rt: HostRuntime) -> Result<(), AllocError> {
    assert!(rt; are_trailing(rt.alloc(), &CLASS_A, &[0], 53)?);
    assert!(rt; are_trailing(rt.alloc(), &EACH_KIND, &[0xca, 0xfe, 0xba], 125)?);
    Ok(())
}

#[test]
fn the_first_wrong_byte(rt: HostRuntime) {
    for (place, byte, at) in &WRONG {
        let bytes = with_byte(*place, *byte);
        assert!(rt;
            has_fault(rt.alloc(), &bytes, ShapeFault::Malformed(*at)),
            "at {place}"
        );
    }
}

/// A Long or a Double at the last index is wrong at its tag, wherever the bytes after it end.
#[test]
fn no_second_slot(rt: HostRuntime) {
    let alloc = rt.alloc();
    for tag in [5, 6] {
        let mut bytes = with_byte(9, 2);
        bytes[10] = tag;
        assert!(rt; has_fault(alloc, &bytes, ShapeFault::Malformed(10)));
        assert!(rt; has_fault(alloc, &bytes[..11], ShapeFault::Malformed(10)));
        assert!(rt; has_fault(alloc, &bytes[..10], ShapeFault::Truncated));
    }
}

/// A length of 4,294,967,295 causes no allocation.
#[test]
fn a_false_length(rt: HostRuntime) -> Result<(), AllocError> {
    let behind = [0, 1, 0, 2, 0xff, 0xff, 0xff, 0xff];
    let fault = fault_with(rt.alloc(), &CLASS_A[..51], &behind)?;
    assert_eq!(rt; fault, Some(ShapeFault::Truncated));
    Ok(())
}

fn flags_of_class_a(alloc: Global) -> Result<u16, ShapeFault> {
    Ok(read_shape(alloc, &CLASS_A)?.flags())
}

/// A fault is reported although an allocation failed for what comes before it, and a class is read
/// again: this holds under `rt try --test --fail-alloc`, whichever allocation of these reads fails.
#[test]
fn a_fault_behind_a_refusal(rt: HostRuntime) -> Result<(), Fail> {
    let alloc = rt.alloc();
    let mut trailing = [0; 54];
    trailing[..53].copy_from_slice(&CLASS_A);
    assert!(rt; has_fault(alloc, &trailing, ShapeFault::Trailing(53)));
    assert!(rt; has_fault(alloc, &CLASS_A[..52], ShapeFault::Truncated));
    assert!(rt; has_fault(alloc, &with_byte(20, 17), ShapeFault::Malformed(20)));
    let flags = match flags_of_class_a(alloc) {
        Err(ShapeFault::NoMemory) => flags_of_class_a(alloc),
        answer => answer,
    };
    assert_eq!(rt; flags?, 0x21);
    Ok(())
}

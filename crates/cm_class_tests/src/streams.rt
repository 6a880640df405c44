//! Streams of class files: split, and cut short.

use cm_stream::{StreamFault, classes_in};
use std::alloc::Global;
use std::test::Fail;

// Three classes, as far as the stream is concerned: of two bytes, of none, and of one.
const STREAM: [u8; 15] = [0, 0, 0, 2, 0xca, 0xfe, 0, 0, 0, 0, 0, 0, 0, 1, 7];

/// Whether classes are the three of the stream.
fn are_three(classes: &[&[u8]]) -> bool {
    classes.len() == 3
        && classes[0] == [0xca, 0xfe].as_slice()
        && classes[1].is_empty()
        && classes[2] == [7].as_slice()
}

#[test]
fn streams_are_their_classes(rt: HostRuntime) -> Result<(), Fail> {
    let alloc = rt.alloc();
    assert!(rt; are_three(&classes_in(alloc, &STREAM)?));
    assert!(rt; classes_in(alloc, &[])?.is_empty());
    Ok(())
}

/// Why bytes are no stream.
fn fault_of(alloc: Global, bytes: &[u8]) -> Option<StreamFault> {
    classes_in(alloc, bytes).err()
}

/// How many bytes are left of the stream, and why they are no stream.
const CUTS: [(usize, StreamFault); 7] = [
    (1, StreamFault::InLength(0)),
    (3, StreamFault::InLength(0)),
    (4, StreamFault::InClass(0)),
    (5, StreamFault::InClass(0)),
    (7, StreamFault::InLength(6)),
    (13, StreamFault::InLength(10)),
    (14, StreamFault::InClass(10)),
];

#[test]
fn cut_streams_are_refused(rt: HostRuntime) -> Result<(), Fail> {
    let alloc = rt.alloc();
    for (len, fault) in &CUTS {
        let bytes = STREAM.get(..*len).ok_or("a part of the stream")?;
        assert!(rt; fault_of(alloc, bytes) == Some(*fault), "of {len} bytes");
    }
    // A length that no memory could hold causes no allocation.
    let found = fault_of(alloc, &[0xff, 0xff, 0xff, 0xff, 1]);
    assert_eq!(rt; found, Some(StreamFault::InClass(0)));
    Ok(())
}

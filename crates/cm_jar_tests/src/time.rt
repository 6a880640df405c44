//! Input that costs the most for its length.

use crate::made::jar_of;
use crate::samples::{RUN, RUN_CHECK};
use crate::streams::size_of;
use cm_jar::{EntryFault, InflateFault, Jar};
use std::alloc::{AllocError, Global};
use std::test::Fail;

/// A stream of this many empty blocks, each of these bytes, followed by the last one.
fn blocks(alloc: Global, block: &[u8], count: u32, last: &[u8]) -> Result<Vec<u8>, AllocError> {
    let mut stream = Vec::new(alloc);
    for _ in 0..count {
        stream.extend_from_slice(block)?;
    }
    stream.extend_from_slice(last)?;
    Ok(stream)
}

/// The length of the content of many blocks.
fn size_of_blocks(alloc: Global, block: &[u8], last: &[u8]) -> Result<usize, EntryFault> {
    let stream = blocks(alloc, block, 200_000, last)?;
    size_of(alloc, &stream, 0, 0)
}

/// The last empty stored block.
const STORED: [u8; 5] = [1, 0, 0, 0xff, 0xff];

#[test]
fn many_empty_blocks(rt: HostRuntime) {
    let alloc = rt.alloc();
    assert_eq!(rt;
        size_of_blocks(alloc, &[0, 0, 0, 0xff, 0xff], &STORED),
        Ok(0)
    );
    // Four blocks of fixed codes, ten bits each.
    assert_eq!(rt; size_of_blocks(alloc, &[2, 8, 32, 128, 0], &STORED), Ok(0));
}

/// A stream that produces a thousand times its length ends where it exceeds what is declared.
#[test]
fn a_run_ends_at_the_declared_size(rt: HostRuntime) {
    let alloc = rt.alloc();
    assert_eq!(rt; size_of(alloc, RUN, 1_000_000, RUN_CHECK), Ok(1_000_000));
    for size in [0, 1, 258, 999_999] {
        let found = size_of(alloc, RUN, size, RUN_CHECK);
        assert_eq!(rt; found, Err(EntryFault::Inflate(InflateFault::TooLong)));
    }
}

/// How many entries a jar lists if their packed bytes are the same.
fn count_listed(alloc: Global, count: u16) -> Result<usize, AllocError> {
    let bytes = jar_of(alloc, &[3, 0], 0, 0, count)?;
    Ok(Jar::read(alloc, &bytes).map_or(0, |jar| jar.entries().len()))
}

#[test]
fn overlapping_entries_are_listed(rt: HostRuntime) -> Result<(), Fail> {
    assert_eq!(rt; count_listed(rt.alloc(), 65_534)?, 65_534);
    Ok(())
}

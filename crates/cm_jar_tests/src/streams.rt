//! Deflated streams, each as a jar's only entry.

use crate::made::jar_of;
use crate::samples::{FAULTY, STREAMS};
use cm_jar::{EntryFault, InflateFault, Jar};
use std::alloc::Global;
use std::test::Fail;

/// The length of the content of a jar's first entry. A jar that can't be read has none.
pub fn first_size(alloc: Global, bytes: &[u8]) -> Result<usize, EntryFault> {
    let Ok(jar) = Jar::read(alloc, bytes) else {
        return Err(EntryFault::NoLocalHeader);
    };
    let Some(entry) = jar.entries().first() else {
        return Err(EntryFault::NoLocalHeader);
    };
    Ok(entry.content(alloc)?.len())
}

/// The same for a stream, by its content's length and CRC-32.
pub fn size_of(alloc: Global, packed: &[u8], size: u32, check: u32) -> Result<usize, EntryFault> {
    first_size(alloc, &jar_of(alloc, packed, size, check, 1)?)
}

#[test]
fn streams_have_their_content(rt: HostRuntime) {
    let alloc = rt.alloc();
    for (packed, size, check) in &STREAMS {
        let found = size_of(alloc, packed, *size, *check);
        assert!(rt; found == Ok(*size as usize), "of {size} bytes: {found:?}");
    }
}

#[test]
fn faulty_streams_are_refused(rt: HostRuntime) {
    let alloc = rt.alloc();
    for (packed, fault) in &FAULTY {
        let found = size_of(alloc, packed, 1000, 0);
        assert!(rt;
            found == Err(EntryFault::Inflate(*fault)),
            "{fault:?}: {found:?}"
        );
    }
}

/// A stream that is cut anywhere is rejected.
#[test]
fn cut_streams_are_refused(rt: HostRuntime) -> Result<(), Fail> {
    let alloc = rt.alloc();
    for (packed, size, check) in &STREAMS {
        for len in 0..packed.len() {
            let front = packed.get(..len).ok_or("a part of the stream")?;
            let found = size_of(alloc, front, *size, *check);
            assert!(rt;
                found == Err(EntryFault::Inflate(InflateFault::Short)),
                "{found:?}"
            );
        }
    }
    Ok(())
}

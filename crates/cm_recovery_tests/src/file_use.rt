//! What takes how much of a file.

use crate::stored_calls::Call::{Define, Loader};
use crate::stored_calls::{Call, disk_after};
use cm_pool::Chunk;
use cm_samples::bytes_of;
use cm_statistics::{OwnedChunk, Usage, statistics};
use std::test::*;

/// A loader with nine classes of 16 words, of which the first eight fill a chunk of 128 words and
/// the ninth lies on one of 256, and a loader with one.
const CALLS: [Call; 12] = [
    Loader(b'a'),
    Define(b'a', b'A'),
    Define(b'a', b'B'),
    Define(b'a', b'C'),
    Define(b'a', b'D'),
    Define(b'a', b'E'),
    Define(b'a', b'F'),
    Define(b'a', b'G'),
    Define(b'a', b'H'),
    Define(b'a', b'I'),
    Loader(b'b'),
    Define(b'b', b'A'),
];

const fn usage(classes: u64, chunks: u64, owned: u64, used: u64) -> Usage {
    Usage {
        classes,
        chunks,
        owned,
        used,
    }
}

const fn owned(loader: u64, order: u32, at: u32, used: u64) -> OwnedChunk {
    OwnedChunk {
        loader,
        chunk: Chunk { root: 0, order, at },
        used,
    }
}

#[test]
fn chunks_and_records_are_counted(rt: HostRuntime) -> Result<(), Fail> {
    let mut disk = disk_after(rt.alloc(), &CALLS)?;
    let found = statistics(rt.alloc(), &mut disk)?;
    assert_eq!(rt; found.usage, usage(10, 3, 8 * (128 + 256 + 128), 8 * 160));
    assert_eq!(rt; found.usage.free(), 8 * (512 - 160));
    let orders = [
        usage(9, 2, 2_048, 1_152),
        usage(1, 1, 2_048, 128),
        usage(0, 0, 0, 0),
        usage(0, 0, 0, 0),
    ];
    assert_eq!(rt; found.orders.as_slice(), orders.as_slice());
    let [first, second] = found.loaders.as_slice() else {
        return Err("two loaders".into());
    };
    assert_eq!(rt; (first.number, first.usage), (1, usage(9, 2, 3_072, 1_152)));
    assert_eq!(rt;
        (second.number, second.usage),
        (11, usage(1, 1, 1_024, 128))
    );
    assert_eq!(rt; second.name.as_slice(), b"b".as_slice());
    let chunks = [
        owned(1, 0, 0, 1_024),
        owned(1, 1, 256, 128),
        owned(11, 0, 128, 128),
    ];
    assert_eq!(rt; found.chunks.as_slice(), chunks.as_slice());
    Ok(())
}

#[test]
fn the_journal_and_the_roots_are_measured(rt: HostRuntime) -> Result<(), Fail> {
    let mut disk = disk_after(rt.alloc(), &CALLS)?;
    let bytes = bytes_of(rt.alloc(), &mut disk)?;
    let found = statistics(rt.alloc(), &mut disk)?;
    assert_eq!(rt; found.number, 12);
    assert_eq!(rt; (found.journal.used, found.journal.left), (25, 231));
    assert_eq!(rt; (found.journal.live, found.journal.live_limit), (12, 128));
    assert_eq!(rt; (found.roots, found.used_roots), (1, 1));
    assert_eq!(rt; (found.bytes, found.trimmed), (45_056, 45_056));
    assert_eq!(rt; found.largest_free, Some(3));
    assert!(rt; bytes_of(rt.alloc(), &mut disk)? == bytes);
    Ok(())
}

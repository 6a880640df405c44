//! A complete jar, and CRC-32.

use crate::samples::{LONG, MANIFEST, SHORT, SMALL};
use cm_jar::{Entry, EntryFault, Jar, JarFault, crc32};
use std::alloc::Global;
use std::test::Fail;

/// The check value of CRC-32, and what Python's zlib computes for some others.
const CHECKS: [(&[u8], u32); 4] = [
    (b"123456789", 0xcbf4_3926),
    (b"", 0),
    (b"\0", 0xd202_ef8d),
    (b"a\xff", 0x103d_a794),
];

#[test]
fn checks(rt: HostRuntime) {
    for (bytes, check) in &CHECKS {
        assert_eq!(rt; crc32(bytes), *check);
    }
}

/// Whether an entry has this name and this content.
fn has_content(alloc: Global, entry: &Entry, name: &[u8], content: &[u8]) -> bool {
    match entry.content(alloc) {
        Ok(found) => entry.name() == name && found.as_slice() == content,
        Err(_) => false,
    }
}

/// Whether the entries of the small jar have their names and contents, in order.
fn are_right(alloc: Global) -> Result<bool, JarFault> {
    let wanted: [(&[u8], &[u8]); 3] = [
        (b"META-INF/MANIFEST.MF", MANIFEST),
        (b"A.class", SHORT),
        (b"b/B.class", LONG),
    ];
    let jar = Jar::read(alloc, SMALL)?;
    let mut are = jar.entries().len() == wanted.len();
    for (entry, (name, content)) in jar.entries().iter().zip(&wanted) {
        are &= has_content(alloc, entry, name, content);
    }
    Ok(are)
}

#[test]
fn a_jar_is_read_in_full(rt: HostRuntime) -> Result<(), Fail> {
    assert!(rt; are_right(rt.alloc())?);
    Ok(())
}

/// The length of the last entry's content. Tries again if an allocation failed.
fn last_size(alloc: Global) -> Result<usize, EntryFault> {
    let jar = match Jar::read(alloc, SMALL) {
        Err(JarFault::NoMemory) => Jar::read(alloc, SMALL),
        answer => answer,
    };
    let Ok(jar) = jar else {
        return Err(EntryFault::NoMemory);
    };
    let Some(entry) = jar.entries().last() else {
        return Ok(0);
    };
    let content = match entry.content(alloc) {
        Err(EntryFault::NoMemory) => entry.content(alloc),
        answer => answer,
    };
    Ok(content?.len())
}

/// `tests/memory.sh` makes each allocation fail in turn.
#[test]
fn a_jar_is_read_after_a_refusal(rt: HostRuntime) -> Result<(), Fail> {
    assert_eq!(rt; last_size(rt.alloc())?, LONG.len());
    Ok(())
}

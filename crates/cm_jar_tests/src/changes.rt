//! The small jar, cut and changed.

use crate::samples::{LONG, MANIFEST, SHORT, SMALL, SPOILT_ENTRIES, SPOILT_JARS};
use cm_jar::{EntryFault, Jar, JarFault};
use std::alloc::{AllocError, Global};
use std::test::Fail;

/// Whether bytes are a readable jar.
fn is_jar(alloc: Global, bytes: &[u8]) -> bool {
    Jar::read(alloc, bytes).is_ok()
}

/// The comment of an end record ends with the file, so no part of a jar is a jar.
#[test]
fn cut_jars_are_refused(rt: HostRuntime) -> Result<(), Fail> {
    let alloc = rt.alloc();
    assert!(rt; is_jar(alloc, SMALL));
    for len in 0..SMALL.len() {
        let front = SMALL.get(..len).ok_or("a part of the jar")?;
        assert!(rt; !is_jar(alloc, front), "of {len} bytes");
    }
    Ok(())
}

/// The jar with some of its bytes replaced.
fn changed(alloc: Global, place: usize, change: &[u8]) -> Result<Vec<u8>, AllocError> {
    let mut bytes = SMALL.to_vec(alloc)?;
    for (byte, new) in bytes.iter_mut().skip(place).zip(change) {
        *byte = *new;
    }
    Ok(bytes)
}

/// The fault of an entry of a jar, and whether the others can be read.
fn entry_fault(alloc: Global, bytes: &[u8], place: usize) -> (Option<EntryFault>, bool) {
    let Ok(jar) = Jar::read(alloc, bytes) else {
        return (None, false);
    };
    let mut fault = None;
    let mut are_readable = true;
    for (at, entry) in jar.entries().iter().enumerate() {
        let found = entry.content(alloc).err();
        if at == place {
            fault = found;
        } else {
            are_readable &= found.is_none();
        }
    }
    (fault, are_readable)
}

#[test]
fn a_spoilt_entry_leaves_the_others(rt: HostRuntime) -> Result<(), Fail> {
    let alloc = rt.alloc();
    for (place, change, entry, fault) in &SPOILT_ENTRIES {
        let bytes = changed(alloc, *place, change)?;
        let found = entry_fault(alloc, &bytes, *entry);
        assert!(rt; found == (Some(*fault), true), "at {place}: {found:?}");
    }
    Ok(())
}

/// Why a jar can't be read.
fn jar_fault(alloc: Global, bytes: &[u8]) -> Option<JarFault> {
    Jar::read(alloc, bytes).err()
}

#[test]
fn spoilt_jars_are_refused(rt: HostRuntime) -> Result<(), Fail> {
    let alloc = rt.alloc();
    for (place, change, fault) in &SPOILT_JARS {
        let bytes = changed(alloc, *place, change)?;
        let found = jar_fault(alloc, &bytes);
        assert!(rt; found == Some(*fault), "at {place}: {found:?}");
    }
    Ok(())
}

/// Whether each content that a jar yields is one of the three.
fn has_no_other_content(alloc: Global, bytes: &[u8]) -> bool {
    let Ok(jar) = Jar::read(alloc, bytes) else {
        return true;
    };
    jar.entries().iter().all(|entry| match entry.content(alloc) {
        Ok(content) => {
            let content = content.as_slice();
            content == MANIFEST || content == SHORT || content == LONG
        }
        Err(_) => true,
    })
}

/// Each byte of the jar in turn is changed in each bit, and in all of them.
#[test]
fn a_changed_byte_gives_no_other_content(rt: HostRuntime) -> Result<(), Fail> {
    let alloc = rt.alloc();
    for (place, byte) in SMALL.iter().enumerate() {
        for mask in [1, 2, 4, 8, 16, 32, 64, 128, 255] {
            let bytes = changed(alloc, place, &[*byte ^ mask])?;
            assert!(rt;
                has_no_other_content(alloc, &bytes),
                "byte {place}, by {mask}"
            );
        }
    }
    Ok(())
}

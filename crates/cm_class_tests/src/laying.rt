//! Records that are laid straight from a class file's bytes, beside those of the class that is
//! read.
use crate::record_samples::ALL_TAGS;
use crate::samples::{EACH_KIND, join_parts};
use cm_class::{ShapeFault, read_shape};
use cm_record::{RecordRefusal, build};
use cm_record_laying::lay_file;
use cm_samples::{CLASS_A, padded_class_file};
use cm_words::WordBuf;
use std::alloc::{AllocError, Global};

/// Some bits of a byte, each by itself, and all at once.
const CHANGES: [u8; 5] = [1, 2, 8, 0x40, 0xff];

// Tries again if an allocation failed: nothing is changed then.
fn laid(alloc: Global, bytes: &[u8]) -> Option<WordBuf> {
    match lay_file(alloc, bytes) {
        Some(words) => Some(words),
        None => lay_file(alloc, bytes),
    }
}

/// The words of the class's record; `None` if the bytes spell no class, or it is too long.
fn built(alloc: Global, bytes: &[u8]) -> Result<Option<WordBuf>, AllocError> {
    match read_shape(alloc, bytes) {
        Ok(class) => match build(alloc, &class) {
            Ok(record) => Ok(Some(WordBuf::from_slice(alloc, record.as_slice())?)),
            Err(RecordRefusal::TooLong) => Ok(None),
            Err(RecordRefusal::NoMemory) => Err(AllocError),
        },
        Err(ShapeFault::NoMemory) => Err(AllocError),
        Err(_) => Ok(None),
    }
}

/// Whether both ways give the same words, or none.
fn ways_agree(alloc: Global, bytes: &[u8]) -> Result<bool, AllocError> {
    Ok(match (laid(alloc, bytes), built(alloc, bytes)?) {
        (Some(words), Some(others)) => words.as_slice() == others.as_slice(),
        (None, None) => true,
        _ => false,
    })
}

fn flip(bytes: &mut [u8], place: usize, bits: u8) {
    if let Some(byte) = bytes.get_mut(place) {
        *byte ^= bits;
    }
}

/// Whether both ways agree on these bytes with each of them changed in turn.
fn agree_on_changed(alloc: Global, bytes: &[u8], change: u8) -> Result<bool, AllocError> {
    let mut changed = bytes.to_vec(alloc)?;
    for place in 0..changed.len() {
        flip(&mut changed, place, change);
        if !ways_agree(alloc, &changed)? {
            return Ok(false);
        }
        flip(&mut changed, place, change);
    }
    Ok(true)
}

#[test]
fn both_ways_agree_on_changed_classes(rt: HostRuntime) -> Result<(), AllocError> {
    let alloc = rt.alloc();
    for bytes in [
        CLASS_A.as_slice(),
        EACH_KIND.as_slice(),
        ALL_TAGS.as_slice(),
    ] {
        for change in CHANGES {
            assert!(rt;
                agree_on_changed(alloc, bytes, change)?,
                "changed by {change}"
            );
        }
    }
    Ok(())
}

#[test]
fn both_ways_agree_on_beginnings_and_trailing_bytes(rt: HostRuntime) -> Result<(), AllocError> {
    let alloc = rt.alloc();
    for bytes in [
        CLASS_A.as_slice(),
        EACH_KIND.as_slice(),
        ALL_TAGS.as_slice(),
    ] {
        for len in 0..bytes.len() {
            assert!(rt; ways_agree(alloc, &bytes[..len])?, "the first {len}");
        }
        let longer = join_parts(alloc, &[bytes, b"\0".as_slice()])?;
        assert!(rt; ways_agree(alloc, bytes)? && ways_agree(alloc, &longer)?);
    }
    Ok(())
}

#[test]
fn whole_classes_are_laid(rt: HostRuntime) {
    let alloc = rt.alloc();
    assert!(rt; laid(alloc, &CLASS_A).is_some());
    assert!(rt; laid(alloc, &EACH_KIND).is_some());
    assert!(rt; laid(alloc, &ALL_TAGS).is_some());
}

#[test]
fn laid_records_have_a_limit(rt: HostRuntime) -> Result<(), AllocError> {
    let alloc = rt.alloc();
    assert!(rt; ways_agree(alloc, &padded_class_file(alloc, b"A", 4_194_144)?)?);
    assert!(rt; ways_agree(alloc, &padded_class_file(alloc, b"A", 4_194_145)?)?);
    Ok(())
}

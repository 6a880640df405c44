//! The parts of a class, read from its record.
use crate::record_samples::{RECORD_A, RECORD_ALL_TAGS, with_word};
use cm_record::Record;
use std::alloc::{AllocError, Global};
use std::test::Fail;

fn has_name(alloc: Global, record: &Record, name: &[u8]) -> Result<bool, AllocError> {
    Ok(record.class_name(alloc)?.as_slice() == name)
}

fn has_super_name(alloc: Global, record: &Record, name: Option<&[u8]>) -> Result<bool, AllocError> {
    Ok(record.super_name(alloc)?.as_deref() == name)
}

/// Whether the record of these words has flags 0021 and these names.
fn has_parts(
    alloc: Global,
    words: &[u64],
    name: &[u8],
    super_name: Option<&[u8]>,
) -> Result<bool, Fail> {
    let record = Record::read(alloc, words)?;
    let is_named = has_name(alloc, &record, name)?;
    let has_super = has_super_name(alloc, &record, super_name)?;
    Ok(record.flags() == 0x21 && is_named && has_super)
}

#[test]
fn accessors_give_the_parts_of_the_class(rt: HostRuntime) -> Result<(), Fail> {
    let alloc = rt.alloc();
    let super_name = Some(b"java/lang/Object".as_slice());
    assert!(rt; has_parts(alloc, &RECORD_A, b"A", super_name)?);
    let name = [1, 2, 3, 4, 5, 6, 7, 8, 9];
    assert!(rt; has_parts(alloc, &RECORD_ALL_TAGS, &name, None)?);
    Ok(())
}

/// The length of the name of the class whose record has these words.
fn name_len(alloc: Global, words: &[u64]) -> Result<usize, Fail> {
    let record = Record::read(alloc, words)?;
    Ok(record.class_name(alloc)?.len())
}

// The second word of class A's record with a different this_class.
const NAMELESS: [u64; 4] = [
    0x0000_0003_0000_0021,
    0x0000_0003_0002_0021,
    0x0000_0003_0005_0021,
    0x0000_0003_ffff_0021,
];

// this_class may lead nowhere, to a Utf8, or, at the second slot of a Long, to bits that look like
// a Class.
#[test]
fn a_name_that_leads_to_no_utf8_is_empty(rt: HostRuntime) -> Result<(), Fail> {
    let alloc = rt.alloc();
    for word in &NAMELESS {
        assert_eq!(rt; name_len(alloc, &with_word(1, *word))?, 0);
    }
    let mut words = RECORD_ALL_TAGS;
    words[13] = 0x0000_0001_0000_0007;
    words[1] = 0x0002_0000_0005_0021;
    assert_eq!(rt; name_len(alloc, &words)?, 0);
    Ok(())
}

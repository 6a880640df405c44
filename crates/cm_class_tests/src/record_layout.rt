//! The words of records, compared with their description.
use crate::record_samples::{
    ALL_TAGS, RECORD_A, RECORD_ALL_TAGS, bytes_of, record_bytes, record_of, record_of_class,
};
use cm_class::{Class, read_shape};
use cm_record::{Record, RecordRefusal, build};
use cm_samples::{CLASS_A, padded_class_file};
use std::alloc::{AllocError, Global};
use std::test::Fail;

fn has_words(alloc: Global, record: &Record, words: &[u64]) -> Result<bool, AllocError> {
    let found = record_bytes(alloc, record)?;
    Ok(found == bytes_of(alloc, words)?)
}

/// Whether the record of a class has this many words, and these.
fn is_laid(alloc: Global, bytes: &[u8], words: &[u64], count: u32) -> Result<bool, Fail> {
    let record = record_of(alloc, bytes)?;
    Ok(has_words(alloc, &record, words)? && record.words() == count)
}

#[test]
fn records_are_as_described(rt: HostRuntime) -> Result<(), Fail> {
    assert!(rt; is_laid(rt.alloc(), &CLASS_A, &RECORD_A, 16)?);
    assert!(rt; is_laid(rt.alloc(), &ALL_TAGS, &RECORD_ALL_TAGS, 44)?);
    Ok(())
}

/// The record of the class that is built from the record of these words.
fn record_again(alloc: Global, words: &[u64]) -> Result<Record, Fail> {
    let record = Record::read(alloc, words)?;
    let mut spelling = Vec::new(alloc);
    let class = record.to_class(alloc, &mut spelling)?;
    record_of_class(alloc, &class)
}

/// Whether the record of the class that is built from a record has the same words.
fn comes_back(alloc: Global, words: &[u64]) -> Result<bool, Fail> {
    let again = record_again(alloc, words)?;
    Ok(has_words(alloc, &again, words)?)
}

#[test]
fn records_are_read_and_give_their_class(rt: HostRuntime) -> Result<(), Fail> {
    assert!(rt; comes_back(rt.alloc(), &RECORD_A)?);
    assert!(rt; comes_back(rt.alloc(), &RECORD_ALL_TAGS)?);
    Ok(())
}

/// How many words a class's record has.
fn words_of(alloc: Global, class: &Class) -> Result<u32, RecordRefusal> {
    Ok(build(alloc, class)?.words())
}

/// How many words the record of class A has, with an attribute of this many bytes.
fn words_with(alloc: Global, count: u32) -> Result<Result<u32, RecordRefusal>, Fail> {
    let bytes = padded_class_file(alloc, b"A", count)?;
    let class = read_shape(alloc, &bytes)?;
    Ok(words_of(alloc, &class))
}

/// The most bytes of an attribute with which the record isn't too long, after 20 words.
const MOST: u32 = 8 * (524_288 - 20);

/// Bytes of an attribute, and the words of the record: 20, and one for each eight bytes.
const COUNTS: [(u32, Result<u32, RecordRefusal>); 4] = [
    (0, Ok(20)),
    (9, Ok(22)),
    (MOST, Ok(524_288)),
    (MOST + 1, Err(RecordRefusal::TooLong)),
];

#[test]
fn a_record_has_at_most_the_greatest_number_of_words(rt: HostRuntime) -> Result<(), Fail> {
    for (count, words) in &COUNTS {
        assert!(rt;
            words_with(rt.alloc(), *count)? == *words,
            "of {count} bytes"
        );
    }
    Ok(())
}

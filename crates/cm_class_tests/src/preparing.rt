//! Classes that are prepared, and bytes that can't be.

use crate::samples::join_parts;
use cm_commands::{BadClass, PrepareFault, Prepared, Refusal, prepare};
use cm_rules::{Broken, Rule, Spot};
use cm_samples::{CLASS_A, padded_class_file};
use std::alloc::{AllocError, Global};
use std::test::Fail;

// Tries again if an allocation failed: nothing is changed then.
fn prepare_bytes(alloc: Global, bytes: &[u8]) -> Result<Prepared, PrepareFault> {
    match prepare(alloc, bytes) {
        Err(PrepareFault::NoMemory) => prepare(alloc, bytes),
        answer => answer,
    }
}

fn is_class_a(alloc: Global, class: &Prepared) -> Result<bool, AllocError> {
    Ok(class.class_name(alloc)?.as_slice() == b"A".as_slice() && class.words() == 16)
}

/// Whether both are class A.
fn are_class_a(alloc: Global, one: &Prepared, other: &Prepared) -> Result<bool, AllocError> {
    let are_both = is_class_a(alloc, one)? && is_class_a(alloc, other)?;
    Ok(are_both && one.record().same_name(other.record()))
}

fn words_of_record(class: Prepared) -> u32 {
    class.into_record().words()
}

fn is_shared(alloc: Global, class: &Prepared) -> Result<bool, AllocError> {
    let again = class.share()?;
    let are_class_a = are_class_a(alloc, class, &again)?;
    Ok(are_class_a && words_of_record(again) == 16 && class.words() == 16)
}

#[test]
fn a_class_is_shared(rt: HostRuntime) -> Result<(), Fail> {
    let class = prepare_bytes(rt.alloc(), &CLASS_A).ok().ok_or("class A")?;
    assert!(rt; is_shared(rt.alloc(), &class)?);
    Ok(())
}

/// Whether the bytes of these parts are rejected as such a class.
fn is_refused(alloc: Global, parts: &[&[u8]], expected: BadClass) -> Result<bool, AllocError> {
    let bytes = join_parts(alloc, parts)?;
    Ok(prepare_bytes(alloc, &bytes).err() == Some(PrepareFault::BadClass(expected)))
}

/// What class A begins with here, what comes after it, and why it is no class: one byte more; other
/// versions; half a heading.
static NO_CLASS: [(&[u8], &[u8], BadClass); 4] = [
    (
        b"\xca\xfe\xba\xbe\x00\x00\x00\x34",
        &[0],
        BadClass::Trailing(53),
    ),
    (
        b"\xca\xfe\xba\xbe\x00\x03\x00\x34",
        &[],
        BadClass::Malformed(5),
    ),
    (
        b"\xca\xfe\xba\xbe\x00\x00\x00\x35",
        &[],
        BadClass::Malformed(7),
    ),
    (b"\xca\xfe", &[], BadClass::Malformed(2)),
];

#[test]
fn bytes_that_are_no_class_are_refused(rt: HostRuntime) -> Result<(), Fail> {
    let alloc = rt.alloc();
    for (heading, behind, expected) in &NO_CLASS {
        let parts = [heading, &CLASS_A[8..], behind];
        assert!(rt; is_refused(alloc, &parts, *expected)?, "{expected}");
    }
    assert!(rt; is_refused(alloc, &[], BadClass::Truncated)?);
    Ok(())
}

#[test]
fn a_class_that_breaks_a_rule_is_refused(rt: HostRuntime) -> Result<(), Fail> {
    let broken = Broken {
        rule: Rule::EntryKinds,
        spot: Spot::This,
    };
    // A Long as the fifth constant, and this_class at its second index.
    let parts: [&[u8]; 5] = [
        &CLASS_A[..9],
        &[7],
        &CLASS_A[10..39],
        &[5, 0, 0, 0, 0, 0, 0, 0, 0],
        &[0, 0x21, 0, 6, 0, 3, 0, 0, 0, 0, 0, 0, 0, 0],
    ];
    assert!(rt; is_refused(rt.alloc(), &parts, BadClass::Rule(broken))?);
    Ok(())
}

/// How many words a class has.
fn words_of(alloc: Global, bytes: &[u8]) -> Result<u32, Refusal> {
    Ok(prepare_bytes(alloc, bytes)?.words())
}

/// Whether a class that has an attribute of this many bytes has this many words, or is refused for
/// this reason.
fn has_words(
    alloc: Global,
    count: u32,
    expected: Result<u32, Refusal>,
) -> Result<bool, AllocError> {
    let bytes = padded_class_file(alloc, b"A", count)?;
    Ok(words_of(alloc, &bytes) == expected)
}

#[test]
fn records_have_a_limit(rt: HostRuntime) -> Result<(), Fail> {
    let alloc = rt.alloc();
    assert!(rt; has_words(alloc, 4_194_144, Ok(524_288))?);
    assert!(rt; has_words(alloc, 4_194_145, Err(Refusal::RecordTooLong))?);
    Ok(())
}

static TOLD: [(Refusal, u8, &str); 15] = [
    (Refusal::BadName, 1, "name"),
    (Refusal::LoaderExists, 2, "loader exists"),
    (Refusal::NoLoader, 3, "no loader"),
    (Refusal::ClassExists, 4, "class exists"),
    (Refusal::RecordTooLong, 5, "record too long"),
    (Refusal::RegionFull, 6, "region full"),
    (Refusal::JournalFull, 7, "journal full"),
    (Refusal::NoMove, 8, "no move"),
    (Refusal::NoMemory, 9, "memory"),
    (Refusal::Broken, 10, "broken"),
    (Refusal::Closed, 11, "closed"),
    (Refusal::NumbersSpent, 12, "numbers spent"),
    (Refusal::Unsure(7), 13, "unsure 7"),
    (Refusal::BadClass(BadClass::Trailing(53)), 14, "trailing 53"),
    (Refusal::BadLine, 15, "line"),
];

fn has_text(alloc: Global, refusal: Refusal, text: &str) -> Result<bool, AllocError> {
    let told = format!(in alloc; "{refusal}")?;
    Ok(told.as_str() == text)
}

#[test]
fn refusals_have_their_numbers_and_texts(rt: HostRuntime) -> Result<(), AllocError> {
    for (refusal, number, text) in &TOLD {
        assert_eq!(rt; refusal.number(), *number);
        assert!(rt; has_text(rt.alloc(), *refusal, text)?, "{text}");
    }
    Ok(())
}

//! A class checked both ways: as a class, and over the words of its record.
use crate::sample::CLASS_S;
use cm_class::{Class, read_shape};
use cm_record::{Record, build};
use cm_record_layout::word_of;
use cm_record_reading::is_record;
use cm_record_rules::judge_words;
use cm_rules::first_fault;
use std::alloc::{AllocError, Global};
use std::test::Fail;

/// The results of the attempts.
#[derive(Clone, Copy, Debug, PartialEq, Eq)]
struct Tally {
    /// How many were class files.
    read: u32,
    /// How many of these keep the rules.
    kept: u32,
    /// How many of these are found to keep them over the words.
    seen: u32,
    /// For how many the words were said to keep the rules although the class doesn't.
    wrong: u32,
}

/// The record of a class A without members, from the layout's description.
const RECORD_A: [u64; 16] = [
    0x10,
    0x0000_0003_0001_0021,
    5,
    8,
    0xd,
    0xd,
    0xd,
    0xd,
    0,
    0x0000_0002_0000_0007,
    0x0000_000d_0001_0001,
    0x0000_0004_0000_0007,
    0x0000_000e_0010_0001,
    0x41,
    0x6e61_6c2f_6176_616a,
    0x7463_656a_624f_2f67,
];

/// Some bits of a byte, each by itself, and all at once.
const CHANGES: [u8; 5] = [1, 2, 8, 0x40, 0xff];

fn words_of(alloc: Global, record: &Record) -> Result<Vec<u64>, AllocError> {
    let mut bytes = Vec::from_elem(alloc, 0u8, 8 * record.words() as usize)?;
    record.bytes_into(&mut bytes);
    let mut words = Vec::new(alloc);
    for eight in bytes.chunks(8) {
        words.push(word_of(eight))?;
    }
    Ok(words)
}

/// Whether the class is found to keep the rules over the words of its record.
fn is_seen(alloc: Global, scratch: &mut Vec<u8>, class: &Class) -> Result<bool, Fail> {
    let record = build(alloc, class)?;
    let words = words_of(alloc, &record)?;
    if !is_record(&words) {
        return Ok(false);
    }
    Ok(judge_words(alloc, scratch, &words))
}

fn judge_both(alloc: Global, scratch: &mut Vec<u8>, bytes: &[u8]) -> Result<Tally, Fail> {
    let mut tally = Tally {
        read: 0,
        kept: 0,
        seen: 0,
        wrong: 0,
    };
    if let Ok(class) = read_shape(alloc, bytes) {
        let kept = first_fault(alloc, &class)?.is_none();
        let seen = is_seen(alloc, scratch, &class)?;
        tally.read = 1;
        tally.kept = u32::from(kept);
        tally.seen = u32::from(seen && kept);
        tally.wrong = u32::from(seen && !kept);
    }
    Ok(tally)
}

fn add(all: Tally, one: Tally) -> Tally {
    Tally {
        read: all.read.saturating_add(one.read),
        kept: all.kept.saturating_add(one.kept),
        seen: all.seen.saturating_add(one.seen),
        wrong: all.wrong.saturating_add(one.wrong),
    }
}

/// The class with a change of each of its bytes in turn.
fn judge_changed(alloc: Global, change: u8) -> Result<Tally, Fail> {
    let mut scratch = Vec::new(alloc);
    let mut bytes = CLASS_S;
    let mut all = judge_both(alloc, &mut scratch, &bytes)?;
    for place in 0..bytes.len() {
        bytes[place] ^= change;
        let one = judge_both(alloc, &mut scratch, &bytes)?;
        all = add(all, one);
        bytes[place] ^= change;
    }
    Ok(all)
}

#[test]
fn the_class_is_seen_to_keep_the_rules(rt: HostRuntime) -> Result<(), Fail> {
    let alloc = rt.alloc();
    let mut scratch = Vec::new(alloc);
    let tally = judge_both(alloc, &mut scratch, &CLASS_S)?;
    assert!(rt; tally.seen == 1);
    Ok(())
}

/// If an allocation of a call fails, the call says nothing, and the next one finds that the class
/// keeps the rules: this holds under `rt try --test --fail-alloc`, whichever allocation of the
/// first call fails.
#[test]
fn a_refusal_says_nothing(rt: HostRuntime) {
    let alloc = rt.alloc();
    let mut scratch = Vec::new(alloc);
    let is_seen = is_record(&RECORD_A)
        && (judge_words(alloc, &mut scratch, &RECORD_A)
            || judge_words(alloc, &mut scratch, &RECORD_A));
    assert!(rt; is_seen);
}

#[test]
fn both_ways_agree_on_changed_classes(rt: HostRuntime) -> Result<(), Fail> {
    for change in CHANGES {
        let all = judge_changed(rt.alloc(), change)?;
        assert!(rt;
            all.wrong == 0 && all.seen == all.kept,
            "changed by {change}"
        );
        assert!(rt;
            all.kept > 100 && all.kept < all.read,
            "changed by {change}"
        );
    }
    Ok(())
}

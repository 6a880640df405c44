//! A first walk over a class file, which finds how long the sections of its record are.
//!
//! Nothing is promised of what it finds: the second walk, which writes the words, checks all of it.

use crate::numbers::{read_u8, read_u16, read_u32};
use crate::sizes::Numbers;
use cm_class::HEADING;
use cm_record_layout::run_words;

/// How long the sections of a class file's record seem to be.
#[derive(Clone, Copy, Debug)]
pub(crate) struct Measured {
    pub numbers: Numbers,
    /// How many words the attributes take, two each.
    pub attributes: u64,
    /// How many words the runs take.
    pub runs: u64,
}

/// A part of a class file that was passed over.
#[derive(Clone, Copy, Debug)]
struct Passed<'a> {
    /// How many words its attributes take.
    attributes: u64,
    /// How many words its runs take.
    runs: u64,
    /// The bytes after it.
    rest: &'a [u8],
}

/// Passes over a constant, after its tag. Returns whether it takes two slots, how many words its
/// run takes, and the bytes after it.
fn pass_info(tag: u8, bytes: &[u8]) -> Option<(bool, u64, &[u8])> {
    match tag {
        1 => {
            let (len, rest) = read_u16(bytes)?;
            let len = usize::from(len);
            Some((false, run_words(len), rest.get(len..)?))
        }
        7 | 8 | 16 => Some((false, 0, bytes.get(2..)?)),
        15 => Some((false, 0, bytes.get(3..)?)),
        5 | 6 => Some((true, 0, bytes.get(8..)?)),
        _ => Some((false, 0, bytes.get(4..)?)),
    }
}

/// Passes over this many slots.
fn pass_slots(count: u16, bytes: &[u8]) -> Option<Passed> {
    let mut left = count;
    let mut runs: u64 = 0;
    let mut rest = bytes;
    while left > 0 {
        let (tag, info) = read_u8(rest)?;
        let (is_wide, words, after) = pass_info(tag, info)?;
        left = left.saturating_sub(1).saturating_sub(u16::from(is_wide));
        runs = runs.saturating_add(words);
        rest = after;
    }
    Some(Passed {
        attributes: 0,
        runs,
        rest,
    })
}

/// Passes over attributes, preceded by their count.
fn pass_attributes(bytes: &[u8]) -> Option<Passed> {
    let (count, mut rest) = read_u16(bytes)?;
    let mut runs: u64 = 0;
    for _ in 0..count {
        let (_, after) = read_u16(rest)?;
        let (len, after) = read_u32(after)?;
        let len = len as usize;
        runs = runs.saturating_add(run_words(len));
        rest = after.get(len..)?;
    }
    Some(Passed {
        attributes: 2 * u64::from(count),
        runs,
        rest,
    })
}

/// Passes over this many fields or methods.
fn pass_members(count: u16, bytes: &[u8]) -> Option<Passed> {
    let mut attributes: u64 = 0;
    let mut runs: u64 = 0;
    let mut rest = bytes;
    for _ in 0..count {
        let own = pass_attributes(rest.get(6..)?)?;
        attributes = attributes.saturating_add(own.attributes);
        runs = runs.saturating_add(own.runs);
        rest = own.rest;
    }
    Some(Passed {
        attributes,
        runs,
        rest,
    })
}

/// The numbers and sizes of the class file that the bytes seem to spell.
pub(crate) fn measure(bytes: &[u8]) -> Option<Measured> {
    let (slots, rest) = read_u16(bytes.get(HEADING.len()..)?)?;
    let pool = pass_slots(slots.saturating_sub(1), rest)?;
    let (flags, rest) = read_u16(pool.rest)?;
    let (this_class, rest) = read_u16(rest)?;
    let (super_class, rest) = read_u16(rest)?;
    let (interfaces, rest) = read_u16(rest)?;
    let (fields, rest) = read_u16(rest.get(2 * usize::from(interfaces)..)?)?;
    let of_fields = pass_members(fields, rest)?;
    let (methods, rest) = read_u16(of_fields.rest)?;
    let of_methods = pass_members(methods, rest)?;
    let (attributes, _) = read_u16(of_methods.rest)?;
    let own = pass_attributes(of_methods.rest)?;
    let numbers = Numbers {
        slots,
        flags,
        this_class,
        super_class,
        interfaces,
        fields,
        methods,
        attributes,
    };
    Some(Measured {
        numbers,
        attributes: of_fields
            .attributes
            .saturating_add(of_methods.attributes)
            .saturating_add(own.attributes),
        runs: pool
            .runs
            .saturating_add(of_fields.runs)
            .saturating_add(of_methods.runs)
            .saturating_add(own.runs),
    })
}

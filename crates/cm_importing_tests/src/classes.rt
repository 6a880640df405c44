//! Classes to import.

use cm_commands::{Prepared, prepare};
use cm_samples::{class, padded_class_file};
use std::alloc::Global;
use std::test::*;

/// The classes of these names of one letter.
pub fn classes(alloc: Global, names: &[u8]) -> Result<Vec<Prepared>, Fail> {
    let mut classes = Vec::new(alloc);
    for name in names {
        classes.push(class(alloc, &[*name])?)?;
    }
    Ok(classes)
}

/// This many classes, of different names.
pub fn many_classes(alloc: Global, count: u8) -> Result<Vec<Prepared>, Fail> {
    let mut classes = Vec::new(alloc);
    for at in 0..count {
        classes.push(class(alloc, &[b'a' + at / 16, b'A' + at % 16])?)?;
    }
    Ok(classes)
}

/// A class `A` with an attribute, and the one without.
pub fn two_of_a_name(alloc: Global) -> Result<Vec<Prepared>, Fail> {
    let mut classes = Vec::new(alloc);
    classes.push(prepare(alloc, &padded_class_file(alloc, b"A", 8)?)?)?;
    classes.push(class(alloc, b"A")?)?;
    Ok(classes)
}

//! The steps that are measured.

use crate::classes::samples::{Samples, record_of};
use cm_class::{ShapeFault, read_shape};
use cm_record::{Record, RecordFault};
use cm_rules::{ClassFault, read_class};
use std::alloc::{AllocError, Global};

/// A call that is run over samples.
#[derive(Clone, Copy, Debug, PartialEq, Eq)]
pub enum Step {
    /// Reads the shape of each class file.
    ReadShape,
    /// Reads its shape, and checks the rules.
    ReadClass,
    /// Reads its shape, checks the rules, and builds its record.
    ReadAndBuild,
    /// Reads each record from its words.
    ReadRecord,
}

/// Whether a class file has no shape.
fn has_no_shape(alloc: Global, class: &[u8]) -> Result<bool, AllocError> {
    match read_shape(alloc, class) {
        Ok(_) => Ok(false),
        Err(ShapeFault::NoMemory) => Err(AllocError),
        Err(_) => Ok(true),
    }
}

/// Whether a class file has no shape, or breaks a rule.
fn is_no_class(alloc: Global, class: &[u8]) -> Result<bool, AllocError> {
    match read_class(alloc, class) {
        Ok(_) => Ok(false),
        Err(ClassFault::NoMemory) => Err(AllocError),
        Err(_) => Ok(true),
    }
}

/// Whether a class file has no record.
fn has_no_record(alloc: Global, class: &[u8]) -> Result<bool, AllocError> {
    Ok(record_of(alloc, class)?.is_none())
}

/// Whether words are no record.
fn is_no_record(alloc: Global, words: &[u64]) -> Result<bool, AllocError> {
    match Record::read(alloc, words) {
        Ok(_) => Ok(false),
        Err(RecordFault::NoMemory) => Err(AllocError),
        Err(RecordFault::NotARecord) => Ok(true),
    }
}

/// How many of the items pass a test.
fn count<T, F: Fn(&T) -> Result<bool, AllocError>>(
    items: &[T],
    test: F,
) -> Result<usize, AllocError>
    requires { F.IsAlwaysCallable test }
{
    let mut passed = 0;
    for item in items {
        if test(item)? {
            passed += 1;
        }
    }
    Ok(passed)
}

impl Step {
    /// Its name in the output.
    pub fn name(self) -> &'static str {
        match self {
            Step::ReadShape => "read_shape",
            Step::ReadClass => "read_class",
            Step::ReadAndBuild => "read_class+build",
            Step::ReadRecord => "Record::read",
        }
    }

    /// The class files whose bytes are counted: all of them, or those that have a record.
    pub fn classes<'a, 'b>(self, samples: &'b Samples<'a>) -> &'b [&'a [u8]] {
        match self {
            Step::ReadRecord => &samples.recorded,
            _ => &samples.classes,
        }
    }

    /// Runs the step over its samples once, and returns how many of them it rejects.
    pub fn run(self, alloc: Global, samples: &Samples) -> Result<usize, AllocError> {
        match self {
            Step::ReadShape => count(&samples.classes, |class| has_no_shape(alloc, class)),
            Step::ReadClass => count(&samples.classes, |class| is_no_class(alloc, class)),
            Step::ReadAndBuild => count(&samples.classes, |class| has_no_record(alloc, class)),
            Step::ReadRecord => count(&samples.records, |words| is_no_record(alloc, words)),
        }
    }
}

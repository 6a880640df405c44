//! What the steps are run over.

use cm_record::{Record, RecordRefusal, build};
use cm_rules::{ClassFault, read_class};
use std::alloc::{AllocError, Global};

/// Class files, and the records of those that have one.
#[derive(Drop)]
pub struct Samples<'a> {
    pub classes: Vec<&'a [u8]>,
    /// The classes that have a record.
    pub recorded: Vec<&'a [u8]>,
    /// The records of these, as words.
    pub records: Vec<Vec<u64>>,
}

/// The words of a record.
fn words_of(alloc: Global, record: &Record) -> Result<Vec<u64>, AllocError> {
    let count = record.words() as usize;
    let mut bytes = vec![in alloc; 0; 8 * count]?;
    record.bytes_into(&mut bytes);
    let mut words = Vec::with_capacity(alloc, count)?;
    let (eights, _) = bytes.as_chunks::<8>();
    for eight in eights {
        words.push(u64::from_le_bytes(*eight))?;
    }
    Ok(words)
}

/// The record of a class file; `None` if it is rejected.
pub fn record_of(alloc: Global, class: &[u8]) -> Result<Option<Record>, AllocError> {
    let class = match read_class(alloc, class) {
        Ok(class) => class,
        Err(ClassFault::NoMemory) => return Err(AllocError),
        Err(_) => return Ok(None),
    };
    match build(alloc, &class) {
        Ok(record) => Ok(Some(record)),
        Err(RecordRefusal::TooLong) => Ok(None),
        Err(RecordRefusal::NoMemory) => Err(AllocError),
    }
}

impl<'a> Samples<'a> {
    /// The samples of these classes.
    pub fn new(alloc: Global, classes: Vec<&'a [u8]>) -> Result<Samples<'a>, AllocError> {
        let mut recorded = Vec::new(alloc);
        let mut records = Vec::new(alloc);
        for class in &classes {
            if let Some(record) = record_of(alloc, class)? {
                recorded.push(*class)?;
                records.push(words_of(alloc, &record)?)?;
            }
        }
        Ok(Samples {
            classes,
            recorded,
            records,
        })
    }
}

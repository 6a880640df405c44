//! What views answer, as values.

use cm_record::Record;
use cm_view::{FindFault, View};
use std::alloc::{AllocError, Global};

/// What is said of a class.
#[derive(Clone, Copy, Debug, PartialEq, Eq)]
pub enum Said {
    /// Its record has this many words.
    Words(u32),
    Nothing,
    /// The record that was defined in this slot is damaged.
    Damaged(u32),
    NoMemory,
}

/// The loaders and classes that are asked for, one after another.
pub const ASKED: [(u8, u8); 6] = [
    (b'a', b'A'),
    (b'a', b'B'),
    (b'a', b'C'),
    (b'b', b'A'),
    (b'b', b'B'),
    (b'c', b'A'),
];

fn said_of(found: Result<Option<Record>, FindFault>) -> Said {
    match found {
        Ok(Some(record)) => Said::Words(record.words()),
        Ok(None) => Said::Nothing,
        Err(FindFault::Damaged { slot }) => Said::Damaged(slot),
        Err(FindFault::NoMemory) => Said::NoMemory,
    }
}

/// What a view says of each.
pub fn all_said(alloc: Global, view: &View, bytes: &[u8]) -> Result<Vec<Said>, AllocError> {
    let mut all = Vec::new(alloc);
    let mut buffer = Vec::new(alloc);
    for (loader, class) in &ASKED {
        let found = view.find(alloc, &mut buffer, bytes, &[*loader], &[*class]);
        all.push(said_of(found))?;
    }
    Ok(all)
}

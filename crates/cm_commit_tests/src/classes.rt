//! Classes to store.

use cm_commands::{PrepareFault, Prepared, prepare};
use std::alloc::Global;
use std::test::Fail;

/// The class of these bytes. It is prepared once more if an allocation failed.
pub fn class_of(alloc: Global, bytes: &[u8]) -> Result<Prepared, Fail> {
    let class = match prepare(alloc, bytes) {
        Err(PrepareFault::NoMemory) => prepare(alloc, bytes),
        answer => answer,
    };
    Ok(class.ok().ok_or("a class")?)
}

/// The class that a text spells. It is read once more if an allocation failed.
pub fn class(alloc: Global, text: &[u8]) -> Result<Prepared, Fail> {
    let bytes = match hex::decode(alloc, text) {
        Ok(bytes) => bytes,
        Err(_) => hex::decode(alloc, text)?,
    };
    class_of(alloc, &bytes)
}

/// Appends parts, one after another.
pub fn push_parts(bytes: &mut Vec<u8>, parts: &[&[u8]]) -> Option<()> {
    for part in parts {
        bytes.extend_from_slice(part).ok()?;
    }
    Some(())
}

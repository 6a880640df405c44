//! Classes with given fields and methods, by their bytes.
use std::alloc::{AllocError, Global};
use std::test::Fail;

/// A member's name and descriptor, by their indexes.
pub type Indexes = (u16, u16);

fn put(bytes: &mut Vec<u8>, number: u16) -> Result<(), AllocError> {
    bytes.extend_from_slice(&number.to_be_bytes())
}

fn put_count(bytes: &mut Vec<u8>, count: usize) -> Result<(), Fail> {
    Ok(put(bytes, u16::try_from(count)?)?)
}

fn put_utf8(bytes: &mut Vec<u8>, utf8: &[u8]) -> Result<(), Fail> {
    bytes.push(1)?;
    put_count(bytes, utf8.len())?;
    Ok(bytes.extend_from_slice(utf8)?)
}

/// The count of a pool, which is one more than that of its constants, followed by these Utf8s.
fn put_pool(bytes: &mut Vec<u8>, utf8s: &[&[u8]]) -> Result<(), Fail> {
    put_count(bytes, utf8s.len().saturating_add(1))?;
    for utf8 in utf8s {
        put_utf8(bytes, utf8)?;
    }
    Ok(())
}

fn put_members(bytes: &mut Vec<u8>, members: &[Indexes]) -> Result<(), Fail> {
    put_count(bytes, members.len())?;
    for (name, descriptor) in members {
        // No flags and no attributes.
        for number in [0, *name, *descriptor, 0] {
            put(bytes, number)?;
        }
    }
    Ok(())
}

fn put_class(
    bytes: &mut Vec<u8>,
    utf8s: &[&[u8]],
    fields: &[Indexes],
    methods: &[Indexes],
) -> Result<(), Fail> {
    bytes.extend_from_slice(&[0xca, 0xfe, 0xba, 0xbe, 0, 0, 0, 0x34])?;
    put_pool(bytes, utf8s)?;
    // No flags, no class of its own, no super class, no interfaces.
    bytes.extend_from_slice(&[0; 8])?;
    put_members(bytes, fields)?;
    put_members(bytes, methods)?;
    Ok(put(bytes, 0)?)
}

/// The bytes of a class whose pool has these Utf8s, from index 1 on, and which has these fields and
/// methods.
pub fn class_bytes(
    alloc: Global,
    utf8s: &[&[u8]],
    fields: &[Indexes],
    methods: &[Indexes],
) -> Result<Vec<u8>, Fail> {
    let mut bytes = Vec::new(alloc);
    put_class(&mut bytes, utf8s, fields, methods)?;
    Ok(bytes)
}

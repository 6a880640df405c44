//! Files of 256 slots in each half, by their bytes.

use crate::turns::name;
use cm_layout::{
    ENTRY_VERSION, GroupHead, HalfHead, LoaderRow, SUPERBLOCK_BYTES, SlotName, Superblock,
};
use cm_samples::small_geometry;
use std::alloc::Global;
use std::test::Fail;

/// Where half 1 begins.
pub const HALF_1_AT: usize = 20_480;

/// How long a file without roots is.
const LONG: usize = 36_864;

/// What the head of a half says: its gate's byte, how many slots live rows take, its epoch and its
/// base.
pub type Head = [u16; 4];

/// The head of a half that begins there.
pub fn head_at(bytes: &[u8], at: usize) -> Option<Head> {
    let slot = bytes.get(at..)?;
    let base = u16::from_le_bytes([*slot.get(16)?, *slot.get(17)?]);
    let (gate, live, epoch) = (*slot.first()?, *slot.get(4)?, *slot.get(8)?);
    Some([u16::from(gate), u16::from(live), u16::from(epoch), base])
}

/// The heads of both halves.
pub fn heads(bytes: &[u8]) -> Option<[Head; 2]> {
    Some([
        head_at(bytes, SUPERBLOCK_BYTES)?,
        head_at(bytes, HALF_1_AT)?,
    ])
}

fn push_loader(bytes: &mut Vec<u8>, number: u64, name: &[u8]) -> Result<(), Fail> {
    let name = SlotName::new(name).ok_or("a short name")?;
    let head = GroupHead {
        count: 1,
        first: number,
    };
    bytes.extend_from_slice(&head.encode())?;
    let loader = LoaderRow { number, name }.encode();
    bytes.extend_from_slice(loader.as_bytes())?;
    Ok(())
}

// The number of each is one more than the index of its name.
fn push_loaders(bytes: &mut Vec<u8>, count: usize) -> Result<(), Fail> {
    for at in 0..count {
        push_loader(bytes, at as u64 + 1, name(at))?;
    }
    Ok(())
}

fn push_half(bytes: &mut Vec<u8>, loaders: usize) -> Result<(), Fail> {
    let head = HalfHead {
        version: ENTRY_VERSION,
        live: 0,
        epoch: 1,
        base: 0,
    };
    bytes.extend_from_slice(&head.encode())?;
    push_loaders(bytes, loaders)?;
    bytes.resize(LONG, 0)?;
    Ok(())
}

/// The bytes of a file with this many loaders in its half 0, each in a group of its own. Half 1 was
/// never used.
pub fn file_of_loaders(alloc: Global, loaders: usize) -> Result<Vec<u8>, Fail> {
    let geometry = small_geometry();
    let mut bytes = Superblock { geometry }.encode(alloc)?;
    push_half(&mut bytes, loaders)?;
    Ok(bytes)
}

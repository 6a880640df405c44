//! A file in memory, on which the calls that are asked for are made.

use cm_deferred_disk::Call;
use std::test::*;

/// Makes a call on a file's bytes.
pub fn make(file: &mut Vec<u8>, call: Call<'_>) -> Result<(), Fail> {
    match call {
        Call::Write { at, bytes } => {
            for (index, byte) in bytes.iter().enumerate() {
                match file.get_mut((at as usize).saturating_add(index)) {
                    Some(old) => *old = *byte,
                    None => file.push(*byte)?, // a write begins within the file
                }
            }
        }
        Call::Cut { len } => file.truncate(len as usize),
        Call::Sync => {}
    }
    Ok(())
}

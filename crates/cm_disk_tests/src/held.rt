//! What a disk holds.
ghost use Rattle.std.specs.Prelude.{◌≡◌, OnOk, List, ℕ};
ghost use Rattle.cm_disk.specs.Calls.{overwritten};

use cm_disk::{DeviceFault, Disk, SimDisk};
use std::alloc::Global;
use std::test::Fail;

pub const LETTERS: [u8; 6] = *b"abcdef";

/// Writes six letters to the start. Only the trait of the disk is known.
pub fn fill<D: Disk>(disk: &mut D) -> Result<(), DeviceFault>
    ensures { OnOk result (D.view.contents disk.new ≡ overwritten 0 LETTERS
        (D.view.contents disk.old)) }
{
    disk.write_at(0, &LETTERS)
}

/// All bytes of the disk.
pub fn hold_record(alloc: Global, disk: &mut SimDisk) -> Result<Vec<u8>, Fail> {
    let len = disk.len()?;
    let mut bytes = Vec::from_elem(alloc, 0u8, len as usize)?;
    disk.read(0, &mut bytes)?;
    Ok(bytes)
}

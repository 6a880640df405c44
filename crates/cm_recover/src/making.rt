//! Makes a file.

ghost use Rattle.std.specs.Prelude.{◌≡◌, ◌<◌, ◌⊎◌, length, Err, OnOk};
ghost use Rattle.cm_disk.specs.Disk.{IsDurable};
ghost use Rattle.cm_guards.specs.Guards.{EachImage};
ghost use Rattle.cm_guards.specs.Calls.{Reads};
ghost use Rattle.cm_recover.specs.declared.fault.FormatFault.TheVariants as fault;
ghost use Rattle.cm_recover.specs.NewFile.{new_bytes, IsEmptyCache};
ghost use Rattle.cm_recover.specs.Making.{HasFormatCause, FormatsThrough};

use crate::fault::FormatFault;
use crate::new_file::NewFile;
use cm_disk::Disk;
use cm_pool::Geometry;
use std::alloc::Global;

/// Makes the empty cache of these sizes on an empty disk. Once it returns Ok, every crash leaves
/// exactly that: there is one image.
///
/// All bytes but one are stored first, then that one: the superblock's gate. From the first sync
/// on, the third call of the device, a crash leaves no cache or the empty one, at each moment and
/// after a fault. Until then it leaves no more bytes than the file has, or than it might have left
/// before; and no cache, unless those bytes include an open gate, which this call hasn't written
/// yet.
///
/// `NotEmpty` if the disk has bytes: none of them is touched. `NoMemory` if an allocation failed:
/// nothing was written. `Device` if the device failed, at that sync or after it.
pub fn format<D: Disk>(alloc: Global, disk: &mut D, geometry: Geometry) -> Result<(), FormatFault>
    ensures empty { OnOk result
        (EachImage (D.view.contents disk.new) (D.view.unsynced disk.new) (IsEmptyCache geometry)) }
    ensures bytes { OnOk result (D.view.contents disk.new ≡ new_bytes geometry) }
    ensures stored { OnOk result (IsDurable (D.view.contents disk.new) (D.view.unsynced disk.new)) }
    ensures not_empty { result ≡ Err fault.NotEmpty → 0 < length (D.view.contents disk.old) }
    ensures only_empty { 0 < length (D.view.contents disk.old)
        → (result ≡ Err fault.NotEmpty) ⊎ (result ≡ Err fault.Device) }
    ensures overwrites_nothing { 0 < length (D.view.contents disk.old)
        → Reads D.view disk.old disk.new
        (result ≡ Err fault.Device) }
    ensures no_memory { result ≡ Err fault.NoMemory
        → Reads D.view disk.old disk.new ⊥ }
    ensures moments { FormatsThrough D.view D.called geometry
        disk.old disk.new result }
    ensures cause { HasFormatCause (D.view.failures disk.old) (D.view.failures disk.new) result }
{
    if disk.len()? != 0 {
        return Err(FormatFault::NotEmpty);
    }
    let file = NewFile::new(alloc, geometry)?;
    file.store(disk)?;
    file.open(disk)?;
    Ok(())
}

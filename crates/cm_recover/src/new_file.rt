//! A file that is being made.

ghost use Rattle.std.specs.Prelude.{◌≡◌, length, IfOk, OnOk, is_ok};
ghost use Rattle.cm_disk.specs.Disk.{IsDurable};
ghost use Rattle.cm_disk.specs.Calls.{HasCause};
ghost use Rattle.cm_guards.specs.Guards.{EachImage};
ghost use Rattle.cm_guards.specs.Calls.{LeavesOnly};
ghost use Rattle.cm_pool.specs.Geometry.{IsGeometry};
ghost use Rattle.cm_recover.specs.NewFile.{new_bytes, shut_bytes, IsNoneOrEmpty};
ghost use Rattle.cm_recover.specs.Making.{IsNewFile, IsUnfinished, CallsAtMost};

use cm_disk::{DeviceFault, Disk};
use cm_layout::{ENTRY_VERSION, HalfHead, OPEN_GATE, SUPERBLOCK_BYTES, Superblock, roots_at};
use cm_pool::Geometry;
use std::alloc::{AllocError, Global};

/// The position of the superblock's gate.
const GATE_AT: usize = SUPERBLOCK_BYTES - 1;

/// What a new file will hold: an open superblock, the head of half 0, zeros.
fn encode(alloc: Global, geometry: Geometry) -> Result<Vec<u8>, AllocError>
    requires { IsGeometry geometry }
    ensures { IfOk result (λ bytes. bytes.items ≡ new_bytes geometry) }
{
    let head = HalfHead {
        version: ENTRY_VERSION,
        live: 0,
        epoch: 1,
        base: 0,
    };
    let mut bytes = Superblock { geometry }.encode(alloc)?;
    bytes.extend_from_slice(&head.encode())?;
    bytes.resize(roots_at(geometry) as usize, 0)?;
    Ok(bytes)
}

/// A file that is being made, with the bytes that it holds before its superblock is opened.
#[derive(Drop)]
pub(crate) struct NewFile {
    geometry: Geometry,
    bytes: Vec<u8>,
}

impl NewFile {
    /// The file of these sizes.
    pub(crate) fn new(alloc: Global, geometry: Geometry) -> Result<NewFile, AllocError>
        ensures { IfOk result (IsNewFile geometry) }
    {
        geometry.invariant_holds();
        let mut bytes = encode(alloc, geometry)?;
        bytes[GATE_AT] = 0;
        Ok(NewFile { geometry, bytes })
    }

    /// Stores the file on an empty disk, shut: it is unfinished at each moment until then.
    pub(crate) fn store<D: Disk>(&self, disk: &mut D) -> Result<(), DeviceFault>
        requires new { IsNewFile self.now.geometry self.now }
        requires empty { length (D.view.contents disk.old) ≡ 0 }
        ensures written { OnOk result (D.view.contents disk.new ≡ shut_bytes self.now.geometry) }
        ensures durable { OnOk result (IsDurable (D.view.contents disk.new)
            (D.view.unsynced disk.new)) }
        ensures any_moment { LeavesOnly D.view disk.old disk.new
            (IsUnfinished self.now.geometry (D.view.unsynced disk.old)) }
        ensures calls { CallsAtMost D.called 2 disk.old disk.new }
        ensures cause { HasCause (D.view.failures disk.old) (D.view.failures disk.new) result }
    {
        disk.write_at(0, &self.bytes)?;
        disk.sync()
    }

    /// Writes the gate of its superblock, when all else is stored.
    #[tactic(auto, using(cm_guards::proofs::gating))]
    fn write_gate<D: Disk>(&self, disk: &mut D) -> Result<(), DeviceFault>
        requires lawful { IsGeometry self.now.geometry }
        requires shut { D.view.contents disk.old ≡ shut_bytes self.now.geometry }
        requires durable { IsDurable (D.view.contents disk.old) (D.view.unsynced disk.old) }
        ensures written { OnOk result (D.view.contents disk.new ≡ new_bytes self.now.geometry) }
        ensures images { EachImage (D.view.contents disk.new) (D.view.unsynced disk.new)
            (IsNoneOrEmpty self.now.geometry) }
        ensures any_moment { LeavesOnly D.view disk.old disk.new
            (IsNoneOrEmpty self.now.geometry) }
        ensures called { D.called disk.old disk.new (is_ok result) }
        ensures cause { HasCause (D.view.failures disk.old) (D.view.failures disk.new) result }
    {
        disk.write_at(GATE_AT as u64, &[OPEN_GATE])
    }

    /// Opens its superblock, when all else is stored: until the gate is durable too, a crash leaves
    /// no cache or the empty one, at each moment and after a fault.
    #[tactic(auto, using(cm_guards::proofs::settling))]
    pub(crate) fn open<D: Disk>(&self, disk: &mut D) -> Result<(), DeviceFault>
        requires lawful { IsGeometry self.now.geometry }
        requires shut { D.view.contents disk.old ≡ shut_bytes self.now.geometry }
        requires durable { IsDurable (D.view.contents disk.old) (D.view.unsynced disk.old) }
        ensures written { OnOk result (D.view.contents disk.new ≡ new_bytes self.now.geometry) }
        ensures stored { OnOk result (IsDurable (D.view.contents disk.new)
            (D.view.unsynced disk.new)) }
        ensures images { EachImage (D.view.contents disk.new) (D.view.unsynced disk.new)
            (IsNoneOrEmpty self.now.geometry) }
        ensures any_moment { LeavesOnly D.view disk.old disk.new
            (IsNoneOrEmpty self.now.geometry) }
        ensures calls { CallsAtMost D.called 2 disk.old disk.new }
        ensures cause { HasCause (D.view.failures disk.old) (D.view.failures disk.new) result }
    {
        self.write_gate(disk)?;
        disk.sync()
    }
}

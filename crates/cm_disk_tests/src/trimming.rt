//! What is after a claim's bytes is cut off. Only the trait of the disk is known.
ghost use Rattle.std.specs.Prelude.{◌≡◌, ◌≤◌, OnOk, length, take};
ghost use Rattle.cm_disk.specs.Calls.{HasCause};
ghost use Rattle.cm_guards.specs.Guards.{Guards};
ghost use Rattle.cm_guards.specs.Calls.{LeavesOnly};
ghost use Rattle.cm_guards.specs.Laws.{Stays};

use crate::turning::Guarded;
use cm_disk::{DeviceFault, Disk};

/// Cuts to a length that is at least what the claim needs.
#[tactic(auto, using(cm_guards::proofs::cutting))]
pub fn cut_behind<D: Disk, P: Guarded>(disk: &mut D, len: u64) -> Result<(), DeviceFault>
    requires within { len ≤ length (D.view.contents disk.old) }
    requires guards { Guards P.guard P.holds }
    requires behind { P.guard.needs ≤ len }
    requires stays { Stays P.guard P.holds (D.view.contents disk.old) (D.view.unsynced disk.old) }
    ensures cut { OnOk result (D.view.contents disk.new ≡ take len (D.view.contents disk.old)) }
    ensures stays { Stays P.guard P.holds (D.view.contents disk.new) (D.view.unsynced disk.new) }
    ensures any_moment { LeavesOnly D.view disk.old disk.new P.holds }
    ensures cause { HasCause (D.view.failures disk.old) (D.view.failures disk.new) result }
{
    disk.cut(len)
}

/// Cuts, and makes the length durable.
#[tactic(auto, using(cm_guards::proofs::syncing))]
pub fn trim<D: Disk, P: Guarded>(disk: &mut D, len: u64) -> Result<(), DeviceFault>
    requires within { len ≤ length (D.view.contents disk.old) }
    requires guards { Guards P.guard P.holds }
    requires behind { P.guard.needs ≤ len }
    requires stays { Stays P.guard P.holds (D.view.contents disk.old) (D.view.unsynced disk.old) }
    ensures cut { OnOk result (D.view.contents disk.new ≡ take len (D.view.contents disk.old)) }
    ensures stays { Stays P.guard P.holds (D.view.contents disk.new) (D.view.unsynced disk.new) }
    ensures any_moment { LeavesOnly D.view disk.old disk.new P.holds }
    ensures cause { HasCause (D.view.failures disk.old) (D.view.failures disk.new) result }
{
    cut_behind::<D, P>(disk, len)?;
    disk.sync()
}

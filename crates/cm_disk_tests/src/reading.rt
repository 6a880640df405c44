//! Runs of reads over any disk.
ghost use Rattle.std.specs.Prelude.{◌≡◌, ◌≤◌, ◌+◌, ◌*◌, IsErr, OnOk, length, take, drop};
ghost use Rattle.cm_guards.specs.Calls.{Reads};

use crate::turning::OPEN;
use cm_disk::{DeviceFault, Disk};

/// Reads two parts.
#[tactic(auto, using(cm_guards::proofs::reading))]
pub fn read_both<D: Disk>(
    disk: &mut D,
    at: u64,
    first: &mut [u8],
    then: u64,
    second: &mut [u8],
) -> Result<(), DeviceFault>
    requires first_within { at + length first.old ≤ length (D.view.contents disk.old) }
    requires second_within { then + length second.old ≤ length (D.view.contents disk.old) }
    ensures first { OnOk result
        (first.new ≡ take (length first.old) (drop at (D.view.contents disk.old))) }
    ensures second { OnOk result
        (second.new ≡ take (length second.old) (drop then (D.view.contents disk.old))) }
    ensures reads { Reads D.view disk.old disk.new
        (IsErr result) }
{
    disk.read(at, first)?;
    disk.read(then, second)
}

/// How many of the slots of 64 bytes begin with an open gate. The clause is only about the run of
/// reads.
#[tactic(auto, using(cm_guards::proofs::reading))]
pub fn count_open<D: Disk>(disk: &mut D, slots: u32) -> Result<u32, DeviceFault>
    requires { 64 * slots ≤ length (D.view.contents disk.old) }
    ensures reads { Reads D.view disk.old disk.new
        (IsErr result) }
{
    let mut open: u32 = 0;
    let mut gate = [0];
    for slot in 0..slots {
        disk.read(64 * u64::from(slot), &mut gate)?;
        if gate[0] == OPEN {
            open += 1;
        }
    }
    Ok(open)
}

//! From one claim to the next, by bytes stored apart and a gate. Only the trait of the disk is
//! known.
ghost use Rattle.std.specs.Prelude.{◌≡◌, ◌≤◌, ◌+◌, ◌^◌, List, ℕ, [], ◌∷◌, length, OnOk, OnErr};
ghost use Rattle.cm_disk.specs.Disk.{IsDurable};
ghost use Rattle.cm_disk.specs.Calls.{overwritten, HasCause};
ghost use Rattle.cm_guards.specs.Guards.{Guard, Guards, Keeps, EachImage, IsApart};
ghost use Rattle.cm_guards.specs.Gates.{OneOf, Turns};
ghost use Rattle.cm_guards.specs.Calls.{LeavesOnly};
ghost use Rattle.cm_guards.specs.Laws.{Stays};

use cm_disk::{DeviceFault, Disk};
use cm_guards::Claim;

pub const OPEN: u8 = 0xA5;

/// A claim with its guard.
pub trait Guarded: Claim {
    ghost guard: { Guard };
}

/// Writes bytes at a place where nothing is guarded.
#[tactic(auto, using(cm_guards::proofs::writing))]
pub fn write_apart<D: Disk, P: Guarded>(
    disk: &mut D,
    at: u64,
    bytes: &[u8],
) -> Result<(), DeviceFault>
    requires starts_within { at ≤ length (D.view.contents disk.old) }
    requires within_limit { at + length bytes.now ≤ 2 ^ 40 }
    requires guards { Guards P.guard P.holds }
    requires apart { IsApart P.guard at (length bytes.now) }
    requires stays { Stays P.guard P.holds (D.view.contents disk.old) (D.view.unsynced disk.old) }
    ensures written { OnOk result
        (D.view.contents disk.new ≡ overwritten at bytes.now (D.view.contents disk.old)) }
    ensures stays { Stays P.guard P.holds (D.view.contents disk.new) (D.view.unsynced disk.new) }
    ensures any_moment { LeavesOnly D.view disk.old disk.new P.holds }
    ensures cause { HasCause (D.view.failures disk.old) (D.view.failures disk.new) result }
{
    disk.write_at(at, bytes)
}

/// Writes them, and makes them durable.
#[tactic(auto, using(cm_guards::proofs::syncing))]
pub fn store_apart<D: Disk, P: Guarded>(
    disk: &mut D,
    at: u64,
    bytes: &[u8],
) -> Result<(), DeviceFault>
    requires starts_within { at ≤ length (D.view.contents disk.old) }
    requires within_limit { at + length bytes.now ≤ 2 ^ 40 }
    requires guards { Guards P.guard P.holds }
    requires apart { IsApart P.guard at (length bytes.now) }
    requires stays { Stays P.guard P.holds (D.view.contents disk.old) (D.view.unsynced disk.old) }
    ensures written { OnOk result
        (D.view.contents disk.new ≡ overwritten at bytes.now (D.view.contents disk.old)) }
    ensures durable { OnOk result
        (IsDurable (D.view.contents disk.new) (D.view.unsynced disk.new)) }
    ensures stays { Stays P.guard P.holds (D.view.contents disk.new) (D.view.unsynced disk.new) }
    ensures any_moment { LeavesOnly D.view disk.old disk.new P.holds }
    ensures cause { HasCause (D.view.failures disk.old) (D.view.failures disk.new) result }
{
    write_apart::<D, P>(disk, at, bytes)?;
    disk.sync()
}

/// Writes the gate's byte when everything is durable.
#[tactic(auto, using(cm_guards::proofs::gating))]
pub fn write_gate<D: Disk, P: Claim, Q: Claim>(disk: &mut D, gate: u64) -> Result<(), DeviceFault>
    requires within_limit { gate + 1 ≤ 2 ^ 40 }
    requires durable { IsDurable (D.view.contents disk.old) (D.view.unsynced disk.old) }
    requires holds { P.holds (D.view.contents disk.old) }
    requires turns { Turns P.holds Q.holds gate OPEN (D.view.contents disk.old) }
    ensures turned { OnOk result (Q.holds (D.view.contents disk.new)) }
    ensures images { EachImage (D.view.contents disk.new) (D.view.unsynced disk.new)
        (OneOf P.holds Q.holds) }
    ensures any_moment { LeavesOnly D.view disk.old disk.new
        (OneOf P.holds Q.holds) }
    ensures cause { HasCause (D.view.failures disk.old) (D.view.failures disk.new) result }
{
    disk.write_at(gate, &[OPEN])
}

/// Writes it, and makes it durable.
#[tactic(auto, using(cm_guards::proofs::settling))]
pub fn turn_gate<D: Disk, P: Claim, Q: Claim>(disk: &mut D, gate: u64) -> Result<(), DeviceFault>
    requires within_limit { gate + 1 ≤ 2 ^ 40 }
    requires durable { IsDurable (D.view.contents disk.old) (D.view.unsynced disk.old) }
    requires holds { P.holds (D.view.contents disk.old) }
    requires turns { Turns P.holds Q.holds gate OPEN (D.view.contents disk.old) }
    ensures done { OnOk result (EachImage (D.view.contents disk.new) (D.view.unsynced disk.new)
        Q.holds) }
    ensures failed { OnErr result
        (EachImage (D.view.contents disk.new) (D.view.unsynced disk.new) (OneOf P.holds Q.holds)) }
    ensures any_moment { LeavesOnly D.view disk.old disk.new
        (OneOf P.holds Q.holds) }
    ensures cause { HasCause (D.view.failures disk.old) (D.view.failures disk.new) result }
{
    write_gate::<D, P, Q>(disk, gate)?;
    disk.sync()
}

/// From the first claim to the second: stores bytes apart from what the first rests on, then turns
/// the gate.
#[tactic(auto, using(cm_guards::proofs::turning))]
pub fn turn<D: Disk, P: Guarded, Q: Claim>(
    disk: &mut D,
    at: u64,
    bytes: &[u8],
    gate: u64,
) -> Result<(), DeviceFault>
    requires starts_within { at ≤ length (D.view.contents disk.old) }
    requires within_limit { at + length bytes.now ≤ 2 ^ 40 }
    requires gate_within_limit { gate + 1 ≤ 2 ^ 40 }
    requires guards { Guards P.guard P.holds }
    requires apart { IsApart P.guard at (length bytes.now) }
    requires stays { Stays P.guard P.holds (D.view.contents disk.old) (D.view.unsynced disk.old) }
    requires turns { Turns P.holds Q.holds gate OPEN
        (overwritten at bytes.now (D.view.contents disk.old)) }
    ensures done { OnOk result (EachImage (D.view.contents disk.new) (D.view.unsynced disk.new)
        Q.holds) }
    ensures any_moment { LeavesOnly D.view disk.old disk.new
        (OneOf P.holds Q.holds) }
    ensures cause { HasCause (D.view.failures disk.old) (D.view.failures disk.new) result }
{
    store_apart::<D, P>(disk, at, bytes)?;
    turn_gate::<D, P, Q>(disk, gate)
}

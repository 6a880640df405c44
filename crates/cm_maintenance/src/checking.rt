//! Checks a file.

ghost use Rattle.std.specs.Prelude.{◌≡◌, Err};
ghost use Rattle.cm_guards.specs.Calls.{Reads};
ghost use Rattle.cm_verdict.specs.Verdict.{verdict};
ghost use Rattle.cm_verdict.specs.declared.fault.OpenFault.TheVariants as open_fault;
ghost use Rattle.cm_verdict.specs.Standing.{FollowsVerdict};
ghost use Rattle.cm_maintenance.specs.Report.{Reports};

use crate::report::{Report, count};
use cm_disk::Disk;
use cm_layout::loaders_are_own;
use cm_recover::read_standing;
use cm_state::rows_tell_state;
use cm_verdict::{OpenFault, found_is_framed, found_is_live, verdict_is_exact};
use std::alloc::Global;

/// What the cache that would open from this file holds. The file is only read: no byte changes, and
/// nothing is synced.
///
/// `NotACache` and `Damaged` exactly if that is the verdict on the file's bytes, as when the file
/// is opened; `Device` if the device failed; `NoMemory` if an allocation failed.
pub fn check<D: Disk>(alloc: Global, disk: &mut D) -> Result<Report, OpenFault>
    ensures verdict { FollowsVerdict (Reports (D.view.contents disk.old)) result
        (verdict (D.view.contents disk.old)) }
    ensures reads { Reads D.view disk.old disk.new
        (result ≡ Err open_fault.Device) }
{
    found_is_live();
    found_is_framed();
    verdict_is_exact();
    rows_tell_state();
    loaders_are_own();
    let file = read_standing(alloc, disk)?;
    Ok(count(&file.rows, file.journal.number))
}

//! Upgrades a file of version 1.

ghost use Rattle.std.specs.Prelude.{◌≡◌, Err, IfOk, IfErr};
ghost use Rattle.std.specs.Arc.{arc_value};
ghost use Rattle.cm_disk.specs.Disk.{IsDurable};
ghost use Rattle.cm_guards.specs.Calls.{LeavesOnly};
ghost use Rattle.cm_layout.specs.Frames.{entry_version};
ghost use Rattle.cm_layout.specs.Rows.{rows_with};
ghost use Rattle.cm_commit.specs.Keeps.{IsHeld};
ghost use Rattle.cm_verdict.specs.Verdict.{verdict};
ghost use Rattle.cm_verdict.specs.declared.fault.OpenFault.TheVariants as open_fault;
ghost use Rattle.cm_verdict.specs.Opening.{IsFaultIn};
ghost use Rattle.cm_verdict.specs.Standing.{ReportsOk};
ghost use Rattle.cm_recover.specs.Standing.{IsStanding};
ghost use Rattle.cm_recover.specs.Opened.{IsOlderFile, StandsForSame, TellsDevice, opened_journal};

use crate::standing::StandingFile;
use cm_commit::{JournalEnd, RenewFault, others_are_told, renew};
use cm_disk::Disk;
use cm_layout::ENTRY_VERSION;
use cm_record::words_tell_name;
use cm_verdict::{OpenFault, found_is_framed, found_is_live, verdict_is_exact};
use std::alloc::Global;

/// Writes the journal of a file anew if the half that counts is of version 1, and returns where the
/// journal continues. It makes no call if that half is of the version that is written now.
///
/// At each moment a crash leaves contents that stand for the same cache.
pub(crate) fn upgrade<D: Disk>(
    alloc: Global,
    disk: &mut D,
    file: &StandingFile,
) -> Result<JournalEnd, OpenFault>
    requires standing { ReportsOk (IsStanding (D.view.contents disk.old))
        (verdict (D.view.contents disk.old)) file.now }
    requires stored { IsDurable (D.view.contents disk.old) (D.view.unsynced disk.old) }
    ensures held { IfOk result (λ j. IsHeld (D.view.contents disk.new) (D.view.unsynced disk.new) j
        (rows_with arc_value file.now.committed.rows) file.now.roots entry_version) }
    ensures journal { (t : ReportsOk (IsStanding (D.view.contents disk.old))
        (verdict (D.view.contents disk.old)) file.now)
        → IfOk result (λ j. j ≡ opened_journal (D.view.contents disk.old) t.told) }
    ensures fault { IfErr result (λ f. IsFaultIn f (verdict (D.view.contents disk.old))) }
    ensures no_call { (IsOlderFile (D.view.contents disk.old) → ⊥) → disk.new ≡ disk.old }
    ensures images { LeavesOnly D.view disk.old disk.new
        (StandsForSame (D.view.contents disk.old)) }
    ensures cause { TellsDevice (D.view.failures disk.old) (D.view.failures disk.new)
        (result ≡ Err open_fault.Device) }
{
    found_is_live();
    found_is_framed();
    verdict_is_exact();
    words_tell_name();
    others_are_told();
    if file.version >= ENTRY_VERSION {
        return Ok(file.journal);
    }
    match renew(alloc, disk, &file.journal, &file.committed) {
        Ok(journal) => Ok(journal),
        Err(RenewFault::Device) => Err(OpenFault::Device),
        Err(RenewFault::NoMemory) => Err(OpenFault::NoMemory),
    }
}

//! Truncates a file after the last root that rows use.

ghost use Rattle.std.specs.Prelude.{◌≡◌, ◌≤◌, ◌<◌, false, length, IsErr, IfOk, OnOk, Ok, Err};
ghost use Rattle.cm_disk.specs.Disk.{IsDurable};
ghost use Rattle.cm_guards.specs.Calls.{LeavesOnly};
ghost use Rattle.cm_layout.specs.Offsets.{root_at};
ghost use Rattle.cm_commit.specs.States.{IsFree, ShowsCommitted, with_trim};
ghost use Rattle.cm_commit.specs.Trims.{roots_of_rows};
ghost use Rattle.cm_verdict.specs.declared.fault.OpenFault.TheVariants as open_fault;
ghost use Rattle.cm_maintenance.specs.Trimming.{SameIdle, HasNoMore};

use cm_commit::{AdvanceFault, Committer};
use cm_disk::Disk;
use cm_verdict::OpenFault;

/// Makes the two device calls of a trim.
fn cut<D: Disk>(committer: &mut Committer<D>) -> Result<(), AdvanceFault>
    requires sound { committer.old.broken ≡ false }
    requires begun { committer.old ≡ with_trim committer.old }
    ensures kept { SameIdle committer.old committer.new }
    ensures moments { LeavesOnly D.view committer.old.disk committer.new.disk
        (ShowsCommitted committer.old) }
    ensures later { D.view.failures committer.old.disk ≤ D.view.failures committer.new.disk }
    ensures cause { IsErr result
        → D.view.failures committer.old.disk < D.view.failures committer.new.disk }
    ensures ends { OnOk result (length (D.view.contents committer.new.disk)
        ≡ root_at committer.old.sizes (roots_of_rows committer.old.rows)) }
    ensures stored { OnOk result (IsDurable (D.view.contents committer.new.disk)
        (D.view.unsynced committer.new.disk)) }
{
    committer.advance()?; // the cut
    committer.advance()?; // the sync after it
    Ok(())
}

/// Truncates a committer's file after the last root that committed rows use, if it holds whole
/// roots after that, and returns the number of roots that they use.
pub(crate) fn trim_file<D: Disk>(committer: &mut Committer<D>) -> Result<u32, OpenFault>
    requires { IsFree committer.old }
    ensures kept { SameIdle committer.old committer.new }
    ensures moments { LeavesOnly D.view committer.old.disk committer.new.disk
        (ShowsCommitted committer.old) }
    ensures later { D.view.failures committer.old.disk ≤ D.view.failures committer.new.disk }
    ensures cause { IsErr result
        → (result ≡ Err open_fault.Device)
        × (D.view.failures committer.old.disk < D.view.failures committer.new.disk) }
    ensures told { IfOk result (λ roots. roots ≡ roots_of_rows committer.old.rows) }
    ensures no_more { IfOk result (λ roots. HasNoMore committer.old.sizes roots
        (D.view.contents committer.new.disk)) }
    ensures stored { IsDurable (D.view.contents committer.old.disk)
        (D.view.unsynced committer.old.disk)
        → IfOk result (λ roots. IsDurable (D.view.contents committer.new.disk)
        (D.view.unsynced committer.new.disk)) }
{
    committer.images();
    match committer.trim() {
        Ok(true) => match cut(committer) {
            Ok(()) => Ok(committer.roots()),
            Err(_) => Err(OpenFault::Device),
        },
        Ok(false) => Ok(committer.roots()),
        Err(_) => unreachable!(),
    }
}

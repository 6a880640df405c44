//! Trims a file, and reports how many roots it then has.

ghost use Rattle.std.specs.Prelude.{◌≡◌, ◌<◌, Ok};
ghost use Rattle.cm_disk.specs.Disk.{IsDurable};
ghost use Rattle.cm_guards.specs.Calls.{LeavesOnly};
ghost use Rattle.cm_guards.specs.Guards.{EachImage};
ghost use Rattle.cm_maintenance.specs.Texts.{roots_line};
ghost use Rattle.cm_maintenance.specs.Reporting.{Writes, told, status_of, status_in, disk_left};
ghost use Rattle.cm_recover.specs.Opened.{LeavesSame};
ghost use Rattle.cm_maintenance.specs.Trimming.{TrimsTo, IsTrimmed};

use crate::fault::NotReported;
use crate::status::Status;
use crate::telling::{tell, tell_fault, with_disk};
use crate::texts::line_of_roots;
use crate::trimming::trim_file;
use cm_disk::Disk;
use cm_lines::LineFault;
use cm_recover::{NotOpened, open};
use cm_verdict::OpenFault;
use std::alloc::Global;
use std::io::Write;

/// Truncates the file of a cache after the last root that its rows use, if it holds whole roots
/// after that, and returns the status and the disk. It writes `roots N`, the number of roots in
/// use, with `Done`; for a file that isn't opened, what [`crate::check_to`] writes; `device`, with
/// `Failed`, if the device fails.
///
/// At each moment a crash leaves what it might have left before, or what stands for the same cache.
/// A file of version 1 is upgraded first.
///
/// It is an `Err` if the writer fails (`Output`), or an allocation failed for the line
/// (`NoMemory`).
pub fn trim_to<W: Write, D: Disk>(
    alloc: Global,
    writer: &mut W,
    disk: D,
) -> Result<(Status, D), NotReported<D>>
    ensures told { TrimsTo (D.view.contents disk) (D.view.failures disk < D.view.failures
        (disk_left result))
        (W.contents writer.old) (W.contents writer.new) (status_in result) }
    ensures trimmed { status_in result ≡ Ok Status.Done
        → IsTrimmed (D.view.contents disk) (D.view.contents (disk_left result)) }
    ensures stored { status_in result ≡ Ok Status.Done
        → IsDurable (D.view.contents (disk_left result)) (D.view.unsynced (disk_left result)) }
    ensures moments { LeavesOnly D.view disk (disk_left result)
        (LeavesSame (D.view.contents disk) (D.view.unsynced disk)) }
    ensures images { EachImage (D.view.contents (disk_left result))
        (D.view.unsynced (disk_left result))
        (LeavesSame (D.view.contents disk) (D.view.unsynced disk)) }
{
    match open(alloc, disk) {
        Ok((_front, mut committer)) => {
            let roots = trim_file(&mut committer);
            committer.images();
            let status = tell_roots(alloc, writer, roots);
            with_disk(status, committer.into_disk())
        }
        Err(NotOpened { fault, disk }) => {
            let status = tell_fault(alloc, writer, fault);
            with_disk(status, disk)
        }
    }
}

fn tell_roots<W: Write>(
    alloc: Global,
    writer: &mut W,
    roots: Result<u32, OpenFault>,
) -> Result<Status, LineFault>
    ensures { Writes (W.contents writer.old) (W.contents writer.new)
        (told roots_line roots) (status_of roots) result }
{
    match roots {
        Ok(roots) => match line_of_roots(alloc, roots) {
            Ok(line) => tell(writer, &line, Status::Done),
            Err(_) => Err(LineFault::NoMemory),
        },
        Err(fault) => tell_fault(alloc, writer, fault),
    }
}

//! Lists the loaders and classes of a file's cache.

ghost use Rattle.std.specs.Prelude.{◌≡◌, ◌<◌, Ok};
ghost use Rattle.cm_disk.specs.Disk.{IsDurable};
ghost use Rattle.cm_recover.specs.Opened.{OpensThrough};
ghost use Rattle.cm_maintenance.specs.Listing.{listing};
ghost use Rattle.cm_maintenance.specs.Texts.{list_lines};
ghost use Rattle.cm_maintenance.specs.Reporting.{Writes, ListsTo, status_in, disk_left};

use crate::fault::NotReported;
use crate::list_accepted;
use crate::status::Status;
use crate::telling::{tell, tell_fault, with_disk};
use crate::texts::lines_of_list;
use cm_disk::Disk;
use cm_front::Front;
use cm_lines::LineFault;
use cm_recover::{NotOpened, open};
use std::alloc::Global;
use std::io::Write;

/// Writes which loaders and classes the cache of a file has, or why it isn't opened, and returns
/// the status and the disk: `loader NAME` for each loader in byte order of their names, and after
/// it `class CLASS words W root R at P` for each of its classes, with `Done`; for a file that isn't
/// opened, what [`crate::check_to`] writes. The file is opened as for a script, with a sync, so no
/// crash undoes what is listed. Nothing is written to it, unless it is of version 1: then it is
/// upgraded.
///
/// It is an `Err` if the writer fails (`Output`), or an allocation failed for the lines
/// (`NoMemory`).
pub fn list_to<W: Write, D: Disk>(
    alloc: Global,
    writer: &mut W,
    disk: D,
) -> Result<(Status, D), NotReported<D>>
    ensures told { ListsTo (D.view.contents disk) (D.view.failures disk < D.view.failures
        (disk_left result))
        (W.contents writer.old) (W.contents writer.new) (status_in result) }
    ensures stored { status_in result ≡ Ok Status.Done
        → IsDurable (D.view.contents (disk_left result)) (D.view.unsynced (disk_left result)) }
    ensures run { OpensThrough D.view disk
        (disk_left result) (D.view.failures disk < D.view.failures (disk_left result)) }
{
    match open(alloc, disk) {
        Ok((front, committer)) => {
            let status = tell_list(alloc, writer, &front);
            with_disk(status, committer.into_disk())
        }
        Err(NotOpened { fault, disk }) => {
            let status = tell_fault(alloc, writer, fault);
            with_disk(status, disk)
        }
    }
}

fn tell_list<W: Write>(alloc: Global, writer: &mut W, front: &Front) -> Result<Status, LineFault>
    ensures { Writes (W.contents writer.old) (W.contents writer.new)
        (list_lines (listing front.now.rows)) Status.Done result }
{
    let Ok(loaders) = list_accepted(alloc, front) else {
        return Err(LineFault::NoMemory);
    };
    match lines_of_list(alloc, &loaders) {
        Ok(lines) => tell(writer, &lines, Status::Done),
        Err(_) => Err(LineFault::NoMemory),
    }
}

//! Writes reports, and determines their statuses.

ghost use Rattle.std.specs.Prelude.{◌≡◌, IfOk};
ghost use Rattle.cm_maintenance.specs.Texts.{fault_line};
ghost use Rattle.cm_maintenance.specs.Reporting.{Writes, fault_status, status_in, disk_left};

use crate::fault::NotReported;
use crate::status::Status;
use crate::texts::line_of_fault;
use cm_lines::{LineFault, write_line};
use cm_verdict::{FileFault, OpenFault};
use std::alloc::Global;
use std::io::Write;

/// Writes lines, and returns their status.
pub(crate) fn tell<W: Write>(
    writer: &mut W,
    lines: &[u8],
    status: Status,
) -> Result<Status, LineFault>
    ensures { Writes (W.contents writer.old) (W.contents writer.new) lines.now status result }
{
    write_line(writer, lines)?;
    Ok(status)
}

/// Writes why a file isn't opened, and returns the status, as [`crate::check_to`] does. Only the
/// line for a damage needs an allocation.
pub fn tell_fault<W: Write>(
    alloc: Global,
    writer: &mut W,
    fault: OpenFault,
) -> Result<Status, LineFault>
    ensures { Writes (W.contents writer.old) (W.contents writer.new) (fault_line fault)
        (fault_status fault) result }
{
    match fault {
        OpenFault::File(FileFault::NotACache) => tell(writer, b"not a cache\n", Status::Refused),
        OpenFault::File(FileFault::Damaged { .. }) => match line_of_fault(alloc, fault) {
            Ok(line) => tell(writer, &line, Status::Refused),
            Err(_) => Err(LineFault::NoMemory),
        },
        OpenFault::Device => tell(writer, b"device\n", Status::Failed),
        OpenFault::NoMemory => tell(writer, b"memory\n", Status::Failed),
    }
}

/// The result of a report, with the disk.
pub(crate) fn with_disk<D>(
    status: Result<Status, LineFault>,
    disk: D,
) -> Result<(Status, D), NotReported<D>>
    ensures status { status_in result ≡ status }
    ensures disk { disk_left result ≡ disk }
{
    match status {
        Ok(status) => Ok((status, disk)),
        Err(fault) => Err(NotReported { fault, disk }),
    }
}

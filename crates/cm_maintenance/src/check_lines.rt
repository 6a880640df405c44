//! Reports whether a cache would open from a file.

ghost use Rattle.std.specs.Prelude.{◌<◌};
ghost use Rattle.cm_guards.specs.Calls.{Reads};
ghost use Rattle.cm_maintenance.specs.Texts.{report_line};
ghost use Rattle.cm_maintenance.specs.Reporting.{Writes, told, status_of, ChecksTo, status_in};
ghost use Rattle.cm_maintenance.specs.Reporting.{disk_left};

use crate::fault::NotReported;
use crate::status::Status;
use crate::telling::{tell, tell_fault, with_disk};
use crate::texts::line_of_report;
use crate::{Report, check};
use cm_disk::Disk;
use cm_lines::LineFault;
use cm_verdict::OpenFault;
use std::alloc::Global;
use std::io::Write;

/// Writes what the cache that would open from this file holds, or why none would open, and returns
/// the status and the disk: `ok loaders L classes C chunks K number N` with `Done`, `not a cache`
/// or `damaged KIND SLOT` with `Refused`, `device` or `memory` with `Failed`. The file is only
/// read, and nothing is synced.
///
/// It is an `Err` if the writer fails (`Output`), or an allocation failed for the line
/// (`NoMemory`).
#[tactic(auto, using(crate::proofs::Rose::reads_rose))]
pub fn check_to<W: Write, D: Disk>(
    alloc: Global,
    writer: &mut W,
    mut disk: D,
) -> Result<(Status, D), NotReported<D>>
    ensures told { ChecksTo (D.view.contents disk) (D.view.failures disk < D.view.failures
        (disk_left result))
        (W.contents writer.old) (W.contents writer.new) (status_in result) }
    ensures reads { Reads D.view disk
        (disk_left result) (D.view.failures disk < D.view.failures (disk_left result)) }
{
    let answer = check(alloc, &mut disk);
    let status = tell_answer(alloc, writer, answer);
    with_disk(status, disk)
}

fn tell_answer<W: Write>(
    alloc: Global,
    writer: &mut W,
    answer: Result<Report, OpenFault>,
) -> Result<Status, LineFault>
    ensures { Writes (W.contents writer.old) (W.contents writer.new)
        (told report_line answer) (status_of answer) result }
{
    match answer {
        Ok(report) => match line_of_report(alloc, report) {
            Ok(line) => tell(writer, &line, Status::Done),
            Err(_) => Err(LineFault::NoMemory),
        },
        Err(fault) => tell_fault(alloc, writer, fault),
    }
}

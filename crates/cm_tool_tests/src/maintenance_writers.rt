//! Writers that take a part, or can't flush what they took.

use crate::line_writers::StuckWriter;
use crate::maintenance_disks::{Verb, cache_after, tell, tell_to_end};
use cm_disk::SimDisk;
use cm_lines::LineFault;
use cm_maintenance::{NotReported, Status};
use std::alloc::Global;
use std::io::{self, ErrorKind, Write};
use std::test::*;

/// Takes one byte at a time, this many in all, and then fails.
#[derive(Drop)]
struct NarrowWriter {
    bytes: Vec<u8>,
    room: usize,
}

impl Write for NarrowWriter {
    fn write(&mut self, buf: &[u8]) -> io::Result<usize> {
        let Some(first) = buf.first() else {
            return Ok(0);
        };
        if self.bytes.len() >= self.room {
            return Err(io::Error::from(ErrorKind::Other));
        }
        match self.bytes.push(*first) {
            Ok(()) => Ok(1),
            Err(_) => Err(io::Error::from(ErrorKind::OutOfMemory)),
        }
    }

    fn flush(&mut self) -> io::Result<()> {
        Ok(())
    }
}

const REPORT: &[u8] = b"ok loaders 1 classes 1 chunks 1 number 2\n";

const LIST: &[u8] = b"loader app\nclass A words 16 root 0 at 0\n";

fn narrow(alloc: Global, room: usize) -> NarrowWriter {
    NarrowWriter {
        bytes: Vec::new(alloc),
        room,
    }
}

/// Why a report wasn't written to its end, and the disk.
fn tell_to_failing(
    told: Result<(Status, SimDisk), NotReported<SimDisk>>,
) -> Result<(LineFault, SimDisk), Fail> {
    match told {
        Ok(_) => Err("a fault".into()),
        Err(NotReported { fault, disk }) => Ok((fault, disk)),
    }
}

/// Whether a report written to this much room fails after the beginning of a text, and the disk.
fn is_cut(
    alloc: Global,
    verb: Verb,
    disk: SimDisk,
    text: &[u8],
    room: usize,
) -> Result<(bool, SimDisk), Fail> {
    let mut writer = narrow(alloc, room);
    let (fault, disk) = tell_to_failing(tell(alloc, verb, &mut writer, disk))?;
    let is_beginning = Some(writer.bytes.as_slice()) == text.get(..room);
    Ok((fault == LineFault::Output && is_beginning, disk))
}

/// Whether this much room for a report and for a list cuts both short, and the disk.
fn are_both_cut(
    alloc: Global,
    disk: SimDisk,
    (report, report_room): (&[u8], usize),
    (list, list_room): (&[u8], usize),
) -> Result<(bool, SimDisk), Fail> {
    let (check, disk) = is_cut(alloc, Verb::Check, disk, report, report_room)?;
    let (list, disk) = is_cut(alloc, Verb::List, disk, list, list_room)?;
    Ok((check && list, disk))
}

/// How many of the 40 amounts of room that are less than the list takes cut both short.
fn rooms_that_cut(alloc: Global, disk: SimDisk) -> Result<u32, Fail> {
    let mut disk = disk;
    let mut cuts = 0;
    for room in 0..40 {
        let (are_cut, left) = are_both_cut(alloc, disk, (REPORT, room), (LIST, room))?;
        cuts = u32::from(are_cut).saturating_add(cuts);
        disk = left;
    }
    Ok(cuts)
}

#[test]
fn a_writer_that_fails_has_a_beginning(rt: HostRuntime) -> Result<(), Fail> {
    let alloc = rt.alloc();
    let disk = cache_after(alloc, b"loader app\ndefine app <0141>\n")?;
    assert_eq!(rt; rooms_that_cut(alloc, disk)?, 40);
    Ok(())
}

/// Whether a report written to room for a text is the text, and the disk.
fn is_whole(
    alloc: Global,
    verb: Verb,
    disk: SimDisk,
    text: &[u8],
) -> Result<(bool, SimDisk), Fail> {
    let mut writer = narrow(alloc, text.len());
    let (status, disk) = tell_to_end(tell(alloc, verb, &mut writer, disk))?;
    let is_text = writer.bytes.as_slice() == text;
    Ok((status == Status::Done && is_text, disk))
}

#[test]
fn a_writer_of_just_enough_room_has_it_all(rt: HostRuntime) -> Result<(), Fail> {
    let alloc = rt.alloc();
    let disk = cache_after(alloc, b"loader app\ndefine app <0141>\n")?;
    let (has_report, disk) = is_whole(alloc, Verb::Check, disk, REPORT)?;
    let (has_list, _disk) = is_whole(alloc, Verb::List, disk, LIST)?;
    assert!(rt; has_report && has_list);
    Ok(())
}

#[test]
fn a_fault_that_is_not_written_is_no_status(rt: HostRuntime) -> Result<(), Fail> {
    let line = b"not a cache\n".as_slice();
    let disk = SimDisk::new(rt.alloc());
    let (are_cut, _disk) = are_both_cut(rt.alloc(), disk, (line, 3), (line, 11))?;
    assert!(rt; are_cut);
    Ok(())
}

/// Why a check and a list of a disk aren't flushed.
fn stuck_faults(alloc: Global, disk: SimDisk) -> Result<[LineFault; 2], Fail> {
    let (check, disk) = tell_to_failing(tell(alloc, Verb::Check, &mut StuckWriter, disk))?;
    let (list, _disk) = tell_to_failing(tell(alloc, Verb::List, &mut StuckWriter, disk))?;
    Ok([check, list])
}

#[test]
fn lines_that_are_not_passed_on_are_a_fault(rt: HostRuntime) -> Result<(), Fail> {
    let disk = cache_after(rt.alloc(), b"loader app\n")?;
    let faults = stuck_faults(rt.alloc(), disk)?;
    assert_eq!(rt; faults, [LineFault::Output; 2]);
    Ok(())
}

const TEXTS: [(LineFault, &str); 2] = [
    (LineFault::Output, "the output failed"),
    (LineFault::NoMemory, "out of memory"),
];

#[test]
fn faults_have_their_texts(rt: HostRuntime) -> Result<(), Fail> {
    for (fault, text) in &TEXTS {
        assert_eq!(rt; fault.to_string(rt.alloc())?.as_str(), *text);
    }
    Ok(())
}

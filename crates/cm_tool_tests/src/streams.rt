//! Readers and writers that fail, are interrupted, or take nothing.

use crate::disks::{are_replies, has_one_loader, new_disk};
use cm_disk::SimDisk;
use cm_lines::LineFault;
use cm_tool::{ApplyFault, Outcome, apply_script};
use std::alloc::Global;
use std::cell::Cell;
use std::io::{self, BufRead, ErrorKind, Read, Write};
use std::test::*;

/// The result of a run on a new disk, and the disk.
fn run<R: BufRead, W: Write>(
    alloc: Global,
    reader: &mut R,
    writer: &mut W,
) -> Result<(Result<Outcome, ApplyFault>, SimDisk), Fail> {
    Ok(apply_script(alloc, reader, writer, new_disk(alloc)?))
}

/// Gives its bytes, and then fails.
#[derive(Drop)]
struct FailingReader<'a> {
    bytes: &'a [u8],
}

impl<'a> Read for FailingReader<'a> {
    fn read(&mut self, _buf: &mut [u8]) -> io::Result<usize> {
        Err(io::Error::from(ErrorKind::Other))
    }
}

impl<'a> BufRead for FailingReader<'a> {
    fn fill_buf(&mut self) -> io::Result<&[u8]> {
        if self.bytes.is_empty() {
            return Err(io::Error::from(ErrorKind::Other));
        }
        Ok(self.bytes)
    }

    fn consume(&mut self, amount: usize) {
        if amount <= self.bytes.len() {
            self.bytes = &self.bytes[amount..];
        }
    }
}

/// The result of a run whose reader fails, whether its first line has a reply, and whether what
/// that line adds is all that is stored.
fn run_failing(alloc: Global) -> Result<(Result<Outcome, ApplyFault>, [bool; 2]), Fail> {
    let mut reader = FailingReader {
        bytes: b"loader a\nloader b",
    };
    let mut written = Vec::new(alloc);
    let (outcome, disk) = run(alloc, &mut reader, &mut written)?;
    let is_answered = written.as_slice() == b"ok 1\n".as_slice();
    Ok((outcome, [is_answered, has_one_loader(alloc, disk)]))
}

#[test]
fn a_reader_that_fails_in_mid_line_ends_the_run(rt: HostRuntime) -> Result<(), Fail> {
    let (outcome, is_there) = run_failing(rt.alloc())?;
    assert_eq!(rt; outcome, Err(ApplyFault::Script(LineFault::Input)));
    assert_eq!(rt; is_there, [true; 2]);
    Ok(())
}

/// Takes this many replies, and then fails.
#[derive(Drop)]
struct FailingWriter {
    replies: u8,
}

impl Write for FailingWriter {
    fn write(&mut self, buf: &[u8]) -> io::Result<usize> {
        if self.replies == 0 {
            return Err(io::Error::from(ErrorKind::Other));
        }
        self.replies -= 1;
        Ok(buf.len())
    }

    fn flush(&mut self) -> io::Result<()> {
        Ok(())
    }
}

#[test]
fn a_writer_that_fails_at_the_second_reply_ends_the_run(rt: HostRuntime) -> Result<(), Fail> {
    let alloc = rt.alloc();
    let mut reader = b"loader a\nloader b\nloader c\n".as_slice();
    let (outcome, disk) = run(alloc, &mut reader, &mut FailingWriter { replies: 1 })?;
    let script = b"loader a\nloader b\nloader another\n";
    let replies = b"refused 2 loader exists\nrefused 2 loader exists\nok 3\n";
    let are_there = are_replies(alloc, disk, script, replies);
    assert_eq!(rt; outcome, Err(ApplyFault::Script(LineFault::Output)));
    assert!(rt; are_there);
    Ok(())
}

/// Is interrupted each time before it gives its bytes.
#[derive(Drop)]
struct InterruptedReader<'a> {
    bytes: &'a [u8],
    was_interrupted: bool,
}

impl<'a> Read for InterruptedReader<'a> {
    fn read(&mut self, _buf: &mut [u8]) -> io::Result<usize> {
        Err(io::Error::from(ErrorKind::Other))
    }
}

impl<'a> BufRead for InterruptedReader<'a> {
    fn fill_buf(&mut self) -> io::Result<&[u8]> {
        if !self.was_interrupted {
            self.was_interrupted = true;
            return Err(io::Error::from(ErrorKind::Interrupted));
        }
        Ok(self.bytes)
    }

    fn consume(&mut self, amount: usize) {
        self.was_interrupted = false;
        if amount <= self.bytes.len() {
            self.bytes = &self.bytes[amount..];
        }
    }
}

/// Is interrupted before each byte, and takes one byte at a time.
#[derive(Drop)]
struct InterruptedWriter {
    bytes: Vec<u8>,
    was_interrupted: bool,
}

impl Write for InterruptedWriter {
    fn write(&mut self, buf: &[u8]) -> io::Result<usize> {
        self.was_interrupted = !self.was_interrupted;
        if self.was_interrupted {
            return Err(io::Error::from(ErrorKind::Interrupted));
        }
        let Some(first) = buf.first() else {
            return Ok(0);
        };
        match self.bytes.push(*first) {
            Ok(()) => Ok(1),
            Err(_) => Err(io::Error::from(ErrorKind::OutOfMemory)),
        }
    }

    fn flush(&mut self) -> io::Result<()> {
        Ok(())
    }
}

/// The result of a run whose reader and writer are interrupted, and whether these are the replies.
fn run_interrupted(
    alloc: Global,
    bytes: &[u8],
    replies: &[u8],
) -> Result<(Result<Outcome, ApplyFault>, bool), Fail> {
    let mut reader = InterruptedReader {
        bytes,
        was_interrupted: false,
    };
    let mut writer = InterruptedWriter {
        bytes: Vec::new(alloc),
        was_interrupted: false,
    };
    let (outcome, _disk) = run(alloc, &mut reader, &mut writer)?;
    Ok((outcome, writer.bytes.as_slice() == replies))
}

#[test]
fn an_interrupted_reader_and_writer_go_on(rt: HostRuntime) -> Result<(), Fail> {
    let script = b"loader a\nloader a\nfind a B";
    let replies = b"ok 1\nrefused 2 loader exists\nnone\n";
    let (outcome, is_answered) = run_interrupted(rt.alloc(), script, replies)?;
    assert_eq!(rt;
        outcome,
        Ok(Outcome {
            refused: true,
            unsure: false
        })
    );
    assert!(rt; is_answered);
    Ok(())
}

/// Takes nothing, and reports that.
#[derive(Drop)]
struct FullWriter;

impl Write for FullWriter {
    fn write(&mut self, _buf: &[u8]) -> io::Result<usize> {
        Ok(0)
    }

    fn flush(&mut self) -> io::Result<()> {
        Ok(())
    }
}

#[test]
fn a_writer_that_takes_nothing_ends_the_run(rt: HostRuntime) -> Result<(), Fail> {
    let alloc = rt.alloc();
    let mut reader = b"loader a\nloader b\n".as_slice();
    let (outcome, disk) = run(alloc, &mut reader, &mut FullWriter)?;
    let is_there = has_one_loader(alloc, disk);
    assert_eq!(rt; outcome, Err(ApplyFault::Script(LineFault::Output)));
    assert!(rt; is_there);
    Ok(())
}

/// Gives one line at a time, and fails if something written before it isn't flushed.
#[derive(Drop)]
struct PatientReader<'a> {
    bytes: &'a [u8],
    held_back: &'a Cell<u64>,
}

impl<'a> Read for PatientReader<'a> {
    fn read(&mut self, _buf: &mut [u8]) -> io::Result<usize> {
        Err(io::Error::from(ErrorKind::Other))
    }
}

impl<'a> BufRead for PatientReader<'a> {
    fn fill_buf(&mut self) -> io::Result<&[u8]> {
        if self.held_back.get() > 0 {
            return Err(io::Error::from(ErrorKind::Other));
        }
        match self.bytes.iter().position(|byte| *byte == b'\n') {
            Some(end) if end < self.bytes.len() => Ok(&self.bytes[..end + 1]),
            _ => Ok(self.bytes),
        }
    }

    fn consume(&mut self, amount: usize) {
        if amount <= self.bytes.len() {
            self.bytes = &self.bytes[amount..];
        }
    }
}

/// Takes everything, and counts what wasn't flushed since the last time.
#[derive(Drop)]
struct HoldingWriter<'a> {
    bytes: Vec<u8>,
    held_back: &'a Cell<u64>,
}

impl<'a> Write for HoldingWriter<'a> {
    fn write(&mut self, buf: &[u8]) -> io::Result<usize> {
        match self.bytes.extend_from_slice(buf) {
            Ok(()) => {
                self.held_back
                    .set(self.held_back.get().saturating_add(buf.len() as u64));
                Ok(buf.len())
            }
            Err(_) => Err(io::Error::from(ErrorKind::OutOfMemory)),
        }
    }

    fn flush(&mut self) -> io::Result<()> {
        self.held_back.set(0);
        Ok(())
    }
}

/// Whether a run that reads a line only once all replies before it are flushed runs to its end, and
/// these are the replies.
fn is_passed_on(
    alloc: Global,
    held_back: &Cell<u64>,
    bytes: &[u8],
    replies: &[u8],
) -> Result<bool, Fail> {
    let mut reader = PatientReader { bytes, held_back };
    let mut writer = HoldingWriter {
        bytes: Vec::new(alloc),
        held_back,
    };
    let (outcome, _disk) = run(alloc, &mut reader, &mut writer)?;
    Ok(outcome.is_ok() && writer.bytes.as_slice() == replies)
}

#[test]
fn a_reply_is_passed_on_before_the_next_line_is_read(rt: HostRuntime) -> Result<(), Fail> {
    let held_back = Cell::new(0u64);
    let (script, replies) = (b"loader a\nfind a B\nloader b\n", b"ok 1\nnone\nok 2\n");
    assert!(rt; is_passed_on(rt.alloc(), &held_back, script, replies)?);
    Ok(())
}

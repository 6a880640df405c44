//! Writers that take part of a line, are interrupted, buffer it or fail.

use cm_lines::{LineFault, write_line};
use std::alloc::Global;
use std::io::{self, ErrorKind, Write};
use std::test::*;

/// Takes one byte at a time, this many in all, and is interrupted before each; then it takes none,
/// or fails.
#[derive(Drop)]
struct NarrowWriter {
    bytes: Vec<u8>,
    room: usize,
    was_interrupted: bool,
    fails: bool,
    is_passed_on: bool,
}

impl NarrowWriter {
    fn new(alloc: Global, room: usize, fails: bool) -> NarrowWriter {
        NarrowWriter {
            bytes: Vec::new(alloc),
            room,
            was_interrupted: false,
            fails,
            is_passed_on: false,
        }
    }
}

impl Write for NarrowWriter {
    fn write(&mut self, buf: &[u8]) -> io::Result<usize> {
        self.was_interrupted = !self.was_interrupted;
        if self.was_interrupted {
            return Err(io::Error::from(ErrorKind::Interrupted));
        }
        if self.bytes.len() >= self.room {
            if self.fails {
                return Err(io::Error::from(ErrorKind::Other));
            }
            return Ok(0);
        }
        let Some(first) = buf.first() else {
            return Ok(0);
        };
        match self.bytes.push(*first) {
            Ok(()) => Ok(1),
            Err(_) => Err(io::Error::from(ErrorKind::OutOfMemory)),
        }
    }

    fn flush(&mut self) -> io::Result<()> {
        self.is_passed_on = true;
        Ok(())
    }
}

/// Whether writing a line has this result, and the writer then has these bytes.
fn takes(writer: &mut NarrowWriter, answer: Result<(), LineFault>, bytes: &[u8]) -> bool {
    write_line(writer, b"ok 1\n") == answer && writer.bytes.as_slice() == bytes
}

#[test]
fn a_line_is_written_whole_and_passed_on(rt: HostRuntime) -> Result<(), Fail> {
    let mut writer = NarrowWriter::new(rt.alloc(), 100, true);
    let is_taken = takes(&mut writer, Ok(()), b"ok 1\n") && writer.is_passed_on;
    assert!(rt; is_taken);
    Ok(())
}

#[test]
fn a_writer_that_fails_or_takes_nothing_has_a_beginning(rt: HostRuntime) -> Result<(), Fail> {
    for fails in [true, false] {
        let mut writer = NarrowWriter::new(rt.alloc(), 3, fails);
        assert!(rt; takes(&mut writer, Err(LineFault::Output), b"ok "));
    }
    Ok(())
}

/// Takes everything, and can't flush it.
#[derive(Drop)]
pub struct StuckWriter;

impl Write for StuckWriter {
    fn write(&mut self, buf: &[u8]) -> io::Result<usize> {
        Ok(buf.len())
    }

    fn flush(&mut self) -> io::Result<()> {
        Err(io::Error::from(ErrorKind::Other))
    }
}

#[test]
fn a_line_that_is_not_passed_on_is_a_fault(rt: HostRuntime) -> Result<(), Fail> {
    assert_eq!(rt;
        write_line(&mut StuckWriter, b"ok 1\n"),
        Err(LineFault::Output)
    );
    Ok(())
}

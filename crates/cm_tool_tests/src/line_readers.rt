//! Readers that give their bytes in pieces, are interrupted or fail.

use cm_lines::{Line, LineBuffer, LineFault, read_line};
use std::alloc::Global;
use std::io::{self, BufRead, BufReader, ErrorKind, Read};
use std::test::*;

/// Whether the next lines make these requests.
fn asks<R: BufRead>(reader: &mut R, line: &mut LineBuffer, requests: &[Option<Line<'_>>]) -> bool {
    for request in requests {
        if read_line(reader, line) != Ok(true) || line.request() != *request {
            return false;
        }
    }
    true
}

/// Whether a reader gives lines that make these requests, and then this result.
fn gives<R: BufRead>(
    alloc: Global,
    reader: &mut R,
    requests: &[Option<Line<'_>>],
    end: Result<bool, LineFault>,
) -> bool {
    let mut line = LineBuffer::new(alloc);
    asks(reader, &mut line, requests) && read_line(reader, &mut line) == end
}

/// The requests of the lines that are read in pieces.
const QUESTIONS: [Option<Line<'_>>; 4] = [
    Some(Line::Loader(b"app")),
    None,
    Some(Line::Unload(b"app")),
    Some(Line::Find(b"app", b"A")),
];

#[test]
fn lines_are_read_in_pieces(rt: HostRuntime) -> Result<(), Fail> {
    let script = b"loader app\n\nunload app\nfind app A".as_slice();
    let mut reader = BufReader::with_capacity(rt.alloc(), 3, script)?;
    let are_read = gives(rt.alloc(), &mut reader, &QUESTIONS, Ok(false));
    assert!(rt; are_read);
    Ok(())
}

/// A line of this many bytes that adds a loader, and one after it that unloads another.
fn push_long_script(script: &mut Vec<u8>, len: usize) -> Result<(), Fail> {
    script.extend_from_slice(b"loader ")?;
    script.resize(len, b'a')?;
    script.extend_from_slice(b"\nunload b\n")?;
    Ok(())
}

/// Whether the first line of a script is a request; `None` if its second line doesn't unload a
/// loader, or isn't the last.
fn first_asks(script: &[u8], line: &mut LineBuffer) -> Option<bool> {
    let mut reader = script;
    let is_read = read_line(&mut reader, line) == Ok(true);
    let asks = line.request().is_some();
    let is_next = is_read && read_line(&mut reader, line) == Ok(true);
    let unloads = is_next && line.request() == Some(Line::Unload(b"b"));
    if unloads && read_line(&mut reader, line) == Ok(false) {
        Some(asks)
    } else {
        None
    }
}

/// Whether a line of this many bytes is a request.
fn long_line_asks(alloc: Global, len: usize) -> Result<Option<bool>, Fail> {
    let mut script = Vec::new(alloc);
    push_long_script(&mut script, len)?;
    let mut line = LineBuffer::new(alloc);
    Ok(first_asks(&script, &mut line))
}

#[test]
fn a_line_has_at_most_16777216_bytes(rt: HostRuntime) -> Result<(), Fail> {
    assert_eq!(rt; long_line_asks(rt.alloc(), 16_777_216)?, Some(true));
    assert_eq!(rt; long_line_asks(rt.alloc(), 16_777_217)?, Some(false));
    Ok(())
}

/// Is interrupted each time before it gives its bytes, and fails after them.
#[derive(Drop)]
struct FailingReader<'a> {
    bytes: &'a [u8],
    was_interrupted: bool,
}

impl<'a> Read for FailingReader<'a> {
    fn read(&mut self, _buf: &mut [u8]) -> io::Result<usize> {
        Err(io::Error::from(ErrorKind::Other))
    }
}

impl<'a> BufRead for FailingReader<'a> {
    fn fill_buf(&mut self) -> io::Result<&[u8]> {
        if !self.was_interrupted {
            self.was_interrupted = true;
            return Err(io::Error::from(ErrorKind::Interrupted));
        }
        if self.bytes.is_empty() {
            return Err(io::Error::from(ErrorKind::Other));
        }
        Ok(self.bytes)
    }

    fn consume(&mut self, amount: usize) {
        self.was_interrupted = false;
        if amount <= self.bytes.len() {
            self.bytes = &self.bytes[amount..];
        }
    }
}

#[test]
fn a_reader_that_fails_in_mid_line_gives_no_line(rt: HostRuntime) -> Result<(), Fail> {
    let mut reader = FailingReader {
        bytes: b"loader a\nloader b",
        was_interrupted: false,
    };
    let requests = [Some(Line::Loader(b"a"))];
    assert!(rt; gives(rt.alloc(), &mut reader, &requests, Err(LineFault::Input)));
    Ok(())
}

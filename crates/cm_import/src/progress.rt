//! A line of progress on a terminal.

use std::time::{Clock, Duration, Instant};

/// How long a line stands before it is written again, in milliseconds.
const BETWEEN: u64 = 250;

const MEGABYTE: u64 = 1_000_000;

/// A line that is rewritten on standard error while classes are imported, or none.
#[derive(Clone, Copy, Debug)]
pub struct Progress {
    /// When the import began; `None` if no line is written.
    start: Option<Instant>,
    /// When the line was written last, since the beginning.
    written: Duration,
    /// How many bytes were read of the files, and how many they have.
    read: u64,
    all: u64,
}

impl Progress {
    /// Nothing is read yet of files with this many bytes. A line is only written on a terminal.
    pub fn new(rt: &impl Clock, on_terminal: bool, all: u64) -> Progress {
        let start = if on_terminal {
            Instant::now(rt).ok()
        } else {
            None
        };
        Progress {
            start,
            written: Duration::ZERO,
            read: 0,
            all,
        }
    }

    /// Counts the bytes of a file that was read.
    pub fn add_read(&mut self, bytes: u64) {
        self.read = self.read.saturating_add(bytes);
    }

    /// Writes the line again, if the last one has stood long enough.
    pub fn show(&mut self, rt: &(impl Clock + Eprint), classes: u64) {
        let Some(start) = self.start else {
            return;
        };
        let Ok(passed) = start.elapsed(rt) else {
            return;
        };
        if passed.saturating_sub(self.written) < Duration::from_millis(BETWEEN) {
            return;
        }
        self.written = passed;
        let seconds = passed.as_secs();
        let left = self.all.saturating_sub(self.read) / MEGABYTE;
        let read = self.read / MEGABYTE;
        let _ = eprint!(rt; "\r{classes} classes, {read} MB, {seconds} s, {left} MB left\x1b[K");
    }

    /// Removes the line, so that another one can be written.
    pub fn clear(&self, rt: &impl Eprint) {
        if self.start.is_some() {
            let _ = eprint!(rt; "\r\x1b[K");
        }
    }
}

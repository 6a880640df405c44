//! The line of a script that is being read.

ghost use Rattle.std.specs.Prelude.{◌≡◌, ◌≤◌, ℕ, nat_lt, true, List, [], length, OnOk, vec_len};
ghost use Rattle.cm_lines.specs.Lines.{line_limit};

use crate::line::{Line, parse};
use std::alloc::{AllocError, Global};

/// How many bytes a line may have, without its newline.
pub const LINE_LIMIT: usize = 16_777_216;

/// A line that is read: its bytes, or only that it has more bytes than a line may have. It never
/// keeps more bytes than that.
#[derive(Drop)]
pub struct LineBuffer {
    bytes: Vec<u8>,
    is_long: bool,
    ghost within: { vec_len bytes ≤ line_limit },
}

impl LineBuffer {
    ghost use Rattle.std.specs.Option.{option_map};
    ghost use Rattle.cm_lines.specs.Lines.{asked_by, seen};
    ghost use Rattle.cm_lines.specs.Streams.{HoldsLine, Grows};

    /// A buffer without a line; its memory is allocated as lines are read.
    pub fn new(alloc: Global) -> LineBuffer
        ensures { HoldsLine [] result }
    {
        LineBuffer {
            bytes: Vec::new(alloc),
            is_long: false,
        }
    }

    /// The line's request, if it has one of the known forms and isn't too long.
    pub fn request(&self) -> Option<Line<'_>>
        ensures { (line : List ℕ) → HoldsLine line self.now
            → option_map seen result ≡ asked_by line }
    {
        if self.is_long {
            None
        } else {
            parse(&self.bytes)
        }
    }

    /// Whether both hold the same line, with all of its bytes.
    pub fn is_same_line(&self, other: &LineBuffer) -> bool
        ensures { result ≡ true
            → (line : List ℕ) → HoldsLine line self.now → HoldsLine line other.now }
    {
        !self.is_long && !other.is_long && self.bytes == other.bytes
    }

    pub(crate) fn clear(&mut self)
        ensures { HoldsLine [] self.new }
    {
        self.bytes.clear();
        self.is_long = false;
    }

    /// Whether the line has any bytes.
    pub(crate) fn has_bytes(&self) -> bool
        ensures { (line : List ℕ) → HoldsLine line self.now → result ≡ nat_lt 0 (length line) }
    {
        self.is_long || !self.bytes.is_empty()
    }

    /// Adds bytes of the line. Those of a line that is too long aren't kept.
    pub(crate) fn push(&mut self, bytes: &[u8]) -> Result<(), AllocError>
        ensures { OnOk result (Grows self.old self.new bytes.now) }
    {
        if self.is_long || bytes.len() > LINE_LIMIT || self.bytes.len() > LINE_LIMIT - bytes.len() {
            self.is_long = true;
            return Ok(());
        }
        self.bytes.extend_from_slice(bytes)
    }
}

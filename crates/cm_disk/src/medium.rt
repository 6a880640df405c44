//! The bytes of an in-memory disk, with the unsynced ranges and the lengths that a crash may leave.
ghost use Rattle.std.specs.Prelude.{◌≡◌, ◌≤◌, ◌+◌, ◌^◌, [], ◌∷◌, ◌++◌, length, take, min, max};
ghost use Rattle.std.specs.Prelude.{OnOk, OnErr};
ghost use Rattle.cm_disk.specs.Disk.{IsSound, IsBytes};
ghost use Rattle.cm_disk.specs.Calls.{overwritten};
ghost use Rattle.cm_disk.specs.Moments.{unsynced_of};

use std::alloc::{AllocError, Global};

/// The positions from `start` to before `end`.
#[derive(Clone, Copy, Debug)]
pub struct OpenRange {
    pub start: u64,
    pub end: u64,
}

#[derive(Drop)]
pub struct Medium {
    pub bytes: Vec<u8>,
    /// What was written since the last sync.
    pub ranges: Vec<OpenRange>,
    /// The least length since the last sync.
    pub least: u64,
    /// The greatest length since the last sync.
    pub greatest: u64,
    ghost sound: { IsSound bytes.items (unsynced_of ranges.items least greatest) },
}

/// Overwrites what is there, and may extend past the end.
fn overwrite(bytes: &mut Vec<u8>, at: usize, written: &[u8]) -> Result<(), AllocError>
    requires { at ≤ length bytes.old.items }
    ensures ok { OnOk result (bytes.new.items ≡ overwritten at written.now bytes.old.items) }
    ensures err { OnErr result (bytes.new.items ≡ bytes.old.items) }
{
    let len = bytes.len();
    let room = len - at;
    if written.len() <= room {
        bytes[at..at + written.len()].copy_from_slice(written);
        return Ok(());
    }
    let (inside, beyond) = written.split_at(room);
    bytes.extend_from_slice(beyond)?;
    bytes[at..len].copy_from_slice(inside);
    Ok(())
}

impl Medium {
    pub(crate) fn new(alloc: Global) -> Medium
        ensures bytes { result.bytes.items ≡ [] }
        ensures ranges { result.ranges.items ≡ [] }
        ensures least { result.least ≡ 0 }
        ensures greatest { result.greatest ≡ 0 }
    {
        Medium {
            bytes: Vec::new(alloc),
            ranges: Vec::new(alloc),
            least: 0,
            greatest: 0,
        }
    }

    /// A medium of these bytes, all of them durable.
    pub(crate) fn of_stored_bytes(alloc: Global, bytes: Vec<u8>) -> Medium
        requires { length bytes.items ≤ 2 ^ 40 }
        ensures bytes { result.bytes ≡ bytes }
        ensures ranges { result.ranges.items ≡ [] }
        ensures least { result.least ≡ length bytes.items }
        ensures greatest { result.greatest ≡ length bytes.items }
    {
        let len = bytes.len() as u64;
        Medium {
            bytes,
            ranges: Vec::new(alloc),
            least: len,
            greatest: len,
        }
    }

    /// Adds the range of a write of `count` bytes to the unsynced ones, and allows the length that
    /// it makes.
    pub(crate) fn begin_write(&mut self, at: u64, count: u64) -> Result<(), AllocError>
        requires { at + count ≤ 2 ^ 40 }
        ensures bytes { self.new.bytes.items ≡ self.old.bytes.items }
        ensures least { self.new.least ≡ self.old.least }
        ensures ranges { OnOk result
            (self.new.ranges.items ≡ self.old.ranges.items
            ++ record { start = at; end = at + count } ∷ []) }
        ensures greatest { OnOk result (self.new.greatest ≡ max self.old.greatest (at + count)) }
        ensures ranges_stay { OnErr result (self.new.ranges.items ≡ self.old.ranges.items) }
        ensures greatest_stays { OnErr result (self.new.greatest ≡ self.old.greatest) }
    {
        let end = at + count;
        self.ranges.push(OpenRange { start: at, end })?;
        self.greatest = self.greatest.max(end);
        Ok(())
    }

    /// Writes into a range that was opened before.
    pub(crate) fn write(&mut self, at: u64, written: &[u8]) -> Result<(), AllocError>
        requires starts_within { at ≤ length self.old.bytes.items }
        requires was_opened { at + length written.now ≤ self.old.greatest }
        ensures ok { OnOk result
            (self.new.bytes.items ≡ overwritten at written.now self.old.bytes.items) }
        ensures err { OnErr result (self.new.bytes.items ≡ self.old.bytes.items) }
        ensures ranges { self.new.ranges.items ≡ self.old.ranges.items }
        ensures least { self.new.least ≡ self.old.least }
        ensures greatest { self.new.greatest ≡ self.old.greatest }
    {
        overwrite(&mut self.bytes, at as usize, written)
    }

    /// Allows this length from now on.
    pub(crate) fn begin_cut(&mut self, len: u64)
        requires { len ≤ length self.old.bytes.items }
        ensures bytes { self.new.bytes.items ≡ self.old.bytes.items }
        ensures ranges { self.new.ranges.items ≡ self.old.ranges.items }
        ensures least { self.new.least ≡ min self.old.least len }
        ensures greatest { self.new.greatest ≡ self.old.greatest }
    {
        self.least = self.least.min(len);
    }

    pub(crate) fn cut(&mut self, len: u64)
        requires { self.old.least ≤ len }
        ensures bytes { self.new.bytes.items ≡ take len self.old.bytes.items }
        ensures ranges { self.new.ranges.items ≡ self.old.ranges.items }
        ensures least { self.new.least ≡ self.old.least }
        ensures greatest { self.new.greatest ≡ self.old.greatest }
    {
        self.bytes.truncate(len as usize);
    }

    /// Makes everything durable.
    pub(crate) fn make_durable(&mut self)
        ensures bytes { self.new.bytes.items ≡ self.old.bytes.items }
        ensures ranges { self.new.ranges.items ≡ [] }
        ensures least { self.new.least ≡ length self.old.bytes.items }
        ensures greatest { self.new.greatest ≡ length self.old.bytes.items }
    {
        let len = self.bytes.len() as u64;
        self.ranges.clear();
        self.least = len;
        self.greatest = len;
    }
}

//! What a crash of an in-memory disk leaves.
ghost use Rattle.std.specs.Prelude.{◌≡◌, ◌+◌, ◌<◌, IfOk, get_or};
ghost use Rattle.std.specs.List.{list_any};
ghost use Rattle.cm_disk.specs.Chosen.{is_loose, IsChosen};
ghost use Rattle.cm_disk.specs.Medium.{medium_unsynced};
ghost use Rattle.cm_disk.specs.Moments.{is_in_range};

use crate::medium::Medium;
use std::alloc::{AllocError, Global};

/// What a crash shall leave, of all the lengths and bytes that it may leave.
#[derive(Drop)]
pub struct Choice {
    /// The length in bytes; it is clamped to the possible lengths, from the least to the greatest.
    pub len: u64,
    /// The bytes for the positions that were written since the last sync, or are at or past the
    /// least length, in order. If there are too few, a position keeps its byte, or is 0 if it had
    /// none.
    pub fill: Vec<u8>,
}

fn byte_or(bytes: &[u8], at: usize, other: u8) -> u8
    ensures { result ≡ get_or bytes.now at other }
{
    bytes.get(at).copied().unwrap_or(other)
}

impl Medium {
    fn is_open(&self, at: u64) -> bool
        ensures { result ≡ list_any (is_in_range at) self.now.ranges.items }
    {
        self.ranges
            .iter()
            .any(|range| range.start <= at && at < range.end)
    }

    /// Whether a crash may leave any byte there.
    fn is_loose(&self, at: u64) -> bool
        ensures { result ≡ is_loose (medium_unsynced self.now) at }
    {
        self.is_open(at) || self.least <= at
    }

    /// The bytes that a crash leaves.
    pub(crate) fn image(&self, alloc: Global, choice: &Choice) -> Result<Vec<u8>, AllocError>
        ensures { IfOk result (λ image. IsChosen self.now.bytes.items (medium_unsynced self.now)
            choice.now.len choice.now.fill.items image.items) }
    {
        let len = choice.len.min(self.greatest).max(self.least);
        let mut image = Vec::with_capacity(alloc, len as usize)?;
        let mut filled: usize = 0;
        for at in 0..len {
            let now = byte_or(&self.bytes, at as usize, 0);
            if self.is_loose(at) {
                image.push(byte_or(&choice.fill, filled, now))?;
                filled += 1;
            } else {
                image.push(now)?;
            }
        }
        Ok(image)
    }
}

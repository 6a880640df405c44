//! Reads a device piece by piece through a buffer that is reused.
ghost use Rattle.std.specs.Prelude.{◌≡◌, ◌≤◌, ◌+◌, ◌*◌, ◌^◌, IfOk, OnOk, length, take, max};
ghost use Rattle.cm_words.specs.Words.{Words};

use crate::device::Device;
use crate::fault::ReadError;
use cm_disk::WordRange;
use cm_words::WordBuf;
use std::alloc::{AllocError, Global};

/// The bytes that one call reads.
const PIECE: usize = 65536;

/// A device, and the buffer for a piece of it.
#[derive(Drop)]
pub(crate) struct Pieces<'d, V> {
    device: &'d V,
    piece: Vec<u8>,
    ghost size: { length piece.items ≡ 65536 },
}

// Reads `count` bytes from the place `at` on into the front of the buffer.
fn read_front<V: Device>(
    device: &V,
    piece: &mut Vec<u8>,
    at: u64,
    count: usize,
) -> Result<(), V::Fault>
    requires { count ≤ length piece.old.items }
    ensures { length piece.new.items ≡ length piece.old.items }
{
    device.read(at, &mut piece[..count])
}

impl<'d, V: Device> Pieces<'d, V> {
    pub(crate) fn new(device: &'d V, alloc: Global) -> Result<Pieces<'d, V>, AllocError> {
        let piece = Vec::from_elem(alloc, 0u8, PIECE)?;
        Ok(Pieces { device, piece })
    }

    // Reads `count` bytes from the place `at` on.
    fn read(&mut self, at: u64, count: usize) -> Result<(), ReadError<V::Fault>>
        requires { count ≤ 65536 }
    {
        match read_front(self.device, &mut self.piece, at, count) {
            Ok(()) => Ok(()),
            Err(fault) => Err(ReadError::Device(fault)),
        }
    }

    // The first `count` bytes of the piece that was read last.
    fn front(&self, count: usize) -> &[u8]
        requires { count ≤ 65536 }
        ensures { length result.now ≡ count }
    {
        &self.piece[..count]
    }

    /// Appends the bytes of the device that follow these, until there are `wanted`.
    pub(crate) fn read_up_to(
        &mut self,
        bytes: &mut Vec<u8>,
        wanted: usize,
    ) -> Result<(), ReadError<V::Fault>>
        requires { wanted ≤ 2 ^ 40 }
        ensures begins { OnOk result
            (take (length bytes.old.items) bytes.new.items ≡ bytes.old.items) }
        ensures reached { OnOk result
            (length bytes.new.items ≡ max (length bytes.old.items) wanted) }
    {
        bytes.reserve_exact(wanted.saturating_sub(bytes.len()))?;
        while bytes.len() < wanted {
            let count = (wanted - bytes.len()).min(PIECE);
            self.read(bytes.len() as u64, count)?;
            bytes.extend_from_slice(self.front(count))?;
        }
        Ok(())
    }

    /// The words of a range.
    pub(crate) fn words(
        &mut self,
        alloc: Global,
        range: WordRange,
    ) -> Result<WordBuf, ReadError<V::Fault>>
        requires { range.at + 8 * range.count ≤ 2 ^ 40 }
        ensures { IfOk result (λ w. (length w.words ≡ range.count)
            × (w.capacity ≡ range.count)) }
    {
        let mut words = WordBuf::with_capacity(alloc, range.count)?;
        while words.room() > 0 {
            let count = 8 * words.room().min(PIECE / 8);
            self.read(range.at + 8 * words.len() as u64, count)?;
            words.extend_from_bytes(self.front(count));
        }
        Ok(words)
    }
}

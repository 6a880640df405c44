//! Devices that were opened for use as a disk, and what was read of them.
ghost use Rattle.std.specs.Prelude.{◌≡◌, ◌≤◌, ◌+◌, ◌*◌, ◌^◌, IfOk, length, take, map, min, max};
ghost use Rattle.std.specs.Prelude.{true};
ghost use Rattle.std.specs.List.{All};
ghost use Rattle.cm_device_disk.specs.Runs.{range_of, are_ranges, EndsInLimit, IsFull};

use crate::ahead::WordsAhead;
use crate::device::Device;
use crate::fault::ReadError;
use crate::pieces::Pieces;
use crate::word_run::WordRun;
use cm_disk::WordRange;
use std::alloc::Global;

/// How many bytes of a device are read when it is opened.
const BEGINNING: u64 = 4096;

/// A device that was opened: its length, its first bytes, and ranges of words after these.
#[derive(Drop)]
pub struct OpenedDevice<V> {
    pub(crate) device: V,
    pub(crate) len: u64,
    /// The first 4,096 bytes, or all if it has fewer; [`OpenedDevice::read_on`] reads more.
    pub(crate) beginning: Vec<u8>,
    /// What [`OpenedDevice::read_words`] read.
    pub(crate) runs: Vec<WordRun>,
    ghost is_within_limit: { len ≤ 2 ^ 40 },
    ghost in_order: { are_ranges (length beginning.items) len (map range_of runs.items) ≡ true },
    ghost full: { All IsFull runs.items },
}

impl<V: Device> OpenedDevice<V> {
    /// Opens a device of this length: reads the first 4,096 bytes of it, or all if it has fewer.
    ///
    /// # Errors
    /// [`ReadError::NoMemory`] if memory for the bytes can't be allocated, [`ReadError::Device`] if
    /// the device doesn't read them.
    pub fn of_device(
        alloc: Global,
        device: V,
        len: u64,
    ) -> Result<OpenedDevice<V>, ReadError<V::Fault>>
        requires { len ≤ 2 ^ 40 }
        ensures len { IfOk result (λ d. d.len ≡ len) }
        ensures device { IfOk result (λ d. d.device ≡ device) }
        ensures beginning { IfOk result (λ d. length d.beginning.items ≡ min len 4096) }
    {
        let mut beginning = Vec::from_elem(alloc, 0u8, len.min(BEGINNING) as usize)?;
        if let Err(fault) = device.read(0, &mut beginning) {
            return Err(ReadError::Device(fault));
        }
        Ok(OpenedDevice {
            device,
            len,
            beginning,
            runs: Vec::new(alloc),
        })
    }

    /// How many bytes the device has.
    pub fn len(&self) -> u64
        ensures { result ≡ self.now.len }
    {
        self.len
    }

    /// The first bytes of the device, as many as were read.
    pub fn beginning(&self) -> &[u8]
        ensures { result.now ≡ self.now.beginning.items }
    {
        &self.beginning
    }

    /// Reads more bytes, up to this many or the device's end. Words that were read before are
    /// dropped.
    ///
    /// # Errors
    /// As of [`OpenedDevice::of_device`].
    pub fn read_on(self, alloc: Global, reach: u64) -> Result<OpenedDevice<V>, ReadError<V::Fault>>
        ensures device { IfOk result (λ d. d.device ≡ self.device) }
        ensures len { IfOk result (λ d. d.len ≡ self.len) }
        ensures begins { IfOk result (λ d.
            take (length self.beginning.items) d.beginning.items ≡ self.beginning.items) }
        ensures reached { IfOk result (λ d. length d.beginning.items
            ≡ max (length self.beginning.items) (min reach self.len)) }
    {
        let mut bytes = self.beginning;
        let wanted = reach.min(self.len) as usize;
        Pieces::new(&self.device, alloc)?.read_up_to(&mut bytes, wanted)?;
        Ok(OpenedDevice {
            device: self.device,
            len: self.len,
            beginning: bytes,
            runs: Vec::new(alloc),
        })
    }

    /// Reads the words of these ranges, which lie one after another, after the bytes that were
    /// read. Words that were read before are dropped. If the device doesn't have such ranges,
    /// nothing is read, and nothing is dropped. Words that were read ahead aren't read again.
    ///
    /// # Errors
    /// As of [`OpenedDevice::of_device`].
    pub fn read_words(
        self,
        alloc: Global,
        ranges: &[WordRange],
        ahead: WordsAhead,
    ) -> Result<OpenedDevice<V>, ReadError<V::Fault>>
        ensures device { IfOk result (λ d. d.device ≡ self.device) }
        ensures len { IfOk result (λ d. d.len ≡ self.len) }
        ensures beginning { IfOk result (λ d. d.beginning.items ≡ self.beginning.items) }
        ensures ranges { IfOk result (λ d.
            are_ranges (length self.beginning.items) self.len ranges.now ≡ true
            → map range_of d.runs.items ≡ ranges.now) }
    {
        if !self.are_in_order(ranges) {
            return Ok(self);
        }
        let OpenedDevice {
            device,
            len,
            beginning,
            runs: _,
        } = self;
        let runs = read_runs(&mut Pieces::new(&device, alloc)?, alloc, ranges, ahead)?;
        Ok(OpenedDevice {
            device,
            len,
            beginning,
            runs,
        })
    }

    // Whether the device has these ranges, one after another, after the bytes that were read.
    fn are_in_order(&self, ranges: &[WordRange]) -> bool
        ensures { result
            ≡ are_ranges (length self.now.beginning.items) self.now.len ranges.now }
    {
        let mut from = self.beginning.len() as u64;
        for range in ranges {
            let within = self.len.saturating_sub(range.at) / 8;
            if range.at < from || range.at > self.len || within < range.count as u64 {
                return false;
            }
            from = range.at + 8 * range.count as u64;
        }
        true
    }
}

/// Reads the words of each range.
fn read_runs<V: Device>(
    pieces: &mut Pieces<V>,
    alloc: Global,
    ranges: &[WordRange],
    mut ahead: WordsAhead,
) -> Result<Vec<WordRun>, ReadError<V::Fault>>
    requires { All EndsInLimit ranges.now }
    ensures ranges { IfOk result (λ runs. map range_of runs.items ≡ ranges.now) }
    ensures full { IfOk result (λ runs. All IsFull runs.items) }
{
    let mut runs = Vec::with_capacity(alloc, ranges.len())?;
    for range in ranges {
        let run = read_run(pieces, alloc, *range, &mut ahead)?;
        runs.push(run)?;
    }
    Ok(runs)
}

/// The words of a range, which are read unless they were read ahead.
fn read_run<V: Device>(
    pieces: &mut Pieces<V>,
    alloc: Global,
    range: WordRange,
    ahead: &mut WordsAhead,
) -> Result<WordRun, ReadError<V::Fault>>
    requires { range.at + 8 * range.count ≤ 2 ^ 40 }
    ensures { IfOk result (λ run. (range_of run ≡ range) × IsFull run) }
{
    let words = match ahead.next(range) {
        Some(words) => words,
        None => pieces.words(alloc, range)?,
    };
    Ok(WordRun {
        at: range.at,
        words: Some(words),
    })
}

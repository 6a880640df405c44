//! Words that several threads read from a device, before its disk takes them.
ghost use Rattle.cm_device_disk.specs.Runs.{HaveCount};

use crate::device::Device;
use crate::pieces::Pieces;
use cm_disk::WordRange;
use cm_words::WordBuf;
use std::alloc::{AllocError, Global};
use std::vec::IntoIter;

/// The most bytes that a device has.
const LIMIT: u64 = 1 << 40;

/// The words of a range, once they are read.
#[derive(Drop)]
pub struct RangeWords {
    range: WordRange,
    words: Option<WordBuf>,
    ghost fits: { HaveCount range.count words },
}

impl RangeWords {
    fn new(range: WordRange) -> RangeWords {
        RangeWords { range, words: None }
    }

    /// Reads the words if the range ends within the longest device, and nothing fails.
    fn read<V: Device>(&mut self, pieces: &mut Pieces<V>, alloc: Global) {
        let range = self.range;
        if range.at <= LIMIT && range.count as u64 <= (LIMIT - range.at) / 8 {
            self.words = pieces.words(alloc, range).ok();
        }
    }

    /// The words, if they were read and are those of this range.
    fn into_words(self, range: WordRange) -> Option<WordBuf>
        ensures { HaveCount range.count result }
    {
        if self.range.at == range.at && self.range.count == range.count {
            self.words
        } else {
            None
        }
    }
}

/// Reads the words of these ranges, one after another, with one buffer for all. Those for which a
/// read or an allocation fails are left out.
pub fn read_part<V: Device>(alloc: Global, device: &V, part: &mut [RangeWords]) {
    let Ok(mut pieces) = Pieces::new(device, alloc) else {
        return;
    };
    for words in part.iter_mut() {
        words.read(&mut pieces, alloc);
    }
}

/// Words of ranges, in the order of these, that may be read before
/// [`crate::OpenedDevice::read_words`] asks for them: in parts, by several threads.
#[derive(Drop)]
pub struct WordsAhead {
    ranges: IntoIter<RangeWords>,
}

impl WordsAhead {
    /// No words: all are read once they are asked for.
    pub fn none(alloc: Global) -> WordsAhead {
        WordsAhead::of(Vec::new(alloc))
    }

    /// What was read of these ranges. What is left out is read once it is asked for.
    pub fn of(ranges: Vec<RangeWords>) -> WordsAhead {
        WordsAhead {
            ranges: ranges.into_iter(),
        }
    }

    /// The words of the next range, if they were read and it is this one.
    pub(crate) fn next(&mut self, range: WordRange) -> Option<WordBuf>
        ensures { HaveCount range.count result }
    {
        self.ranges.next()?.into_words(range)
    }
}

/// These ranges, of which nothing is read yet, for [`read_part`].
pub fn unread(alloc: Global, ranges: &[WordRange]) -> Result<Vec<RangeWords>, AllocError> {
    let mut unread = Vec::with_capacity(alloc, ranges.len())?;
    for range in ranges {
        unread.push(RangeWords::new(*range))?;
    }
    Ok(unread)
}

//! A disk that counts its calls.

ghost use Rattle.std.specs.Prelude.{◌≡◌};

use cm_disk::{DeviceFault, Disk, WordRange};
use cm_words::WordBuf;
use std::alloc::{AllocError, Global};

/// The counts of a disk's calls.
#[derive(Clone, Copy, Debug, PartialEq, Eq)]
pub struct Counts {
    pub writes: u64,
    pub bytes: u64,
    pub syncs: u64,
}

/// A disk, and the counts of its calls.
#[derive(Drop)]
pub struct CountedDisk<D: Disk> {
    disk: D,
    counts: Counts,
}

impl<D: Disk> CountedDisk<D> {
    /// The same disk, with nothing counted yet.
    pub fn new(disk: D) -> CountedDisk<D>
        ensures { result.disk ≡ disk }
    {
        CountedDisk {
            disk,
            counts: Counts {
                writes: 0,
                bytes: 0,
                syncs: 0,
            },
        }
    }

    /// The counts of its calls so far.
    pub fn counts(&self) -> Counts {
        self.counts
    }
}

impl<D: Disk> Disk for CountedDisk<D> {
    ghost view = { record {
      contents = λ d. D.view.contents d.disk;
      unsynced = λ d. D.view.unsynced d.disk;
      failures = λ d. D.view.failures d.disk;
      moment = λ d. D.view.moment d.disk;
      left_since = λ d. D.view.left_since d.disk;
    } };

    ghost called = { λ old new ok. D.called old.disk new.disk ok };

    ghost made = { λ call old new ok. D.made call old.disk new.disk ok };

    ghost sound = { λ d. D.sound d.disk };

    ghost counts_now = { λ d. D.counts_now d.disk };

    ghost only_now = { λ d. D.only_now d.disk };

    fn len(&mut self) -> Result<u64, DeviceFault> {
        self.disk.len()
    }

    fn read(&mut self, at: u64, out: &mut [u8]) -> Result<(), DeviceFault> {
        self.disk.read(at, out)
    }

    fn take_words(
        &mut self,
        alloc: Global,
        range: WordRange,
    ) -> Result<Result<WordBuf, AllocError>, DeviceFault> {
        self.disk.take_words(alloc, range)
    }

    fn write_at(&mut self, at: u64, bytes: &[u8]) -> Result<(), DeviceFault> {
        self.counts.writes = self.counts.writes.saturating_add(1);
        self.counts.bytes = self.counts.bytes.saturating_add(bytes.len() as u64);
        self.disk.write_at(at, bytes)
    }

    fn cut(&mut self, len: u64) -> Result<(), DeviceFault> {
        self.disk.cut(len)
    }

    fn sync(&mut self) -> Result<(), DeviceFault> {
        self.counts.syncs = self.counts.syncs.saturating_add(1);
        self.disk.sync()
    }
}

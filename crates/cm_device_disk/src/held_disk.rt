//! The part of a disk that is held in memory, as a disk that is only read.
ghost use Rattle.std.specs.Prelude.{◌≡◌, ◌+◌};

use crate::device::Device;
use crate::disk::DeviceDisk;
use crate::history::{Call, History};
use cm_disk::{DeviceFault, Disk, WordRange};
use cm_words::WordBuf;
use std::alloc::{AllocError, Global};

/// What a disk holds in memory, as a disk of its own: its reads are served from there, and every
/// write, cut or sync fails and changes nothing. So the disk that it is of stays as it is, whatever
/// is done with this one.
#[derive(Drop)]
pub struct HeldDisk<'d, V, F> {
    disk: &'d DeviceDisk<V, F>,
    /// Counts the calls that failed.
    history: History,
}

impl<'d, V: Device<Fault = F>, F: Copy> HeldDisk<'d, V, F> {
    ghost use Rattle.cm_device_disk.specs.HeldDisk.{held_failures};

    /// What this disk holds.
    pub fn of(disk: &'d DeviceDisk<V, F>) -> HeldDisk<'d, V, F>
        ensures disk { result.disk.now ≡ disk.now }
        ensures failures { held_failures result ≡ 0 }
    {
        HeldDisk {
            disk,
            history: History::new(),
        }
    }

    fn refuse(&mut self) -> DeviceFault
        ensures failures { held_failures self.new ≡ held_failures self.old + 1 }
        ensures disk { self.new.disk.now ≡ self.old.disk.now }
    {
        self.history.note(&Call::Failed, &[]);
        DeviceFault
    }
}

impl<V: Device<Fault = F>, F: Copy> Disk for HeldDisk<'_, V, F> {
    ghost use Rattle.cm_device_disk.specs.HeldDisk.{held_view, IsHeldCall, IsHeldMade};

    ghost view = { held_view };

    ghost called = { IsHeldCall };

    ghost made = { IsHeldMade };

    ghost sound = { λ d. d.disk.now.sound };

    ghost counts_now = { λ d t image le now. now };

    ghost only_now = { λ d image left. left };

    fn len(&mut self) -> Result<u64, DeviceFault> {
        match self.disk.known_len() {
            Some(len) => Ok(len),
            None => Err(self.refuse()),
        }
    }

    fn read(&mut self, at: u64, out: &mut [u8]) -> Result<(), DeviceFault> {
        let Some(bytes) = self.disk.held(at, out.len()) else {
            return Err(self.refuse());
        };
        out.copy_from_slice(bytes);
        Ok(())
    }

    fn take_words(
        &mut self,
        alloc: Global,
        range: WordRange,
    ) -> Result<Result<WordBuf, AllocError>, DeviceFault> {
        match self.disk.held(range.at, 8 * range.count) {
            Some(bytes) => Ok(WordBuf::from_bytes(alloc, bytes)),
            None => Err(self.refuse()),
        }
    }

    fn write_at(&mut self, _at: u64, _bytes: &[u8]) -> Result<(), DeviceFault> {
        Err(self.refuse())
    }

    fn cut(&mut self, _len: u64) -> Result<(), DeviceFault> {
        Err(self.refuse())
    }

    fn sync(&mut self) -> Result<(), DeviceFault> {
        Err(self.refuse())
    }
}

//! An in-memory disk that fails from some call on.
ghost use Rattle.std.specs.Prelude.{◌≡◌, ◌-◌};
ghost use Rattle.std.proofs.Common.{inl};
ghost use Rattle.cm_disk.specs.Fuse.{fuse_view, fused_disk, fuse_contents, fuse_unsynced};
ghost use Rattle.cm_disk.specs.Fuse.{fuse_failures};
ghost use Rattle.cm_disk.specs.Fuse.{fuse_moment, fuse_left_since, fuse_pass, fuse_stores};
ghost use Rattle.cm_disk.specs.Fuse.{fuse_armed, fuse_made, IsFuseCall};
ghost use Rattle.cm_disk.specs.Moments.{none_since_now};

use crate::sim::SimDisk;
use crate::{DeviceFault, Disk, WordRange};
use cm_words::WordBuf;
use std::alloc::{AllocError, Global};

/// An in-memory disk with a fuse: it lets a number of calls through, then every call fails. A write
/// that fails stores its first bytes.
#[derive(Drop)]
pub struct FuseDisk {
    disk: SimDisk,
    pass: u64,
    stores: usize,
}

impl FuseDisk {
    /// Lets `pass` calls through to the disk, and fails all calls after them, each of which counts
    /// as a failure. A failing write stores its first `stores` bytes. The first call forgets
    /// whether the disk was armed.
    pub fn new(disk: SimDisk, pass: u64, stores: usize) -> FuseDisk
        ensures disk { fused_disk result ≡ disk }
        ensures pass { fuse_pass result ≡ pass }
        ensures stores { fuse_stores result ≡ stores }
    {
        FuseDisk { disk, pass, stores }
    }

    /// The disk, with everything that happened to it.
    pub fn into_inner(self) -> SimDisk
        ensures { result ≡ fused_disk self }
    {
        self.disk
    }

    /// Accounts for one more call: it is let through, or the disk is armed for it.
    fn burn(&mut self)
        ensures disk { fused_disk self.new
            ≡ record (fused_disk self.old) { armed = fuse_armed self.old } }
        ensures pass { fuse_pass self.new ≡ fuse_pass self.old - 1 }
        ensures stores { fuse_stores self.new ≡ fuse_stores self.old }
    {
        if self.pass == 0 {
            self.disk.arm(self.stores);
        } else {
            self.disk.disarm();
            self.pass -= 1;
        }
    }
}

impl Disk for FuseDisk {
    ghost view = { fuse_view };

    ghost called = { IsFuseCall };

    ghost made = { fuse_made };

    ghost sound = { λ d. d.disk.medium.sound };

    ghost counts_now = { λ d t image le now. inl now };

    ghost only_now = { λ d image left. none_since_now d.disk.history.moments image left };

    fn len(&mut self) -> Result<u64, DeviceFault> {
        self.burn();
        self.disk.len()
    }

    fn read(&mut self, at: u64, out: &mut [u8]) -> Result<(), DeviceFault> {
        self.burn();
        self.disk.read(at, out)
    }

    fn take_words(
        &mut self,
        alloc: Global,
        range: WordRange,
    ) -> Result<Result<WordBuf, AllocError>, DeviceFault> {
        self.burn();
        self.disk.take_words(alloc, range)
    }

    fn write_at(&mut self, at: u64, bytes: &[u8]) -> Result<(), DeviceFault> {
        self.burn();
        self.disk.write_at(at, bytes)
    }

    fn cut(&mut self, len: u64) -> Result<(), DeviceFault> {
        self.burn();
        self.disk.cut(len)
    }

    fn sync(&mut self) -> Result<(), DeviceFault> {
        self.burn();
        self.disk.sync()
    }
}

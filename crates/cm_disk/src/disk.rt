//! The trait of all disks, with the whole disk model in each of its calls.
ghost use Rattle.std.specs.Prelude.{◌≡◌, ◌≤◌, ◌+◌, ◌*◌, ◌^◌, List, ℕ, Bool, length, take, drop};
ghost use Rattle.std.specs.Prelude.{IfOk, OnOk, is_ok};
ghost use Rattle.cm_words.specs.Words.{words_of};
ghost use Rattle.cm_disk.specs.Disk.{View, OnlyNow, IsImage, IsSound};
ghost use Rattle.cm_disk.specs.Calls.{LooksOnce, WritesOnce, CutsOnce, SyncsOnce, DiskCall};
ghost use Rattle.cm_disk.specs.Calls.{words_in};
ghost use Rattle.cm_disk.specs.Calls.DiskCall.{Len, Read, Take, Write, Cut, Sync};

use cm_words::WordBuf;
use std::alloc::{AllocError, Global};
use thiserror::Error;

/// The device failed in this call.
#[derive(Clone, Copy, Debug, PartialEq, Eq, Error)]
#[error("the device failed")]
pub struct DeviceFault;

/// Words among a disk's bytes: `count` of them from the byte `at` on, each of eight bytes with the
/// lowest first.
#[derive(Clone, Copy, Debug, PartialEq, Eq)]
pub struct WordRange {
    pub at: u64,
    pub count: usize,
}

/// A disk: a sequence of bytes that is read, written, cut and synced.
///
/// Until a sync succeeds, a crash may leave any bytes at positions that were written, and any of
/// the lengths that the disk had since the last one. A write covers one range. Places and lengths
/// count bytes, and none exceeds 2^40.
pub trait Disk {
    /// What the disk shows: its bytes, its failures and its moments.
    ghost view: { View Self };

    /// What a kind of disk says about each of its calls in addition: one call leads from the first
    /// disk to the second, and returns `Ok` (true) or not.
    ghost called: { Self → Self → Bool → Type 0 };

    /// What it says in addition about a certain call, such as a write of given bytes to a given
    /// place.
    ghost made: { DiskCall → Self → Self → Bool → Type 0 };

    /// The number of bytes.
    fn len(&mut self) -> Result<u64, DeviceFault>
        ensures len { IfOk result (λ n. n ≡ length (view.contents self.old)) }
        ensures looks { LooksOnce view self.old self.new result }
        ensures called { called self.old self.new (is_ok result) }
        ensures made { made Len self.old self.new (is_ok result) };

    /// Reads as many bytes as `out` takes, from `at` on. After an `Err` the bytes in `out` are
    /// unspecified.
    fn read(&mut self, at: u64, out: &mut [u8]) -> Result<(), DeviceFault>
        requires { at + length out.old ≤ length (view.contents self.old) }
        ensures bytes { OnOk result
            (out.new ≡ take (length out.old) (drop at (view.contents self.old))) }
        ensures looks { LooksOnce view self.old self.new result }
        ensures called { called self.old self.new (is_ok result) }
        ensures made { made (Read at (length out.old)) self.old self.new (is_ok result) };

    /// The words of a range, in a buffer of exactly their size. A disk that holds them in memory
    /// may hand over its own buffer; taking the same range again may then fail.
    ///
    /// The outer `Err` is a failure of the device, the inner one a failed allocation.
    fn take_words(
        &mut self,
        alloc: Global,
        range: WordRange,
    ) -> Result<Result<WordBuf, AllocError>, DeviceFault>
        requires { range.at + 8 * range.count ≤ length (view.contents self.old) }
        ensures words { IfOk result (λ taken. IfOk taken (λ words. words
            ≡ words_of (words_in range.at range.count (view.contents self.old)) range.count)) }
        ensures looks { LooksOnce view self.old self.new result }
        ensures called { called self.old self.new (is_ok result) }
        ensures made { made (Take range.at range.count) self.old self.new (is_ok result) };

    /// Overwrites what is there, and may extend past the end. After an `Err` the range may hold any
    /// bytes, and the length is any from the old one to the one that the write makes.
    fn write_at(&mut self, at: u64, bytes: &[u8]) -> Result<(), DeviceFault>
        requires starts_within { at ≤ length (view.contents self.old) }
        requires within_limit { at + length bytes.now ≤ 2 ^ 40 }
        ensures writes { WritesOnce view at bytes.now self.old self.new result }
        ensures called { called self.old self.new (is_ok result) }
        ensures made { made (Write at bytes.now) self.old self.new (is_ok result) };

    /// Cuts to a length. After an `Err` the length is any from that one to the old one.
    fn cut(&mut self, len: u64) -> Result<(), DeviceFault>
        requires { len ≤ length (view.contents self.old) }
        ensures cuts { CutsOnce view len self.old self.new result }
        ensures called { called self.old self.new (is_ok result) }
        ensures made { made (Cut len) self.old self.new (is_ok result) };

    /// After a successful sync, a crash leaves what a read returns. An `Err` changes nothing.
    fn sync(&mut self) -> Result<(), DeviceFault>
        ensures syncs { SyncsOnce view self.old self.new result }
        ensures called { called self.old self.new (is_ok result) }
        ensures made { made Sync self.old self.new (is_ok result) };

    /// The lengths are consistent, and no disk exceeds the limit.
    ghost sound: { (disk : Self) → IsSound (view.contents disk) (view.unsynced disk) };

    /// This moment counts as one since an earlier one.
    ghost counts_now: { (disk : Self) (t : ℕ) (image : List ℕ) → t ≤ view.moment disk
        → IsImage (view.contents disk) (view.unsynced disk) image → view.left_since disk t image };

    /// Since this moment there is no other moment.
    ghost only_now: { OnlyNow view };
}

//! A disk over a device.
ghost use Rattle.std.specs.Prelude.{◌≡◌, ◌≤◌, ◌+◌, ◌*◌, ◌^◌, ℕ, length, take, drop, IfOk, IfSome};
ghost use Rattle.std.specs.Prelude.{IfErr, is_none, is_ok, is_some, nat_le, not, true, false};
ghost use Rattle.std.specs.Prelude.{◌&&◌, ◌||◌};
ghost use Rattle.std.specs.Prelude.{if◌then◌else◌};
ghost use Rattle.std.specs.List.{All};
ghost use Rattle.std.proofs.Common.{inl};
ghost use Rattle.cm_words.specs.Words.{words_of};
ghost use Rattle.cm_disk.specs.Calls.{words_in};
ghost use Rattle.cm_disk.specs.Moments.{none_since_now};
ghost use Rattle.cm_device_disk.specs.Image.{image_bytes, image_length, image_runs};
ghost use Rattle.cm_device_disk.specs.Runs.{IsOf, InOrder, are_ranges, without};
ghost use Rattle.cm_device_disk.specs.State.{IsSoundState};

use crate::ahead::WordsAhead;
use crate::device::Device;
use crate::fault::ReadError;
use crate::history::{Call, History};
use crate::image::Image;
use crate::opening::OpenedDevice;
use crate::word_run::take_range;
use cm_disk::{DeviceFault, Disk, WordRange};
use cm_words::WordBuf;
use std::alloc::{AllocError, Global};

/// A disk over a device that nothing else writes to.
///
/// Its first bytes, and ranges of words after them, are read once, while it is still an
/// [`OpenedDevice`]. Reads of these bytes are served from memory, and a range of words is handed
/// over when it is taken; every other read fails. Writes and cuts go to the device. The first of
/// these frees the memory, and from then on every read fails.
/// After a failed write, cut or sync every call fails, and none goes to the device, since a file's
/// system may report the next sync as successful although bytes are lost. What the device holds
/// follows the disk's contents as far as it does what it reports.
#[derive(Drop)]
pub struct DeviceDisk<V, F> {
    device: V,
    image: Image<F>,
    history: History,
    ghost sound: { IsSoundState history.state },
    ghost bytes_known: { image_bytes image history.state.now.bytes ≡ history.state.now.bytes },
    ghost words_known: { All (IsOf history.state.now.bytes) (image_runs image) },
    ghost in_order: { InOrder (image_runs image) },
    ghost length_known: { image_length image (length history.state.now.bytes)
        ≡ length history.state.now.bytes },
}

impl<V: Device<Fault = F>, F: Copy> DeviceDisk<V, F> {
    ghost use Rattle.cm_device_disk.specs.DeviceDisk.{disk_contents, is_lost, disk_cause, holds};
    ghost use Rattle.cm_device_disk.specs.DeviceDisk.{held_bytes, held_ranges, has_range};
    ghost use Rattle.cm_device_disk.specs.DeviceDisk.{IsOpenedDisk, IsEmptyDisk, IsSameDisk};

    /// The disk of a device that was opened, with the bytes and words that were read from it. None
    /// of its bytes is known to be durable before the first sync.
    #[tactic(auto, using(crate::proofs::Followed::begun))]
    pub fn of_opened(opened: OpenedDevice<V>) -> DeviceDisk<V, F>
        ensures { IsOpenedDisk opened result }
    {
        let history = History::of_opened(opened.len, &opened.beginning, &opened.runs);
        DeviceDisk {
            device: opened.device,
            image: Image::Read(opened.beginning, opened.runs, opened.len),
            history,
        }
    }

    /// The disk of a device that has no bytes, which is durable.
    pub fn of_empty(alloc: Global, device: V) -> DeviceDisk<V, F>
        ensures { IsEmptyDisk device result }
    {
        DeviceDisk {
            device,
            image: Image::Read(Vec::new(alloc), Vec::new(alloc), 0),
            history: History::new(),
        }
    }

    /// The same disk over another device, which has to hold the same bytes.
    pub fn with_device<W: Device<Fault = F>>(self, device: W) -> DeviceDisk<W, F>
        ensures device { result.device ≡ device }
        ensures same { IsSameDisk self result }
    {
        DeviceDisk {
            device,
            image: self.image,
            history: self.history,
        }
    }

    /// The disk with the words of these ranges, which are read now unless they were read ahead. It
    /// has none of them if something was written or cut, or if the device doesn't have these
    /// ranges, one after another, after the bytes that were read.
    ///
    /// # Errors
    /// As of [`OpenedDevice::read_words`].
    pub fn read_words(
        self,
        alloc: Global,
        ranges: &[WordRange],
        ahead: WordsAhead,
    ) -> Result<DeviceDisk<V, F>, ReadError<F>>
        ensures device { IfOk result (λ d. d.device ≡ self.device) }
        ensures len { IfOk result (λ d. length (disk_contents d) ≡ length (disk_contents self)) }
        ensures begins { IfOk result (λ d. (n : ℕ) → holds self n ≡ true
            → take n (disk_contents d) ≡ take n (disk_contents self)) }
        ensures held { IfOk result (λ d. (n : ℕ) → holds d n ≡ holds self n) }
        ensures bytes { IfOk result (λ d. held_bytes d ≡ held_bytes self) }
        ensures words { IfOk result (λ d. holds self 0 ≡ true
            → are_ranges (held_bytes self) (length (disk_contents self)) ranges.now ≡ true
            → held_ranges d ≡ ranges.now) }
        ensures cause { IfOk result (λ d. disk_cause d ≡ disk_cause self) }
        ensures same { IfOk result (λ d. holds self 0 ≡ false → d ≡ self) }
    {
        match self.into_opened(alloc) {
            Ok(opened) => Ok(DeviceDisk::of_opened(opened.read_words(alloc, ranges, ahead)?)),
            Err(disk) => Ok(disk),
        }
    }

    /// The device, with the first bytes that were read from it; or the disk, once something was
    /// written or cut.
    fn into_opened(self, alloc: Global) -> Result<OpenedDevice<V>, DeviceDisk<V, F>>
        ensures ok { is_ok result ≡ holds self 0 }
        ensures device { IfOk result (λ d. d.device ≡ self.device) }
        ensures len { IfOk result (λ d. d.len ≡ length (disk_contents self)) }
        ensures begins { IfOk result (λ d.
            take (length d.beginning.items) (disk_contents self) ≡ d.beginning.items) }
        ensures held { IfOk result (λ d.
            (n : ℕ) → holds self n ≡ nat_le n (length d.beginning.items)) }
        ensures bytes { IfOk result (λ d. length d.beginning.items ≡ held_bytes self) }
        ensures same { IfErr result (λ d. d ≡ self) }
    {
        let DeviceDisk {
            device,
            image,
            history,
        } = self;
        match image {
            Image::Read(beginning, _, len) => Ok(OpenedDevice {
                device,
                len,
                beginning,
                runs: Vec::new(alloc),
            }),
            image => Err(DeviceDisk {
                device,
                image,
                history,
            }),
        }
    }

    /// The device.
    pub fn device(&self) -> &V
        ensures { result.now ≡ self.now.device }
    {
        &self.device
    }

    /// Why the first write, cut or sync that failed did so; `None` if none has failed.
    pub fn cause(&self) -> Option<F>
        ensures { result ≡ disk_cause self.now }
    {
        match self.image {
            Image::Lost(cause) => Some(cause),
            _ => None,
        }
    }

    /// The number of bytes, unless a write, a cut or a sync has failed.
    pub(crate) fn known_len(&self) -> Option<u64>
        ensures none { is_none result ≡ is_lost self.now }
        ensures some { IfSome result (λ n. n ≡ length (disk_contents self.now)) }
    {
        match &self.image {
            Image::Read(_, _, len) | Image::Length(len) => Some(*len),
            Image::Lost(_) => None,
        }
    }

    /// `count` bytes from a place on, if they are held.
    #[tactic(auto, using(crate::proofs::Followed::part_of_beginning))]
    pub(crate) fn held(&self, at: u64, count: usize) -> Option<&[u8]>
        requires { at + count ≤ length (disk_contents self.now) }
        ensures known { is_some result ≡ holds self.now (at + count) }
        ensures some { IfSome result
            (λ b. b.now ≡ take count (drop at (disk_contents self.now))) }
    {
        let start = at as usize;
        match &self.image {
            Image::Read(bytes, _, _) => bytes.get(start..start + count),
            _ => None,
        }
    }

    /// Takes the words of a range: a copy of the first bytes, or the range that was read as words.
    fn take_held(&mut self, alloc: Global, range: WordRange) -> Option<Result<WordBuf, AllocError>>
        requires { range.at + 8 * range.count ≤ length (disk_contents self.old) }
        ensures words { IfSome result (λ taken. IfOk taken (λ words. words
            ≡ words_of (words_in range.at range.count (disk_contents self.old)) range.count)) }
        ensures exactly { is_some result ≡ (holds self.old (range.at + 8 * range.count)
            || has_range self.old range.at range.count) }
        ensures lost { is_lost self.old ≡ true → is_none result ≡ true }
        ensures ranges { image_runs self.new.image
            ≡ (if is_some result && not (holds self.old (range.at + 8 * range.count))
            then without range.at (image_runs self.old.image) else image_runs self.old.image) }
        ensures state { self.new.history.state ≡ self.old.history.state }
        ensures device { self.new.device ≡ self.old.device }
        ensures held { (n : ℕ) → holds self.new n ≡ holds self.old n }
        ensures cause { disk_cause self.new ≡ disk_cause self.old }
    {
        if let Some(bytes) = self.held(range.at, 8 * range.count) {
            return Some(WordBuf::from_bytes(alloc, bytes));
        }
        match &mut self.image {
            Image::Read(_, runs, _) => Some(Ok(take_range(runs, range)?)),
            _ => None,
        }
    }

    /// A call that fails and changes nothing.
    fn refuse(&mut self) -> DeviceFault
        ensures state { self.new.history.state ≡ record self.old.history.state {
          failures = self.old.history.state.failures + 1;
        } }
        ensures image { self.new.image ≡ self.old.image }
        ensures device { self.new.device ≡ self.old.device }
    {
        self.history.note(&Call::Failed, &[]);
        DeviceFault
    }
}

impl<V: Device<Fault = F>, F: Copy> Disk for DeviceDisk<V, F> {
    ghost use Rattle.cm_device_disk.specs.DeviceDisk.{disk_view, IsMade, IsDeviceCall};

    ghost view = { disk_view };

    ghost called = { IsDeviceCall V.does };

    ghost made = { IsMade V.does };

    ghost sound = { λ d. d.sound };

    ghost counts_now = { λ d t image le now. inl now };

    ghost only_now = { λ d image left. none_since_now d.history.state.moments image left };

    fn len(&mut self) -> Result<u64, DeviceFault> {
        match self.known_len() {
            Some(len) => Ok(len),
            None => Err(self.refuse()),
        }
    }

    fn read(&mut self, at: u64, out: &mut [u8]) -> Result<(), DeviceFault> {
        let Some(bytes) = self.held(at, out.len()) else {
            return Err(self.refuse());
        };
        out.copy_from_slice(bytes);
        Ok(())
    }

    fn take_words(
        &mut self,
        alloc: Global,
        range: WordRange,
    ) -> Result<Result<WordBuf, AllocError>, DeviceFault> {
        match self.take_held(alloc, range) {
            Some(taken) => Ok(taken),
            None => Err(self.refuse()),
        }
    }

    fn write_at(&mut self, at: u64, bytes: &[u8]) -> Result<(), DeviceFault> {
        let Some(len) = self.known_len() else {
            return Err(self.refuse());
        };
        match self.device.write(at, bytes) {
            Ok(()) => {
                self.history.note(&Call::Wrote(at), bytes);
                self.image = Image::Length(len.max(at + bytes.len() as u64));
                Ok(())
            }
            Err(cause) => {
                self.history.note(&Call::NotWritten(at), bytes);
                self.image = Image::Lost(cause);
                Err(DeviceFault)
            }
        }
    }

    fn cut(&mut self, len: u64) -> Result<(), DeviceFault> {
        if self.known_len().is_none() {
            return Err(self.refuse());
        }
        match self.device.cut(len) {
            Ok(()) => {
                self.history.note(&Call::Cut(len), &[]);
                self.image = Image::Length(len);
                Ok(())
            }
            Err(cause) => {
                self.history.note(&Call::NotCut(len), &[]);
                self.image = Image::Lost(cause);
                Err(DeviceFault)
            }
        }
    }

    #[tactic(auto, using(crate::proofs::Noted::synced))]
    fn sync(&mut self) -> Result<(), DeviceFault> {
        if self.known_len().is_none() {
            return Err(self.refuse());
        }
        match self.device.sync() {
            Ok(()) => {
                self.history.note(&Call::Synced, &[]);
                Ok(())
            }
            Err(cause) => {
                self.image = Image::Lost(cause);
                Err(self.refuse())
            }
        }
    }
}

//! An in-memory disk.
ghost use Rattle.std.specs.Prelude.{◌≡◌, ◌≤◌, ◌+◌, ◌^◌, [], length, true, false, Some, None};
ghost use Rattle.std.specs.Prelude.{IfOk, OnOk, OnErr};
ghost use Rattle.std.proofs.Common.{inl};
ghost use Rattle.cm_disk.specs.Calls.{Elapses, IsTorn, overwritten};
ghost use Rattle.cm_disk.specs.Chosen.{IsChosen};
ghost use Rattle.cm_disk.specs.Disk.{IsImage, IsDurable, IsWithin, widened};
ghost use Rattle.cm_disk.specs.Moments.{none_since_now};
ghost use Rattle.cm_disk.specs.Sim.{sim_view, sim_contents, sim_unsynced, sim_failures, sim_moment};
ghost use Rattle.cm_disk.specs.Sim.{sim_left_since, sim_calls, sim_syncs, sim_armed, sim_refused};
ghost use Rattle.cm_disk.specs.Sim.{sim_called, sim_made, IsFresh, stored_part};

use crate::choice::Choice;
use crate::history::History;
use crate::medium::Medium;
use crate::{DeviceFault, Disk, WordRange};
use cm_words::WordBuf;
use std::alloc::{AllocError, Global};

/// An in-memory disk, empty at first. A call fails if the disk was armed for it; a write also fails
/// if memory for its growth can't be allocated. No other call fails.
#[derive(Drop)]
pub struct SimDisk {
    medium: Medium,
    syncs: u64,
    /// The next call is to fail; a write stores this many bytes.
    armed: Option<usize>,
    refused: bool,
    history: History,
    /// The state at each failure.
    failures: History,
    /// The state before each call.
    calls: History,
}

/// The part of its bytes that a write stores.
fn part_to_store(bytes: &[u8], armed: Option<usize>) -> &[u8]
    ensures { result.now ≡ stored_part armed bytes.now }
{
    match armed {
        Some(stores) => &bytes[..stores.min(bytes.len())],
        None => bytes,
    }
}

impl SimDisk {
    /// A disk of no bytes, all of it durable.
    pub fn new(alloc: Global) -> SimDisk
        ensures contents { sim_contents result ≡ [] }
        ensures durable { IsDurable [] (sim_unsynced result) }
        ensures fresh { IsFresh result }
    {
        SimDisk::of_medium(Medium::new(alloc))
    }

    fn of_medium(medium: Medium) -> SimDisk
        ensures medium { result.medium ≡ medium }
        ensures armed { sim_armed result ≡ None }
        ensures refused { sim_refused result ≡ false }
        ensures syncs { sim_syncs result ≡ 0 }
        ensures calls { result.calls.moments ≡ [] }
        ensures failures { result.failures.moments ≡ [] }
        ensures history { result.history.moments ≡ [] }
    {
        SimDisk {
            medium,
            syncs: 0,
            armed: None,
            refused: false,
            history: History::new(),
            failures: History::new(),
            calls: History::new(),
        }
    }

    /// How many syncs have succeeded (2^64 - 1 means that many or more).
    pub fn syncs(&self) -> u64
        ensures { result ≡ sim_syncs self.now }
    {
        self.syncs
    }

    /// Whether the last call failed because an allocation failed.
    pub fn was_refused(&self) -> bool
        ensures { result ≡ sim_refused self.now }
    {
        self.refused
    }

    /// Makes the next call fail; if it is a write, it stores its first `stores` bytes. An earlier
    /// arming that hasn't taken effect is forgotten.
    pub fn arm(&mut self, stores: usize)
        ensures { self.new ≡ record self.old { armed = Some stores } }
    {
        self.armed = Some(stores);
    }

    /// Makes the next call succeed.
    pub fn disarm(&mut self)
        ensures { self.new ≡ record self.old { armed = None } }
    {
        self.armed = None;
    }

    /// The disk that a crash leaves: it holds the chosen image, all of it durable. Nothing has
    /// happened to it yet. On an `Err`, when an allocation failed, the disk is lost.
    pub fn crash(self, alloc: Global, choice: &Choice) -> Result<SimDisk, AllocError>
        ensures chosen { IfOk result (λ disk. IsChosen (sim_contents self) (sim_unsynced self)
            choice.now.len choice.now.fill.items (sim_contents disk)) }
        ensures image { IfOk result (λ disk. IsImage (sim_contents self) (sim_unsynced self)
            (sim_contents disk)) }
        ensures fresh { IfOk result IsFresh }
    {
        let bytes = self.medium.image(alloc, choice)?;
        Ok(SimDisk::of_medium(Medium::of_stored_bytes(alloc, bytes)))
    }

    /// Begins a call: counts it, and takes what was armed, which is for this call alone.
    fn begin_call(&mut self) -> Option<usize>
        ensures armed { result ≡ sim_armed self.old }
        ensures once { sim_calls self.new ≡ sim_calls self.old + 1 }
        ensures rest { self.new ≡ record self.old {
          armed = None;
          refused = false;
          calls = self.new.calls;
        } }
    {
        self.calls.note(&self.medium);
        self.refused = false;
        self.armed.take()
    }

    /// Adds the range of a write of `count` bytes to the unsynced ones, and stores those of the
    /// bytes that are given.
    fn store(&mut self, at: u64, count: u64, stored: &[u8]) -> Result<(), AllocError>
        requires starts_within { at ≤ length (sim_contents self.old) }
        requires within_limit { at + count ≤ 2 ^ 40 }
        requires part { length stored.now ≤ count }
        ensures ok { OnOk result
            (sim_contents self.new ≡ overwritten at stored.now (sim_contents self.old)) }
        ensures err { OnErr result (sim_contents self.new ≡ sim_contents self.old) }
        ensures torn { IsTorn at count (sim_contents self.old) (sim_contents self.new) }
        ensures unsynced { IsWithin (widened at count (sim_unsynced self.old))
            (sim_unsynced self.new) }
        ensures opened { OnOk result (IsWithin (sim_unsynced self.new)
            (widened at count (sim_unsynced self.old))) }
        ensures time { Elapses (sim_moment self.old) (sim_moment self.new)
            (sim_left_since self.old) (sim_left_since self.new)
            (IsImage (sim_contents self.old) (widened at count (sim_unsynced self.old))) }
        ensures failures { self.new.failures ≡ self.old.failures }
        ensures calls { sim_calls self.new ≡ sim_calls self.old }
        ensures syncs { sim_syncs self.new ≡ sim_syncs self.old }
        ensures armed { sim_armed self.new ≡ sim_armed self.old }
        ensures refused { sim_refused self.new ≡ sim_refused self.old }
    {
        self.medium.begin_write(at, count)?;
        self.history.note(&self.medium);
        self.medium.write(at, stored)
    }
}

impl Disk for SimDisk {
    ghost view = { sim_view };

    ghost called = { sim_called };

    ghost made = { sim_made };

    ghost sound = { λ d. d.medium.sound };

    ghost counts_now = { λ d t image le now. inl now };

    ghost only_now = { λ d image left. none_since_now d.history.moments image left };

    fn len(&mut self) -> Result<u64, DeviceFault> {
        if self.begin_call().is_some() {
            self.failures.note(&self.medium);
            return Err(DeviceFault);
        }
        Ok(self.medium.bytes.len() as u64)
    }

    fn read(&mut self, at: u64, out: &mut [u8]) -> Result<(), DeviceFault> {
        if self.begin_call().is_some() {
            self.failures.note(&self.medium);
            return Err(DeviceFault);
        }
        let start = at as usize;
        out.copy_from_slice(&self.medium.bytes[start..start + out.len()]);
        Ok(())
    }

    fn take_words(
        &mut self,
        alloc: Global,
        range: WordRange,
    ) -> Result<Result<WordBuf, AllocError>, DeviceFault> {
        if self.begin_call().is_some() {
            self.failures.note(&self.medium);
            return Err(DeviceFault);
        }
        let start = range.at as usize;
        let bytes = &self.medium.bytes[start..start + 8 * range.count];
        Ok(WordBuf::from_bytes(alloc, bytes))
    }

    fn write_at(&mut self, at: u64, bytes: &[u8]) -> Result<(), DeviceFault> {
        let armed = self.begin_call();
        let Ok(()) = self.store(at, bytes.len() as u64, part_to_store(bytes, armed)) else {
            self.refused = true;
            self.failures.note(&self.medium);
            return Err(DeviceFault);
        };
        if armed.is_some() {
            self.failures.note(&self.medium);
            return Err(DeviceFault);
        }
        Ok(())
    }

    fn cut(&mut self, len: u64) -> Result<(), DeviceFault> {
        let armed = self.begin_call();
        self.medium.begin_cut(len);
        self.history.note(&self.medium);
        if armed.is_some() {
            self.failures.note(&self.medium);
            return Err(DeviceFault);
        }
        self.medium.cut(len);
        Ok(())
    }

    fn sync(&mut self) -> Result<(), DeviceFault> {
        if self.begin_call().is_some() {
            self.failures.note(&self.medium);
            return Err(DeviceFault);
        }
        self.syncs = self.syncs.saturating_add(1);
        self.history.note(&self.medium);
        self.medium.make_durable();
        Ok(())
    }
}

//! The call that was made last.
ghost use Rattle.std.specs.Prelude.{◌≡◌, IfOk, None, option_map};
ghost use Rattle.cm_deferred_disk.specs.Calls.{call_of};

use crate::call::Call;
use cm_device_disk::Device;
use cm_disk::DeviceFault;
use std::alloc::{AllocError, Global};

/// Which call was made, but for the bytes of a write.
#[derive(Clone, Copy, Debug)]
pub enum Kind {
    Write(u64),
    Cut(u64),
    Sync,
}

/// A device that makes no call, and notes the last one that was asked for. It reads nothing.
#[derive(Drop)]
pub struct LastCall {
    kind: Option<Kind>,
    /// The bytes of the last write. The memory is used again for the next one.
    bytes: Vec<u8>,
}

impl LastCall {
    ghost use Rattle.cm_deferred_disk.specs.Last.{noted, room_of};

    /// Nothing is noted yet. A write of at most `room` bytes never fails; a longer one fails if
    /// memory for its bytes can't be allocated.
    ///
    /// # Errors
    /// An allocation of `room` bytes failed.
    pub fn new(alloc: Global, room: usize) -> Result<LastCall, AllocError>
        ensures nothing { IfOk result (λ d. noted d ≡ None) }
        ensures room { IfOk result (λ d. room_of d ≡ room) }
    {
        Ok(LastCall {
            kind: None,
            bytes: Vec::with_capacity(alloc, room)?,
        })
    }

    /// The last call that was asked for and didn't fail.
    pub fn call(&self) -> Option<Call<'_>>
        ensures { option_map call_of result ≡ noted self.now }
    {
        match self.kind {
            Some(Kind::Write(at)) => Some(Call::Write {
                at,
                bytes: &self.bytes,
            }),
            Some(Kind::Cut(len)) => Some(Call::Cut { len }),
            Some(Kind::Sync) => Some(Call::Sync),
            None => None,
        }
    }
}

impl Device for LastCall {
    ghost use Rattle.cm_deferred_disk.specs.Last.{Notes};

    type Fault = DeviceFault;

    ghost does = { Notes };

    fn read(&self, _at: u64, _out: &mut [u8]) -> Result<(), DeviceFault> {
        Err(DeviceFault)
    }

    fn write(&mut self, at: u64, bytes: &[u8]) -> Result<(), DeviceFault> {
        // What is noted has to stay if there is no room for these bytes.
        let more = bytes.len().saturating_sub(self.bytes.len());
        if self.bytes.reserve_exact(more).is_err() {
            return Err(DeviceFault);
        }
        self.bytes.clear();
        match self.bytes.extend_from_slice(bytes) {
            Ok(()) => {
                self.kind = Some(Kind::Write(at));
                Ok(())
            }
            Err(_) => unreachable!(),
        }
    }

    fn cut(&mut self, len: u64) -> Result<(), DeviceFault> {
        self.kind = Some(Kind::Cut(len));
        Ok(())
    }

    fn sync(&mut self) -> Result<(), DeviceFault> {
        self.kind = Some(Kind::Sync);
        Ok(())
    }
}

//! All calls that were made.
ghost use Rattle.std.specs.Prelude.{◌≡◌, ◌++◌, ◌∷◌, [], is_ok, length, if◌then◌else◌, option_map};
ghost use Rattle.std.specs.Prelude.{slice_get};
ghost use Rattle.cm_deferred_disk.specs.Calls.{call_of};

use crate::call::Call;
use cm_device_disk::Device;
use cm_disk::DeviceFault;
use std::alloc::Global;

/// A call with its bytes.
#[derive(Drop)]
pub enum OwnedCall {
    Write(u64, Vec<u8>),
    Cut(u64),
    Sync,
}

/// A device that makes no call, and notes each that was asked for. It reads nothing. A call fails
/// if an allocation for it fails.
#[derive(Drop)]
pub struct ListedCalls {
    alloc: Global,
    calls: Vec<OwnedCall>,
}

impl ListedCalls {
    ghost use Rattle.cm_deferred_disk.specs.Listed.{listed, owned_call};

    /// Nothing is noted yet.
    pub fn new(alloc: Global) -> ListedCalls
        ensures { listed result ≡ [] }
    {
        ListedCalls {
            alloc,
            calls: Vec::new(alloc),
        }
    }

    /// How many calls are noted.
    pub fn len(&self) -> usize
        ensures { result ≡ length (listed self.now) }
    {
        self.calls.len()
    }

    /// The call with this index, in the order in which they were asked for.
    pub fn get(&self, index: usize) -> Option<Call<'_>>
        ensures { option_map call_of result ≡ slice_get (listed self.now) index }
    {
        match self.calls.get(index)? {
            OwnedCall::Write(at, bytes) => Some(Call::Write { at: *at, bytes }),
            OwnedCall::Cut(len) => Some(Call::Cut { len: *len }),
            OwnedCall::Sync => Some(Call::Sync),
        }
    }

    fn list(&mut self, call: OwnedCall) -> Result<(), DeviceFault>
        ensures { listed self.new ≡ (if is_ok result then listed self.old ++ owned_call call ∷ []
            else listed self.old) }
    {
        match self.calls.push(call) {
            Ok(()) => Ok(()),
            Err(_) => Err(DeviceFault),
        }
    }
}

impl Device for ListedCalls {
    ghost use Rattle.cm_deferred_disk.specs.Listed.{Lists};

    type Fault = DeviceFault;

    ghost does = { Lists };

    fn read(&self, _at: u64, _out: &mut [u8]) -> Result<(), DeviceFault> {
        Err(DeviceFault)
    }

    fn write(&mut self, at: u64, bytes: &[u8]) -> Result<(), DeviceFault> {
        match Vec::from_slice(self.alloc, bytes) {
            Ok(bytes) => self.list(OwnedCall::Write(at, bytes)),
            Err(_) => Err(DeviceFault),
        }
    }

    fn cut(&mut self, len: u64) -> Result<(), DeviceFault> {
        self.list(OwnedCall::Cut(len))
    }

    fn sync(&mut self) -> Result<(), DeviceFault> {
        self.list(OwnedCall::Sync)
    }
}

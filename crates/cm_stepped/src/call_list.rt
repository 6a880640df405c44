//! Calls that make a file, or bring it up to date, for a caller that makes them.

ghost use Rattle.std.specs.Prelude.{◌≡◌, ◌+◌, IfOk, IsErr, IsSome, IsNone, true, false, Ok, Err};
ghost use Rattle.std.specs.Prelude.{[], option_map};
ghost use Rattle.cm_device_disk.specs.DeviceDisk.{disk_contents};
ghost use Rattle.cm_deferred_disk.specs.Calls.{call_of};
ghost use Rattle.cm_deferred_disk.specs.Listed.{all_applied, listed};
ghost use Rattle.cm_recover.specs.NewFile.{new_bytes};
ghost use Rattle.cm_stepped.specs.CallList.{next_call, IsUnbegun};

use crate::from_bytes::listed_disk;
use crate::step::Broken;
use cm_deferred_disk::{Call, ListedCalls, ListedDisk};
use cm_device_disk::DeviceDisk;
use cm_pool::Geometry;
use cm_recover::{FormatFault, NotOpened, format, open};
use cm_verdict::OpenFault;
use std::alloc::Global;

/// Device calls that are to be made in order, up to the first that fails.
#[derive(Drop)]
pub struct CallList {
    pub(crate) disk: ListedDisk,
    /// How many of them were made.
    pub(crate) made: usize,
    pub(crate) is_broken: bool,
}

// Why the calls aren't listed: a call that couldn't be listed failed for want of memory.
fn listing_fault(not_opened: &NotOpened<ListedDisk>) -> OpenFault {
    match not_opened.disk.cause() {
        Some(_) => OpenFault::NoMemory,
        None => not_opened.fault,
    }
}

impl CallList {
    /// The calls that make an empty cache of these sizes in a file of no bytes.
    ///
    /// # Errors
    /// As of [`format`]; a disk of no bytes isn't `NotEmpty`.
    pub fn format(alloc: Global, geometry: Geometry) -> Result<CallList, FormatFault>
        ensures unbegun { IfOk result IsUnbegun }
        ensures bytes { IfOk result (λ l. disk_contents l.disk ≡ new_bytes geometry) }
        ensures calls { IfOk result
            (λ l. all_applied (listed l.disk.device) [] ≡ new_bytes geometry) }
    {
        let mut disk = DeviceDisk::of_empty(alloc, ListedCalls::new(alloc));
        format(alloc, &mut disk, geometry)?;
        if disk.cause().is_some() {
            return Err(FormatFault::Device); // a call that can't be listed fails
        }
        Ok(CallList {
            disk,
            made: 0,
            is_broken: false,
        })
    }

    /// The calls that bring a file of version 1, with these bytes, to the version that is written
    /// now. A crash between any of them, or in one, leaves a file with the same loaders and
    /// classes. A file that is up to date is synced alone.
    ///
    /// # Errors
    /// As of [`open`], with `NoMemory` if a call can't be listed.
    pub fn upgrade(alloc: Global, bytes: &[u8]) -> Result<CallList, OpenFault>
        ensures { IfOk result IsUnbegun }
    {
        let disk = listed_disk(alloc, bytes)?;
        match open(alloc, disk) {
            Ok((_front, committer)) => Ok(CallList {
                disk: committer.into_disk(),
                made: 0,
                is_broken: false,
            }),
            Err(not_opened) => Err(listing_fault(&not_opened)),
        }
    }

    /// The call that is to be made now; `None` if all were made, or one wasn't.
    pub fn call(&self) -> Option<Call<'_>>
        ensures { option_map call_of result ≡ next_call self.now }
    {
        if self.is_broken {
            return None;
        }
        self.disk.device().get(self.made)
    }

    /// The next step, which is told whether the call that was to be made was made.
    ///
    /// # Errors
    /// [`Broken`] if a call wasn't made, now or before: no further call is to be made.
    pub fn step(&mut self, made: bool) -> Result<(), Broken>
        ensures broken { self.old.is_broken ≡ true
            → IsErr result × (self.new ≡ self.old) }
        ensures lost { IsSome (next_call self.old) → made ≡ false
            → IsErr result × (self.new ≡ record self.old { is_broken = true }) }
        ensures made { IsSome (next_call self.old) → made ≡ true
            → (result ≡ Ok tt) × (self.new ≡ record self.old { made = self.old.made + 1 }) }
        ensures done { self.old.is_broken ≡ false → IsNone (next_call self.old)
            → (result ≡ Ok tt) × (self.new ≡ self.old) }
    {
        if self.is_broken {
            return Err(Broken);
        }
        if self.call().is_none() {
            return Ok(());
        }
        if !made {
            self.is_broken = true;
            return Err(Broken);
        }
        self.made += 1;
        Ok(())
    }
}

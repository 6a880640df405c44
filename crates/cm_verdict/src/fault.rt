//! What is wrong with a file, and why it isn't opened.

ghost use Rattle.std.specs.Prelude.{◌≡◌, Some};
ghost use Rattle.cm_verdict.specs.declared.fault.OpenFault.TheVariants as open_fault;
ghost use Rattle.cm_verdict.specs.Faults.{damage_number};
ghost use Rattle.cm_verdict.specs.Texts.{file_fault_text, open_fault_text};

use cm_disk::DeviceFault;
use std::alloc::{AllocError, AllocFailed};
use std::error::Error;
use std::fmt::{self, Display, Formatter};

/// What is damaged in a region file.
#[derive(Clone, Copy, Debug, PartialEq, Eq)]
pub enum Damage {
    /// The superblock is of another version, has a size outside its limits, or has another byte
    /// that should be 0.
    Superblock,
    /// The file ends before its halves do.
    Length,
    /// No half is open, or both are, with the same epoch.
    Halves,
    /// The head of an open half, or that of a group, isn't good.
    Head,
    /// A slot spells no entry, or a live row is neither a loader nor a class.
    Slot,
    /// A rule on loaders, names, numbers or how many rows there are is broken.
    Rows,
    /// A rule on chunks, offsets or sizes is broken, or a record lies after the file's last whole
    /// root.
    Chunks,
    /// The words of a record belong to no class that keeps the class rules.
    Record,
    /// A loader has two classes of one name.
    ClassTwice,
}

impl Damage {
    /// Its number, from 1 to 9. Of two damages at one slot, the one with the lower number is
    /// reported.
    pub fn number(self) -> u8
        ensures { result ≡ damage_number self }
    {
        match self {
            Damage::Superblock => 1,
            Damage::Length => 2,
            Damage::Halves => 3,
            Damage::Head => 4,
            Damage::Slot => 5,
            Damage::Rows => 6,
            Damage::Chunks => 7,
            Damage::Record => 8,
            Damage::ClassTwice => 9,
        }
    }
}

/// Why a file stands for no cache.
#[derive(Clone, Copy, Debug, PartialEq, Eq)]
pub enum FileFault {
    /// It is shorter than a superblock, or its first bytes or its superblock's gate differ from
    /// those of a cache.
    NotACache,
    /// The first damage, with the slot where it was found: slots are counted over both halves, and
    /// a record's slot is that of the entry that defined its class. The slot is 0 if the damage is
    /// at no slot.
    Damaged { what: Damage, slot: u32 },
}

impl Display for FileFault {
    ghost output = { λ fault. Some (file_fault_text fault) };

    fn fmt<W: fmt::Write>(&self, f: &mut Formatter<W>) -> fmt::Result {
        match self {
            FileFault::NotACache => write!(f, "not a cache"),
            FileFault::Damaged { what, slot } => {
                let number = what.number();
                write!(f, "damaged {number} {slot}")
            }
        }
    }
}

impl Error for FileFault {}

/// Why a file isn't opened. What the file stands for is unchanged.
#[derive(Clone, Copy, Debug, PartialEq, Eq)]
pub enum OpenFault {
    /// It stands for no cache.
    File(FileFault),
    /// The device failed.
    Device,
    /// An allocation failed.
    NoMemory,
}

impl Display for OpenFault {
    ghost output = { λ fault. Some (open_fault_text fault) };

    fn fmt<W: fmt::Write>(&self, f: &mut Formatter<W>) -> fmt::Result {
        match self {
            OpenFault::File(fault) => fault.fmt(f),
            OpenFault::Device => write!(f, "device"),
            OpenFault::NoMemory => write!(f, "memory"),
        }
    }
}

impl Error for OpenFault {}

impl From<FileFault> for OpenFault {
    ghost from_gives = { λ fault e. e ≡ open_fault.File fault };

    fn from(fault: FileFault) -> OpenFault {
        OpenFault::File(fault)
    }
}

impl From<DeviceFault> for OpenFault {
    ghost from_gives = { λ _ e. e ≡ open_fault.Device };

    fn from(_fault: DeviceFault) -> OpenFault {
        OpenFault::Device
    }
}

impl From<AllocError> for OpenFault {
    ghost from_gives = { λ _ e. e ≡ open_fault.NoMemory };

    fn from(_error: AllocError) -> OpenFault {
        OpenFault::NoMemory
    }
}

impl<T: Drop> From<AllocFailed<T>> for OpenFault {
    ghost from_gives = { λ _ e. e ≡ open_fault.NoMemory };

    fn from(_error: AllocFailed<T>) -> OpenFault {
        OpenFault::NoMemory
    }
}

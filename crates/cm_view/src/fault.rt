//! Why a file isn't viewed, and why a class isn't found.

ghost use Rattle.std.specs.Prelude.{◌≡◌};
ghost use Rattle.cm_view.specs.declared.fault.ViewFault.TheVariants as view_fault;

use cm_verdict::FileFault;
use std::alloc::{AllocError, AllocFailed};
use std::error::Error;
use std::fmt::{self, Display, Formatter};

/// Why there is no view of a file's bytes.
#[derive(Clone, Copy, Debug, PartialEq, Eq)]
pub enum ViewFault {
    /// The first damage that is found without records, or it is no cache.
    File(FileFault),
    /// The record of the class that the entry in this slot defined isn't in a root that the file
    /// holds as a whole.
    CutOff { slot: u32 },
    /// That record shows no name, so its class doesn't keep the class rules.
    NoName { slot: u32 },
    /// That record shows the name of another class of its loader.
    SameName { slot: u32 },
    /// An allocation failed.
    NoMemory,
}

impl Display for ViewFault {
    fn fmt<W: fmt::Write>(&self, f: &mut Formatter<W>) -> fmt::Result {
        match self {
            ViewFault::File(fault) => fault.fmt(f),
            ViewFault::CutOff { slot } => write!(f, "cut off {slot}"),
            ViewFault::NoName { slot } => write!(f, "no name {slot}"),
            ViewFault::SameName { slot } => write!(f, "same name {slot}"),
            ViewFault::NoMemory => write!(f, "memory"),
        }
    }
}

impl Error for ViewFault {}

impl From<AllocError> for ViewFault {
    ghost from_gives = { λ _ e. e ≡ view_fault.NoMemory };

    fn from(_error: AllocError) -> ViewFault {
        ViewFault::NoMemory
    }
}

impl<T: Drop> From<AllocFailed<T>> for ViewFault {
    ghost from_gives = { λ _ e. e ≡ view_fault.NoMemory };

    fn from(_error: AllocFailed<T>) -> ViewFault {
        ViewFault::NoMemory
    }
}

/// Why it isn't known whether there is a class, or what it is.
#[derive(Clone, Copy, Debug, PartialEq, Eq)]
pub enum FindFault {
    /// The record that shows the name is damaged. The slot is that of the entry that defined it.
    Damaged { slot: u32 },
    /// An allocation failed.
    NoMemory,
}

impl Display for FindFault {
    fn fmt<W: fmt::Write>(&self, f: &mut Formatter<W>) -> fmt::Result {
        match self {
            FindFault::Damaged { slot } => write!(f, "damaged record {slot}"),
            FindFault::NoMemory => write!(f, "memory"),
        }
    }
}

impl Error for FindFault {}

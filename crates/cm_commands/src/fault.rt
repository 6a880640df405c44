//! Why bytes can't be prepared as a class.

ghost use Rattle.std.specs.Prelude.{◌≡◌, Some};
ghost use Rattle.cm_commands.specs.Prepare.{fault_for, refusal_for};
ghost use Rattle.cm_commands.specs.Texts.{refusal_text};
ghost use Rattle.cm_commands.specs.declared.fault.PrepareFault.TheVariants.{NoMemory};

use crate::refusal::Refusal;
use cm_rules::{BadClass, ClassFault};
use std::alloc::AllocError;
use std::error::Error;
use std::fmt::{self, Display, Formatter};

/// Why bytes can't be prepared as a class, with the text of the refusal that reports it.
#[derive(Clone, Copy, Debug, PartialEq, Eq)]
pub enum PrepareFault {
    /// The bytes are no class that keeps the rules.
    BadClass(BadClass),
    /// The record is longer than the limit.
    RecordTooLong,
    /// An allocation failed.
    NoMemory,
}

impl Display for PrepareFault {
    ghost output = { λ fault. Some (refusal_text (refusal_for fault)) };

    fn fmt<W: fmt::Write>(&self, f: &mut Formatter<W>) -> fmt::Result {
        let refusal = Refusal::from(*self);
        write!(f, "{refusal}")
    }
}

impl Error for PrepareFault {}

impl From<PrepareFault> for Refusal {
    ghost from_gives = { λ fault refusal. refusal ≡ refusal_for fault };

    fn from(fault: PrepareFault) -> Refusal {
        match fault {
            PrepareFault::BadClass(bad) => Refusal::BadClass(bad),
            PrepareFault::RecordTooLong => Refusal::RecordTooLong,
            PrepareFault::NoMemory => Refusal::NoMemory,
        }
    }
}

impl From<ClassFault> for PrepareFault {
    ghost from_gives = { λ fault e. e ≡ fault_for fault };

    fn from(fault: ClassFault) -> PrepareFault {
        match fault {
            ClassFault::Bad(bad) => PrepareFault::BadClass(bad),
            ClassFault::NoMemory => PrepareFault::NoMemory,
        }
    }
}

impl From<AllocError> for PrepareFault {
    ghost from_gives = { λ _ e. e ≡ NoMemory };

    fn from(_error: AllocError) -> PrepareFault {
        PrepareFault::NoMemory
    }
}

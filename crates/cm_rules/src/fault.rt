//! Why no class is read.

ghost use Rattle.std.specs.Prelude.{◌≡◌, Some};
ghost use Rattle.cm_rules.specs.declared.fault.ClassFault.TheVariants.{NoMemory};
ghost use Rattle.cm_rules.specs.Answer.{class_fault_of};
ghost use Rattle.cm_rules.specs.Texts.{bad_class_text};

use crate::rule::Broken;
use cm_class::ShapeFault;
use std::alloc::AllocError;
use std::error::Error;
use std::fmt::{self, Display, Formatter};

/// What is wrong with bytes that are no class which keeps the rules. Places are byte offsets from
/// 0.
#[derive(Clone, Copy, Debug, PartialEq, Eq)]
pub enum BadClass {
    /// The bytes are a proper beginning of a class file.
    Truncated,
    /// A class file of this length is a proper beginning of the bytes.
    Trailing(usize),
    /// Neither: class files begin with this many of the bytes, and none with one more.
    Malformed(usize),
    /// The bytes are a class file, and this is the first rule that it breaks, with the first spot
    /// at which it does.
    Rule(Broken),
}

impl Display for BadClass {
    ghost output = { λ bad. Some (bad_class_text bad) };

    fn fmt<W: fmt::Write>(&self, f: &mut Formatter<W>) -> fmt::Result {
        match self {
            BadClass::Truncated => write!(f, "truncated"),
            BadClass::Trailing(at) => write!(f, "trailing {at}"),
            BadClass::Malformed(at) => write!(f, "malformed {at}"),
            BadClass::Rule(broken) => write!(f, "{broken}"),
        }
    }
}

impl Error for BadClass {}

/// Why no class is read from bytes.
#[derive(Clone, Copy, Debug, PartialEq, Eq, thiserror::Error)]
pub enum ClassFault {
    /// The bytes are no class that keeps the rules.
    #[error("{0}")]
    Bad(BadClass),
    /// An allocation failed.
    #[error("memory")]
    NoMemory,
}

impl From<ShapeFault> for ClassFault {
    ghost from_gives = { λ fault e. e ≡ class_fault_of fault };

    fn from(fault: ShapeFault) -> ClassFault {
        match fault {
            ShapeFault::Truncated => ClassFault::Bad(BadClass::Truncated),
            ShapeFault::Trailing(at) => ClassFault::Bad(BadClass::Trailing(at)),
            ShapeFault::Malformed(at) => ClassFault::Bad(BadClass::Malformed(at)),
            ShapeFault::NoMemory => ClassFault::NoMemory,
        }
    }
}

impl From<AllocError> for ClassFault {
    ghost from_gives = { λ _ e. e ≡ NoMemory };

    fn from(_error: AllocError) -> ClassFault {
        ClassFault::NoMemory
    }
}

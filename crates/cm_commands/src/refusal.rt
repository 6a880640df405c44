//! Why a command is refused.

ghost use Rattle.std.specs.Prelude.{◌≡◌, Some};
ghost use Rattle.cm_commands.specs.Refusals.{refusal_number};
ghost use Rattle.cm_commands.specs.Texts.{refusal_text};
ghost use Rattle.cm_commands.specs.declared.refusal.Refusal.TheVariants.{NoMemory};

use cm_rules::BadClass;
use std::alloc::AllocError;
use std::error::Error;
use std::fmt::{self, Display, Formatter};

/// Why a command isn't done. `Display` gives the text of a reply: for an unsure command the whole
/// reply, otherwise what follows `refused N`.
#[derive(Clone, Copy, Debug, PartialEq, Eq)]
pub enum Refusal {
    /// A loader's name isn't 1 to 96 bytes, each 0x21 to 0x7E (printable ASCII).
    BadName,
    /// The name is taken.
    LoaderExists,
    /// There is no such loader.
    NoLoader,
    /// The loader has a class of that name.
    ClassExists,
    /// The record is longer than a root, or than the limit.
    RecordTooLong,
    /// No chunk is free that holds the record, and all roots are present.
    RegionFull,
    /// The journal has no room for what would then be live.
    JournalFull,
    /// The records on the loader's last chunk have no smaller chunk to move to, and none that lies
    /// before it.
    NoMove,
    /// An allocation failed.
    NoMemory,
    /// The device failed earlier.
    Broken,
    /// The cache was closed.
    Closed,
    /// There is no next number.
    NumbersSpent,
    /// The device failed before the receipt of the command of this number: it may be there once the
    /// file is opened again.
    Unsure(u64),
    /// The bytes are no class that keeps the rules.
    BadClass(BadClass),
    /// A line of a script has none of the known forms.
    BadLine,
    /// There is no name, there are more than seven, or one appears twice.
    BadList,
}

impl Display for Refusal {
    ghost output = { λ refusal. Some (refusal_text refusal) };

    fn fmt<W: fmt::Write>(&self, f: &mut Formatter<W>) -> fmt::Result {
        match self {
            Refusal::BadName => write!(f, "name"),
            Refusal::LoaderExists => write!(f, "loader exists"),
            Refusal::NoLoader => write!(f, "no loader"),
            Refusal::ClassExists => write!(f, "class exists"),
            Refusal::RecordTooLong => write!(f, "record too long"),
            Refusal::RegionFull => write!(f, "region full"),
            Refusal::JournalFull => write!(f, "journal full"),
            Refusal::NoMove => write!(f, "no move"),
            Refusal::NoMemory => write!(f, "memory"),
            Refusal::Broken => write!(f, "broken"),
            Refusal::Closed => write!(f, "closed"),
            Refusal::NumbersSpent => write!(f, "numbers spent"),
            Refusal::Unsure(number) => write!(f, "unsure {number}"),
            Refusal::BadClass(bad) => write!(f, "{bad}"),
            Refusal::BadLine => write!(f, "line"),
            Refusal::BadList => write!(f, "list"),
        }
    }
}

impl Error for Refusal {}

impl Refusal {
    /// The number in a reply.
    pub fn number(&self) -> u8
        ensures { result ≡ refusal_number self.now }
    {
        match self {
            Refusal::BadName => 1,
            Refusal::LoaderExists => 2,
            Refusal::NoLoader => 3,
            Refusal::ClassExists => 4,
            Refusal::RecordTooLong => 5,
            Refusal::RegionFull => 6,
            Refusal::JournalFull => 7,
            Refusal::NoMove => 8,
            Refusal::NoMemory => 9,
            Refusal::Broken => 10,
            Refusal::Closed => 11,
            Refusal::NumbersSpent => 12,
            Refusal::Unsure(_) => 13,
            Refusal::BadClass(_) => 14,
            Refusal::BadLine => 15,
            Refusal::BadList => 16,
        }
    }
}

impl From<AllocError> for Refusal {
    ghost from_gives = { λ _ e. e ≡ NoMemory };

    fn from(_error: AllocError) -> Refusal {
        Refusal::NoMemory
    }
}

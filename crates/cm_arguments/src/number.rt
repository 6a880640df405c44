//! The numbers that a command line may give.

ghost use Rattle.std.specs.Prelude.{◌≡◌};
ghost use Rattle.cm_arguments.specs.Action.{usual_sizes};

use clap::{Arg, ArgAction, value_parser};
use cm_pool::{Geometry, LEAST_ROOTS, LEAST_SLOTS, LEAST_TOP, MOST_ROOTS, MOST_SLOTS, MOST_TOP};
use std::alloc::Global;

/// A whole number that a command line may give by an option.
#[derive(Clone, Copy, Debug)]
pub struct Number {
    /// The option's name.
    pub name: &'static str,
    /// Its value if it isn't given.
    pub usual: u32,
    /// The same value as a text.
    text: &'static str,
    /// Its limits.
    pub least: u32,
    pub most: u32,
    help: &'static str,
}

macro_rules! number {
    ($name:literal, $usual:literal, $least:expr, $most:expr, $help:literal) => {
        Number {
            name: $name,
            usual: $usual,
            text: stringify!($usual),
            least: $least,
            most: $most,
            help: $help,
        }
    };
}

/// The order of a root.
pub const TOP: Number = number!(
    "top",
    8,
    LEAST_TOP,
    MOST_TOP,
    "The order of a root: it has 128 * 2^N words"
);

/// How many roots there may be.
pub const ROOTS: Number = number!(
    "roots",
    64,
    LEAST_ROOTS,
    MOST_ROOTS,
    "The most roots that the cache may have"
);

/// How many slots each half of the journal has.
pub const SLOTS: Number = number!(
    "slots",
    4096,
    LEAST_SLOTS,
    MOST_SLOTS,
    "The slots in each half of the journal"
);

/// How many threads prepare the classes of a script.
pub(crate) const WORKERS: Number = number!(
    "workers",
    1,
    1,
    16,
    "The threads that prepare the classes of the script"
);

impl Number {
    /// The option, as `clap` reads it.
    pub fn arg<'a>(self, alloc: Global) -> Arg<'a> {
        Arg::new(alloc, self.name)
            .long(self.name)
            .value_name("N")
            .help(self.help)
            .action(ArgAction::Set)
            .default_value(self.text)
            .value_parser(value_parser!(u32).range(i64::from(self.least)..=i64::from(self.most)))
    }
}

/// The sizes of a cache if no others are given.
pub fn usual_geometry() -> Geometry
    ensures { result ≡ usual_sizes }
{
    Geometry::new(TOP.usual, ROOTS.usual, SLOTS.usual).unwrap()
}

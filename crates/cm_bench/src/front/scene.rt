//! What a cache is filled with.

use crate::front::classes::Size;
use crate::front::names::Naming;

/// How classes are spread over loaders.
#[derive(Clone, Copy, Debug, PartialEq, Eq)]
pub enum Spread {
    /// All of them are in one.
    OneLoader,
    /// Each loader has thirty.
    Thirties,
}

/// Classes of one kind.
#[derive(Clone, Copy, Debug, PartialEq, Eq)]
pub struct Scene {
    pub spread: Spread,
    pub naming: Naming,
    pub size: Size,
}

impl Spread {
    /// Its name in the output.
    pub fn name(self) -> &'static str {
        match self {
            Spread::OneLoader => "one loader",
            Spread::Thirties => "loaders of 30",
        }
    }

    /// How many loaders there are for this many classes.
    pub fn loaders(self, classes: u32) -> u32 {
        match self {
            Spread::OneLoader => 1,
            Spread::Thirties => (classes / 30).max(1),
        }
    }
}

impl Scene {
    /// The scenes in the order in which they are run.
    pub const ALL: [Scene; 6] = [
        Scene {
            spread: Spread::OneLoader,
            naming: Naming::Short,
            size: Size::Small,
        },
        Scene {
            spread: Spread::OneLoader,
            naming: Naming::Short,
            size: Size::Ordinary,
        },
        Scene {
            spread: Spread::OneLoader,
            naming: Naming::Long,
            size: Size::Small,
        },
        Scene {
            spread: Spread::OneLoader,
            naming: Naming::LongMeeting,
            size: Size::Small,
        },
        Scene {
            spread: Spread::Thirties,
            naming: Naming::Short,
            size: Size::Small,
        },
        Scene {
            spread: Spread::Thirties,
            naming: Naming::Meeting,
            size: Size::Small,
        },
    ];
}

/// How many classes a cache has.
pub const COUNTS: [u32; 2] = [1_000, 30_000];

//! The numbers of 16 and of 32 bits in a word.
ghost use Rattle.std.specs.Prelude.{◌≡◌};
ghost use Rattle.cm_record_layout.specs.Packing.{first_of, second_of, third_of, fourth_of};
ghost use Rattle.cm_record_layout.specs.Packing.{upper_of};

use crate::packing::{FOURTH, SECOND, THIRD};

/// The first number of 16 bits in a word, the lowest.
pub fn first(word: u64) -> u16
    ensures { result ≡ first_of word }
{
    (word % SECOND) as u16
}

/// The second number of 16 bits in a word.
pub fn second(word: u64) -> u16
    ensures { result ≡ second_of word }
{
    (word / SECOND % SECOND) as u16
}

/// The third number of 16 bits in a word.
pub fn third(word: u64) -> u16
    ensures { result ≡ third_of word }
{
    (word / THIRD % SECOND) as u16
}

/// The fourth number of 16 bits in a word.
pub fn fourth(word: u64) -> u16
    ensures { result ≡ fourth_of word }
{
    (word / FOURTH % SECOND) as u16
}

/// The upper 32 bits of a word.
pub fn upper(word: u64) -> u32
    ensures { result ≡ upper_of word }
{
    (word / THIRD % THIRD) as u32
}

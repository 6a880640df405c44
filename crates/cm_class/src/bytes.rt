ghost use Rattle.std.specs.Prelude.{◌≡◌};

use std::marker::Model;

/// Bytes of a class file, borrowed in place: those of a Utf8, or the content of an attribute.
/// Contracts see their list.
#[derive(Debug, Drop)]
pub struct Bytes<'a> {
    slice: &'a [u8],
}

impl<'a> Model for Bytes<'a> {
    ghost use Rattle.std.specs.Prelude.{List, ℕ};

    ghost Value = { List ℕ };

    ghost view = { λ b. b.slice.now };
}

impl<'a> Bytes<'a> {
    /// These bytes.
    pub fn of(slice: &'a [u8]) -> Bytes<'a>
        ensures { result ≡ slice.now }
    {
        Bytes { slice }
    }

    /// The bytes, to read.
    pub fn as_slice(&self) -> &'a [u8]
        ensures { result.now ≡ self.now }
    {
        self.slice
    }
}

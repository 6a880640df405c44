//! A short name in the value itself.

ghost use Rattle.std.specs.Prelude.{◌≡◌, ◌≤◌, ◌<◌, [], length};

use std::marker::Model;

/// How long a name may be.
const MOST: usize = 87;

/// A name of at most 87 bytes, or nothing. Contracts describe it by its bytes.
///
/// Its length comes before its bytes, so that reading a name of a few letters fetches one cache
/// line.
#[derive(Debug, Drop)]
pub(crate) struct ShortName {
    len: u8,
    bytes: [u8; MOST],
}

impl Model for ShortName {
    ghost use Rattle.std.specs.Prelude.{List, ℕ, ◌≤◌, take};

    ghost Value = { List ℕ };

    ghost view = { λ n. take n.len n.bytes };

    ghost invariant = { λ n. n.len ≤ 87 };
}

impl ShortName {
    /// A name, if it is short; otherwise empty.
    pub(crate) fn of(name: &[u8]) -> ShortName
        ensures short { length name.now ≤ 87 → result ≡ name.now }
        ensures long { 87 < length name.now → result ≡ [] }
    {
        let mut bytes = [0; MOST];
        if name.len() > MOST {
            return ShortName { len: 0, bytes };
        }
        bytes[..name.len()].copy_from_slice(name);
        ShortName {
            len: name.len() as u8,
            bytes,
        }
    }

    /// Its bytes.
    pub(crate) fn as_bytes(&self) -> &[u8]
        ensures { result.now ≡ self.now }
    {
        &self.bytes[..self.len as usize]
    }
}

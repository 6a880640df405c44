//! The slots that a row or an entry takes, one after another.

ghost use Rattle.std.specs.Prelude.{◌≡◌, ◌++◌};

use crate::slot::SLOT_BYTES;
use std::marker::Model;

/// How many bytes a row or an entry takes at most.
const MOST_BYTES: usize = 2 * SLOT_BYTES;

/// The bytes of one slot, or of two, kept in place.
#[derive(Clone, Copy, Debug)]
pub struct Slots {
    bytes: [u8; MOST_BYTES],
    len: usize,
}

impl Model for Slots {
    ghost use Rattle.std.specs.Prelude.{◌≡◌, ◌≤◌, ◌-◌, ◌++◌, List, ℕ, length, take};
    ghost use Rattle.std.proofs.Common.{ap, sym, ◌∙◌, arith, length-take-le};
    ghost use Rattle.cm_layout.specs.Zeros.{zeros};

    ghost Value = { List ℕ };

    ghost view = { λ s. take s.len s.bytes };

    ghost invariant = { λ s. (s.len ≤ 128) × (length s.bytes ≡ 128)
        × (s.bytes ≡ take s.len s.bytes ++ zeros (128 - s.len)) };

    ghost inverse = { λ bytes. record {
      bytes = bytes ++ zeros (128 - length bytes);
      len = length bytes;
    } };

    ghost inverse_ok = { λ s h i.
        let fits = length-take-le s.len s.bytes (omega (arith, h.0, h.1)) in record {
          bytes = (ap (λ len. take s.len s.bytes ++ zeros (128 - len)) fits ∙ sym h.2) i;
          len = fits i;
        } };
}

impl Slots {
    /// One slot.
    pub(crate) fn one(slot: &[u8; SLOT_BYTES]) -> Slots
        ensures { result ≡ slot.now }
    {
        let mut bytes = [0; MOST_BYTES];
        bytes[..SLOT_BYTES].copy_from_slice(slot);
        Slots {
            bytes,
            len: SLOT_BYTES,
        }
    }

    /// Two slots.
    pub(crate) fn two(first: &[u8; SLOT_BYTES], second: &[u8; SLOT_BYTES]) -> Slots
        ensures { result ≡ first.now ++ second.now }
    {
        let mut bytes = [0; MOST_BYTES];
        bytes[..SLOT_BYTES].copy_from_slice(first);
        bytes[SLOT_BYTES..].copy_from_slice(second);
        Slots {
            bytes,
            len: MOST_BYTES,
        }
    }

    /// The bytes of the slots.
    pub fn as_bytes(&self) -> &[u8]
        ensures { result.now ≡ self.now }
    {
        &self.bytes[..self.len]
    }
}

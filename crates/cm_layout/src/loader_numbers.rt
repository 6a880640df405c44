//! The numbers of the loaders that are unloaded at once.

ghost use Rattle.std.specs.Prelude.{◌≡◌, ◌≤◌, ◌-◌, ◌↔◌, ◌++◌, length, IsSome, IfSome};
ghost use Rattle.cm_layout.specs.Names.{unload_limit};
ghost use Rattle.cm_layout.specs.Zeros.{zeros};

use std::marker::Model;

/// How many loaders are unloaded at once at most.
pub const UNLOAD_LIMIT: usize = 7;

/// The numbers of one to seven loaders, kept in place.
#[derive(Clone, Copy, Debug)]
pub struct LoaderNumbers {
    numbers: [u64; UNLOAD_LIMIT],
    len: usize,
}

impl Model for LoaderNumbers {
    ghost use Rattle.std.specs.Prelude.{◌≡◌, ◌≤◌, ◌-◌, ◌++◌, List, ℕ, length, take};
    ghost use Rattle.std.proofs.Common.{ap, sym, ◌∙◌, arith, length-take-le};
    ghost use Rattle.cm_layout.specs.Names.{unload_limit};
    ghost use Rattle.cm_layout.specs.Zeros.{zeros};

    ghost Value = { List ℕ };

    ghost view = { λ n. take n.len n.numbers };

    ghost invariant = { λ n. (1 ≤ n.len) × (n.len ≤ unload_limit)
        × (length n.numbers ≡ unload_limit)
        × (n.numbers ≡ take n.len n.numbers ++ zeros (unload_limit - n.len)) };

    ghost inverse = { λ us. record {
      numbers = us ++ zeros (unload_limit - length us);
      len = length us;
    } };

    ghost inverse_ok = { λ n h i.
        let fits = length-take-le n.len n.numbers (omega (arith, h.1, h.2)) in record {
          numbers =
              (ap (λ len. take n.len n.numbers ++ zeros (unload_limit - len)) fits ∙ sym h.3) i;
          len = fits i;
        } };
}

impl LoaderNumbers {
    /// These numbers, or `None` if there are none or more than seven.
    pub fn new(numbers: &[u64]) -> Option<LoaderNumbers>
        ensures fits { IsSome result
            ↔ ((1 ≤ length numbers.now) × (length numbers.now ≤ unload_limit)) }
        ensures value { IfSome result (λ n. n ≡ numbers.now) }
    {
        let len = numbers.len();
        if len < 1 || len > UNLOAD_LIMIT {
            return None;
        }
        let mut kept = [0; UNLOAD_LIMIT];
        kept[..len].copy_from_slice(numbers);
        Some(LoaderNumbers { numbers: kept, len })
    }

    /// Does nothing: its clauses say how many numbers there may be.
    pub fn invariant_holds(&self)
        ensures some { 1 ≤ length self.now }
        ensures few { length self.now ≤ unload_limit }
    {
        let _read = self.len; // reading a field provides the invariant
    }

    /// The numbers.
    pub fn as_slice(&self) -> &[u64]
        ensures value { result.now ≡ self.now }
        ensures some { 1 ≤ length self.now }
        ensures few { length self.now ≤ unload_limit }
    {
        &self.numbers[..self.len]
    }

    /// The numbers, filled up with zeros to `UNLOAD_LIMIT`.
    pub(crate) fn padded(&self) -> [u64; UNLOAD_LIMIT]
        ensures { result ≡ self.now ++ zeros (unload_limit - length self.now) }
    {
        self.numbers
    }
}

//! Rows, one after another.

ghost use Rattle.std.specs.Prelude.{◌≡◌, [], ◌∷◌, drop, MatchOption};
ghost use Rattle.cm_index.specs.Living.{living};
ghost use Rattle.cm_rows.specs.Links.{ComesNext};

use cm_index::BookSlot;
use cm_layout::Row;
use std::marker::Model;

/// The rows that an iteration has left. Contracts see the list of these rows.
#[derive(Drop)]
pub struct Walk<'a, P> {
    slots: &'a [BookSlot<Row<P>>],
    at: usize,
}

impl<'a, P> Model for Walk<'a, P> {
    ghost use Rattle.std.specs.Prelude.{◌≤◌, List, drop, length};
    ghost use Rattle.cm_layout.specs.declared.row.Row.{Row};
    ghost use Rattle.cm_index.specs.Living.{living};

    ghost Value = { List (Row P) };

    ghost view = { λ w. living (drop w.at w.slots.now) };

    ghost invariant = { λ w. w.at ≤ length w.slots.now };
}

impl<'a, P> Walk<'a, P> {
    pub(crate) fn over(slots: &'a [BookSlot<Row<P>>]) -> Walk<'a, P>
        ensures { result ≡ living slots.now }
    {
        Walk { slots, at: 0 }
    }

    /// The next row, or `None` after the last.
    pub fn next(&mut self) -> Option<&'a Row<P>>
        ensures { MatchOption result (self.old ≡ []) (λ row. self.old ≡ row.now ∷ self.new) }
    {
        let at = next_living(self.slots, self.at)?;
        self.at = at + 1;
        Some(&self.slots[at].item)
    }
}

// Where the next live row is, from a place on.
fn next_living<T>(slots: &[BookSlot<T>], from: usize) -> Option<usize>
    ensures { MatchOption result (living (drop from slots.now) ≡ []) (ComesNext slots.now from) }
{
    for place in from..slots.len() {
        if slots[place].live {
            return Some(place);
        }
    }
    None
}

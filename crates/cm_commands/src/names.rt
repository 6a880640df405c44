//! The names of loaders that are to be unloaded at once.

ghost use Rattle.std.specs.Prelude.{◌≡◌, ◌≤◌, map, length, take};
ghost use Rattle.std.specs.Prelude.{◌==◌};
ghost use Rattle.std.specs.List.{slice_split};
ghost use Rattle.cm_commands.specs.Names.{names_kept};

use std::marker::Model;

/// How many names are kept: one more than may be unloaded at once.
const MOST: usize = 8;

/// The names of loaders that are to be unloaded at once, in order. Of more than eight names only
/// the first eight are kept, since a list of more than seven is refused whatever it contains.
#[derive(Debug, Drop)]
pub struct Names<'a> {
    names: [&'a [u8]; MOST],
    count: usize,
}

impl<'a> Model for Names<'a> {
    ghost use Rattle.std.specs.Prelude.{◌≡◌, ◌≤◌, List, ℕ, length, take, map};
    ghost use Rattle.cm_commands.specs.Names.{names_kept};

    ghost Value = { List (List ℕ) };

    ghost view = { λ n. map (λ name. name.now) (take n.count n.names) };

    ghost invariant = { λ n. (n.count ≤ names_kept) × (length n.names ≡ names_kept) };
}

impl<'a> Names<'a> {
    /// These names.
    pub fn new(names: &[&'a [u8]]) -> Names<'a>
        ensures { result ≡ take names_kept (map (λ name. name.now) names.now) }
    {
        let mut kept: [&'a [u8]; MOST] = [&[]; MOST];
        let count = names.len().min(MOST);
        kept[..count].copy_from_slice(&names[..count]);
        Names { names: kept, count }
    }

    /// The words of a text, with one space between.
    pub fn from_words(text: &'a [u8]) -> Names<'a>
        ensures { result ≡ take names_kept (slice_split (λ b. b == 32) text.now) }
    {
        let mut kept: [&'a [u8]; MOST] = [&[]; MOST];
        let mut count = 0;
        for word in text.split(|byte| *byte == b' ').take(MOST) {
            kept[count] = word;
            count += 1;
        }
        Names { names: kept, count }
    }

    /// The names.
    pub fn as_slice(&self) -> &[&'a [u8]]
        ensures value { map (λ name. name.now) result.now ≡ self.now }
        ensures few { length self.now ≤ names_kept }
    {
        &self.names[..self.count]
    }
}

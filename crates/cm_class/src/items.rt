ghost use Rattle.std.specs.Prelude.{◌≡◌};

use std::marker::Model;

/// A list of values in order, such as bytes or attributes. Converting from and to a `Vec` doesn't
/// allocate.
#[derive(Debug, Drop)]
pub struct Items<T> {
    values: Vec<T>,
}

impl<T> Model for Items<T> {
    ghost use Rattle.std.specs.Prelude.{List};

    ghost Value = { List T };

    ghost view = { λ list. list.values.items };
}

impl<T> Items<T> {
    /// The list of the same values.
    pub fn from_vec(values: Vec<T>) -> Items<T>
        ensures { result ≡ values.items }
    {
        Items { values }
    }

    /// Its values, to read.
    pub fn as_slice(&self) -> &[T]
        ensures { result.now ≡ self.now }
    {
        self.values.as_slice()
    }
}

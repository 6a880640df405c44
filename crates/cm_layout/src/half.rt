//! The two halves of the journal.

ghost use Rattle.std.specs.Prelude.{◌≡◌};
ghost use Rattle.cm_layout.specs.Framing.{other_half};

/// One of the two halves of the journal.
#[derive(Clone, Copy, Debug, PartialEq, Eq)]
pub enum Half {
    Zero,
    One,
}

impl Half {
    /// The half that isn't this one.
    pub fn other(self) -> Half
        ensures { result ≡ other_half self }
    {
        match self {
            Half::Zero => Half::One,
            Half::One => Half::Zero,
        }
    }
}

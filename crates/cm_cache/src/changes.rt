//! What was accepted through a pass. Only contracts read it; it takes no room.

ghost use Rattle.std.specs.Prelude.{◌≡◌, ◌++◌, ◌∷◌, [], ℕ, List};
ghost use Rattle.std.specs.Borrow.{ftrue};
ghost use Rattle.cm_state.specs.Step.{Change};
ghost use Rattle.cm_commands.specs.Commands.{change_asked};

use cm_commands::Command;
use std::marker::{Model, PhantomData};

/// All changes that were accepted, each with its number, oldest first.
#[derive(Drop)]
pub struct Changes {
    marker: PhantomData<u8>,
    pub ghost all: { List (Change (List ℕ) × ℕ) },
}

impl Model for Changes {
    ghost also_owns = { λ _. ftrue };
}

// It owns nothing.
unsafe impl Send for Changes {}

impl Changes {
    /// No change was accepted yet.
    pub(crate) fn none() -> Changes
        ensures { result.all ≡ [] }
    {
        Changes {
            marker: PhantomData,
        }
    }

    /// One more change: the one that the command requests, with this number.
    pub(crate) fn one_more(&self, _command: &Command<'_>, _number: &u64) -> Changes
        ensures { result.all ≡ self.now.all ++ (change_asked _command.now, _number.now) ∷ [] }
    {
        Changes {
            marker: PhantomData,
        }
    }
}

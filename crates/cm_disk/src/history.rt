//! The moments that an in-memory disk has had. Only clauses read them: they take no memory.
ghost use Rattle.std.specs.Prelude.{◌≡◌, List, [], ◌∷◌};
ghost use Rattle.std.specs.Borrow.{ftrue};
ghost use Rattle.cm_disk.specs.Moments.{Moment};
ghost use Rattle.cm_disk.specs.Medium.{moment_of};

use crate::medium::Medium;
use std::marker::{Model, PhantomData};

#[derive(Drop)]
pub struct History {
    marker: PhantomData<u8>,
    /// The moments, the newest first.
    pub ghost moments: { List Moment },
}

impl Model for History {
    ghost also_owns = { λ _. ftrue };
}

// It owns nothing.
unsafe impl Send for History {}

impl History {
    pub(crate) fn new() -> History
        ensures { result.moments ≡ [] }
    {
        History {
            marker: PhantomData,
        }
    }

    /// Records the moment that the medium is at.
    pub(crate) fn note(&mut self, _medium: &Medium)
        ensures { self.new.moments ≡ moment_of _medium.now ∷ self.old.moments }
    {}
}

//! What was done under the lock through a pass. Only contracts read it; it takes no room.

ghost use Rattle.std.specs.Prelude.{◌≡◌, ◌++◌, ◌∷◌, [], List};
ghost use Rattle.std.specs.Borrow.{ftrue};
ghost use Rattle.std.specs.Coded.{coded_list};
ghost use Rattle.cm_cache.specs.Holds.{Hold, hold_code, hold_of};

use crate::board_view::Seen;
use cm_front::Front;
use std::marker::{Model, PhantomData};

/// Each time that the lock was held for a change, oldest first.
#[derive(Drop)]
pub struct Holds {
    marker: PhantomData<u8>,
    pub ghost all: { List Hold } by { coded_list hold_code },
}

impl Model for Holds {
    ghost also_owns = { λ _. ftrue };
}

// It owns nothing.
unsafe impl Send for Holds {}

impl Holds {
    /// The lock was never held.
    pub(crate) fn none() -> Holds
        ensures { result.all ≡ [] }
    {
        Holds {
            marker: PhantomData,
        }
    }

    /// The lock is held once more: this was seen on the Board, and this is the accepted cache
    /// before it learns of it.
    pub(crate) fn one_more(&self, _seen: &Seen, _front: &Front) -> Holds
        ensures { result.all ≡ self.now.all ++ hold_of _seen.now _front.now ∷ [] }
    {
        Holds {
            marker: PhantomData,
        }
    }
}

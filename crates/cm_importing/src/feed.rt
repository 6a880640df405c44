//! Where the classes of an import come from.

ghost use Rattle.std.specs.Prelude.{◌≤◌, ◌<◌, ℕ, [], ◌∷◌, List, Option, IfOk, IsSome};
ghost use Rattle.std.specs.Thread.{IsSync};
ghost use Rattle.cm_importing.specs.Feeds.{FeedEvent, Told, Logs, events_of_next};

use crate::outcome::Outcome;
use cm_commands::Prepared;
use std::alloc::{AllocError, Global};
use std::thread::Threads;

/// Gives the classes of an import, group after group, and is told what became of each.
pub trait Feed {
    /// What passed between the feed and imports so far, if that is known.
    ghost log: { Self → Option (List FeedEvent) };

    /// How many groups it gives at most from now on.
    ghost left: { Self → ℕ };

    /// The next classes, which are stored in one group if it has up to 64. `None`: there are no
    /// more. They may be prepared in threads.
    ///
    /// # Errors
    /// An allocation failed, and none was given.
    fn next<R: Threads + Sync>(
        &mut self,
        rt: &R,
        alloc: Global,
    ) -> Result<Option<Vec<Prepared>>, AllocError>
        requires { IsSync R.row }
        ensures logged { Logs (log self.old) (log self.new) (events_of_next result) }
        ensures fewer { IfOk result (λ given. IsSome given → left self.new < left self.old) };

    /// Is told what became of the classes that it gave last, in their order.
    fn tell(&mut self, outcomes: &[Outcome])
        ensures logged { Logs (log self.old) (log self.new) (Told outcomes.now ∷ []) }
        ensures no_more { left self.new ≤ left self.old };
}

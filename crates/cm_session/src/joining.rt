//! Groups that are joined while they wait.

ghost use Rattle.std.specs.Prelude.{◌≡◌, ◌<◌, ◌∷◌, ℕ, IsTrue, false, length};
ghost use Rattle.std.specs.VecDeque.{deque_capacity};
ghost use Rattle.cm_session.specs.Session.{commands_of, AreConsecutive, NoneContinues};

use cm_group::Group;
use std::collections::VecDeque;

/// Joins the oldest waiting group to this one if one group holds both, and returns whether it did.
fn join_next(group: &mut Group, queue: &mut VecDeque<Group>) -> bool
    ensures commands { commands_of (group.new ∷ queue.new.items)
        ≡ commands_of (group.old ∷ queue.old.items) }
    ensures behind { (n : ℕ) → AreConsecutive n (group.old ∷ queue.old.items)
        → AreConsecutive n (group.new ∷ queue.new.items) }
    ensures fewer { IsTrue result → length queue.new.items < length queue.old.items }
    ensures none { result ≡ false → NoneContinues group.new queue.new.items }
    ensures capacity { deque_capacity queue.new ≡ deque_capacity queue.old }
{
    let Some(next) = queue.pop_front() else {
        return false;
    };
    match group.add(next) {
        Ok(()) => {
            group.invariant_holds();
            true
        }
        Err(next) => {
            queue.push_front_reserved(next);
            false
        }
    }
}

/// Joins to this one as many of the waiting groups as one group holds with it, up to the first that
/// doesn't fit.
pub(crate) fn join_queued(mut group: Group, queue: &mut VecDeque<Group>) -> Group
    ensures commands { commands_of (result ∷ queue.new.items)
        ≡ commands_of (group ∷ queue.old.items) }
    ensures behind { (n : ℕ) → AreConsecutive n (group ∷ queue.old.items)
        → AreConsecutive n (result ∷ queue.new.items) }
    ensures all { NoneContinues result queue.new.items }
    ensures capacity { deque_capacity queue.new ≡ deque_capacity queue.old }
{
    while join_next(&mut group, queue) {}
    group
}

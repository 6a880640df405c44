//! The groups that aren't handed out yet.

ghost use Rattle.std.specs.Prelude.{◌≡◌, ◌^◌, ◌<◌, ◌≤◌, [], ◌∷◌, ◌++◌, true, option_to_list};
ghost use Rattle.std.specs.Prelude.{IsSome, IfSome, IfNone, OnOk};
ghost use Rattle.std.specs.VecDeque.{deque_capacity, deque_len};
ghost use Rattle.cm_front.specs.Unsealed.{EndBefore, TakesOldest, NewestIsLast};
ghost use Rattle.cm_front.specs.Accepting.{joined_by};

use cm_group::{CarriedEntry, Group, GroupRoom};
use std::alloc::{AllocError, Global};
use std::collections::VecDeque;
use std::marker::Model;

/// The groups that aren't handed out yet, oldest first. All but the newest are full.
///
/// Room for one more entry is reserved before a command is accepted, so that nothing fails
/// afterwards.
#[derive(Drop)]
pub(crate) struct Unsealed {
    alloc: Global,
    full: VecDeque<Group>,
    newest: Option<Group>,
    spare: Option<GroupRoom>,
}

impl Model for Unsealed {
    ghost use Rattle.std.specs.Prelude.{◌++◌, ◌&&◌, is_some, nat_lt, option_to_list};
    ghost use Rattle.std.specs.VecDeque.{deque_capacity, deque_len};
    ghost use Rattle.cm_front.specs.Unsealed.{WaitingGroups, NewestIsLast};

    ghost Value = { WaitingGroups };

    ghost view = { λ u. record {
      groups = u.full.items ++ option_to_list u.newest;
      is_ready = is_some u.spare && nat_lt (deque_len u.full) (deque_capacity u.full);
    } };

    ghost invariant = { λ u. NewestIsLast u.full.items u.newest };
}

impl Unsealed {
    /// No groups.
    pub(crate) fn new(alloc: Global) -> Unsealed
        ensures { result.groups ≡ [] }
    {
        Unsealed {
            alloc,
            full: VecDeque::new(alloc),
            newest: None,
            spare: None,
        }
    }

    /// Reserves the room that one more entry may need. The groups stay as they are.
    pub(crate) fn make_ready(&mut self) -> Result<(), AllocError>
        ensures groups { self.new.groups ≡ self.old.groups }
        ensures ready { OnOk result (self.new.is_ready ≡ true) }
    {
        self.full.reserve(1)?;
        if self.spare.is_none() {
            self.spare = Some(GroupRoom::new(self.alloc)?);
        }
        Ok(())
    }

    /// The entry of the next number joins the newest group, as long as that has slots for it, or
    /// begins a new one. Allocates nothing.
    pub(crate) fn join(&mut self, number: u64, entry: CarriedEntry)
        requires ready { self.old.is_ready ≡ true }
        requires from { 1 ≤ number }
        requires to { number ≤ 2 ^ 63 }
        requires next { EndBefore self.old.groups number }
        ensures { self.new.groups ≡ joined_by number self.old.groups entry }
    {
        let newest = self.newest.take();
        let joined = join(&mut self.full, newest, &mut self.spare, number, entry);
        let _none = self.newest.replace(joined); // it was taken out above
    }

    /// Takes the oldest group out, if there is one. Allocates nothing.
    pub(crate) fn take_oldest(&mut self) -> Option<Group>
        ensures some { IfSome result
            (λ group. TakesOldest self.old.groups group self.new.groups) }
        ensures none { IfNone result (self.old.groups ≡ []) }
        ensures left { IfNone result (self.new.groups ≡ self.old.groups) }
    {
        match self.full.pop_front() {
            Some(oldest) => Some(oldest),
            None => self.newest.take(),
        }
    }
}

// Returns the group that the entry is in: the newest, as long as that has slots for it, or a new
// one in the room reserved for it. A newest group without slots joins the full ones.
fn join(
    full: &mut VecDeque<Group>,
    newest: Option<Group>,
    spare: &mut Option<GroupRoom>,
    number: u64,
    entry: CarriedEntry,
) -> Group
    requires ready { IsSome spare.old }
    requires room { deque_len full.old < deque_capacity full.old }
    requires last { NewestIsLast full.old.items newest }
    requires from { 1 ≤ number }
    requires to { number ≤ 2 ^ 63 }
    requires next { EndBefore (full.old.items ++ option_to_list newest) number }
    ensures { full.new.items ++ result ∷ []
        ≡ joined_by number (full.old.items ++ option_to_list newest) entry }
{
    let Some(mut newest) = newest else {
        return Group::new_in(spare.take().unwrap(), number, entry);
    };
    match newest.push(entry) {
        Ok(()) => newest,
        Err(entry) => {
            full.push_back(newest).unwrap();
            Group::new_in(spare.take().unwrap(), number, entry)
        }
    }
}

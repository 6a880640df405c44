//! The groups that were handed out and wait.

ghost use Rattle.std.specs.Prelude.{◌≡◌, ◌≤◌, [], IfOk};
ghost use Rattle.std.specs.VecDeque.{deque_capacity};

use cm_group::Group;
use std::alloc::{AllocError, Global};
use std::collections::VecDeque;

/// Groups, oldest first. If there is none, there is room for one.
#[derive(Drop)]
pub(crate) struct Queue {
    pub(crate) groups: VecDeque<Group>,
    ghost has_place: { 1 ≤ deque_capacity groups },
}

impl Queue {
    /// No groups.
    pub(crate) fn new(alloc: Global) -> Result<Queue, AllocError>
        ensures { IfOk result (λ q. q.groups.items ≡ []) }
    {
        let mut groups = VecDeque::new(alloc);
        groups.reserve(1)?;
        Ok(Queue { groups })
    }
}

//! Room that is allocated before it is known what it will hold, so that a command can get all its
//! memory first and can't fail later.

ghost use Rattle.std.specs.Prelude.{◌≡◌, ◌≤◌, [], vec_capacity};

use crate::carried::CarriedEntry;
use cm_layout::GROUP_SLOTS;
use std::alloc::{AllocError, Global};
use std::marker::Model;

/// Room for the entries of one group.
#[derive(Drop)]
pub struct GroupRoom {
    entries: Vec<CarriedEntry>,
}

impl Model for GroupRoom {
    ghost use Rattle.std.specs.Prelude.{◌≡◌, ◌≤◌, [], vec_capacity};
    ghost use Rattle.cm_group.specs.Groups.{group_limit};

    ghost Value = { Unit {0} };

    ghost view = { λ r. tt {0} };

    ghost invariant = { λ r. (r.entries.items ≡ []) × (group_limit ≤ vec_capacity r.entries) };
}

impl GroupRoom {
    ghost use Rattle.cm_group.specs.Groups.{group_limit};

    /// Allocates the room.
    pub fn new(alloc: Global) -> Result<GroupRoom, AllocError> {
        let entries = Vec::with_capacity(alloc, GROUP_SLOTS)?;
        Ok(GroupRoom { entries })
    }

    /// The list with this room, which is empty.
    pub(crate) fn into_entries(self) -> Vec<CarriedEntry>
        ensures empty { result.items ≡ [] }
        ensures room { group_limit ≤ vec_capacity result }
    {
        let GroupRoom { entries } = self;
        entries
    }
}

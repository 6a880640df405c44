//! Whether checking a class takes time in proportion to its record.
//!
//! Each member is compared with those before it, and each constant's names and descriptors are
//! checked anew, so long ones in a class with many members or constants would be read again and
//! again. Such a class, which no compiler writes, is left to `cm_rules`, which examines each name
//! once.

use crate::laid::LaidClass;
use crate::members::LaidMembers;

/// How many bytes may be read for each byte of the record.
const PASSES: usize = 32;

/// How many members before one cost as much to compare as reading its own name.
const MEMBERS_A_PASS: usize = 16;

/// How many bytes of the names and descriptors of constants may still be read.
#[derive(Debug, Drop)]
pub(crate) struct Effort {
    left: usize,
}

impl Effort {
    /// What the constants of a class may take.
    pub(crate) fn for_class(class: &LaidClass) -> Effort {
        Effort {
            left: PASSES.saturating_mul(class.len()),
        }
    }

    /// Whether this many bytes more may be read.
    pub(crate) fn allows(&mut self, bytes: usize) -> bool {
        if bytes > self.left {
            return false;
        }
        self.left -= bytes;
        true
    }
}

/// The cost of the names and descriptors of members, each of which is compared with those before
/// it.
fn members_cost(class: &LaidClass, members: LaidMembers) -> usize {
    let passes = members.len() / MEMBERS_A_PASS;
    if passes == 0 {
        return 0;
    }
    let mut rest = members;
    let mut cost: usize = 0;
    while let Some(member) = rest.next() {
        cost = cost
            .saturating_add(class.utf8(member.name()).len())
            .saturating_add(class.utf8(member.descriptor()).len());
    }
    cost.saturating_mul(passes)
}

/// Whether the names of the members are short enough for the number of members.
pub(crate) fn is_cheap(class: &LaidClass) -> bool {
    let cost = members_cost(class, class.fields()).saturating_add(members_cost(
        class,
        class.methods(),
    ));
    cost / PASSES <= class.len()
}

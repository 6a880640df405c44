//! A group that a committer doesn't take.

use cm_group::Group;
use std::fmt::{self, Debug, Formatter};
use thiserror::Error;

/// A group that a committer doesn't take. Nothing is changed.
#[derive(Drop, Error)]
#[error("the committer is broken or busy, or the group can't come next")]
pub struct Mismatch {
    /// The group, as it was.
    pub group: Group,
}

impl Debug for Mismatch {
    fn fmt<W: fmt::Write>(&self, f: &mut Formatter<W>) -> fmt::Result {
        f.debug_struct("Mismatch").finish_non_exhaustive()
    }
}

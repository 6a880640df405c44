//! What a committer returns.

use cm_group::Receipt;
use thiserror::Error;

/// The state of a committer after a call that advances it.
#[derive(Clone, Copy, Debug, PartialEq, Eq)]
pub enum Progress {
    /// Nothing is under way: no device call was made.
    Idle,
    /// One device call was made, and others are left.
    Working,
    /// The last device call of a group was made: it is stored.
    Done(Receipt),
    /// The last device call of a trim was made: the file now has this many roots, which are those
    /// that committed rows use.
    Trimmed(u32),
}

/// A committer can't be trimmed, because it is broken or something is under way. Nothing is
/// changed.
#[derive(Clone, Copy, Debug, PartialEq, Eq, Error)]
#[error("the committer is broken or busy")]
pub struct NotIdle;

/// Why a committer didn't advance.
#[derive(Clone, Copy, Debug, PartialEq, Eq, Error)]
pub enum AdvanceFault {
    /// The device failed in this call. The committer is broken from now on; the file has to be
    /// opened again.
    #[error("the device failed")]
    Device,
    /// The device failed in an earlier call. No device call was made.
    #[error("the device failed earlier")]
    Broken,
}

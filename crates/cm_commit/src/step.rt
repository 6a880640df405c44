//! How far a checkpoint, the storing of a group, or a trim has come.

/// What the next device call of a group is.
#[derive(Clone, Copy, Debug, PartialEq, Eq)]
pub(crate) enum CommitStep {
    /// A write of a root of zeros if the file has too few, and these are how many it has by now;
    /// otherwise the first one of `Write`.
    Grow { roots: u32 },
    /// A write: of the next record, from this one of this entry's on, or of the slots if no record
    /// is left.
    Write { entry: usize, number: usize },
    /// The sync before the gate.
    Sync,
    /// The write of the gate's byte.
    Gate,
    /// The sync after it.
    LastSync,
    /// None: all calls are made.
    Done,
}

/// What the next device call of a checkpoint is.
#[derive(Clone, Copy, Debug, PartialEq, Eq)]
pub(crate) enum CheckpointStep {
    /// The write of the other half's gate if that is open, otherwise a sync in its place.
    Shut,
    /// The sync after it.
    SyncShut,
    /// The write of the other half, from the byte after its gate.
    Write,
    /// The sync before its gate.
    SyncWritten,
    /// The write of its gate's byte.
    Open,
    /// The sync after it.
    SyncOpened,
}

/// What the next device call of a trim is.
#[derive(Clone, Copy, Debug, PartialEq, Eq)]
pub(crate) enum TrimStep {
    /// The cut of the file after the roots that rows use.
    Cut,
    /// The sync after it.
    Sync,
}

/// What the next device call is.
#[derive(Clone, Copy, Debug, PartialEq, Eq)]
pub(crate) enum PlanStep {
    /// One of the checkpoint that comes before the group.
    Checkpoint(CheckpointStep),
    /// One of the group.
    Group(CommitStep),
    /// One of a trim; no group is under way then.
    Trim(TrimStep),
}

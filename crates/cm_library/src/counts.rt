//! What is counted once a cache is closed.

ghost use Rattle.std.specs.Prelude.{◌≡◌, ◌+◌, ◌≤◌};

/// How many commands a cache that ran accepted and stored.
#[derive(Clone, Copy, Debug, PartialEq, Eq)]
pub struct Counts {
    /// How many commands were accepted.
    pub handed: u64,
    /// How many of these are stored, the oldest ones.
    pub committed: u64,
    /// How many were accepted through the passes that came back.
    pub of_passes: u64,
    /// How many passes didn't come back.
    pub missing: u64,
    ghost in_order: { committed ≤ handed },
}

impl Counts {
    /// How many commands were accepted that are not known to be stored. It is 0 unless the device
    /// failed.
    pub fn unsure(&self) -> u64
        ensures { self.now.committed + result ≡ self.now.handed }
    {
        self.handed - self.committed
    }
}

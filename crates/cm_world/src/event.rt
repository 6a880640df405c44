//! What happens to a world.

use cm_commands::Command;
use cm_disk::Choice;

/// One event of a world.
#[derive(Drop)]
pub enum Event<'a> {
    /// A command is requested.
    Accept(Command<'a>),
    /// The oldest accepted commands are handed out as a group, which waits for the committer.
    Seal,
    /// The committer makes its next device call. If nothing is under way, it first takes the oldest
    /// waiting group, with as many of those after it as one group holds.
    Advance,
    /// The committer is to truncate the file after the last root that committed rows use.
    Trim,
    /// The accepted cache learns what is acknowledged, and whether the device failed.
    Learn,
    /// The class of a name is looked up in the loader of a name; the loader comes first.
    Look(&'a [u8], &'a [u8]),
    /// The next device call fails; a write stores its first bytes, as many as this.
    Fault(usize),
    /// The file is opened again, as it is.
    Reopen,
    /// A crash: the file that this choice leaves is opened.
    Crash(Choice),
}

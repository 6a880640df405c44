//! What a command line requests.

use cm_pool::Geometry;

/// What a command line requests. Paths are words of that line.
#[derive(Clone, Copy, Debug, PartialEq, Eq)]
pub enum Action<'a> {
    /// To make an empty cache with this geometry in a new file.
    Format(&'a str, Geometry),
    /// To check a file for damage.
    Check(&'a str),
    /// To list what a file holds.
    List(&'a str),
    /// To truncate a file after the last root that is in use.
    Trim(&'a str),
    /// To run a script on a file, or on a fresh cache in memory if there is none, with this many
    /// threads that prepare its classes.
    Apply(Option<&'a str>, u32),
}

//! What a step comes to.

use thiserror::Error;

/// What a step of a session came to.
#[derive(Clone, Copy, Debug, PartialEq, Eq)]
pub enum Step {
    /// All that was accepted is stored, and the caller was told so. There is no call to make.
    Idle,
    /// The device call that the disk noted last is to be made before the next step.
    Call,
    /// All commands up to the one of this number are stored. There is no call to make; the next
    /// step may ask for one.
    Stored(u64),
}

/// A device call wasn't made, or the disk refused one. No call is asked for any more.
#[derive(Clone, Copy, Debug, PartialEq, Eq, Error)]
#[error("the device failed")]
pub struct Broken;

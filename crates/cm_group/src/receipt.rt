//! The statement that a group is durable.

/// All commands up to this number are durable: whatever a crash leaves, their effect is there when
/// the file is opened again.
#[derive(Clone, Copy, Debug, PartialEq, Eq)]
pub struct Receipt {
    /// The number of the last command that is durable.
    pub number: u64,
}

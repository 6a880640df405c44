//! The bound of loops over a reader or a writer.

/// More steps than a loop over a reader or a writer ever takes: at one step per nanosecond they
/// last 584 years. It isn't known how much a reader still has, nor how often a signal interrupts
/// it, so only this bound shows that such a loop ends.
pub const MOST_STEPS: u64 = u64::MAX;

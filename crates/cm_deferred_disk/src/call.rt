//! A call that is left to the caller.

/// A call that was noted.
#[derive(Clone, Copy, Debug)]
pub enum Call<'a> {
    /// Write these bytes, from this place on.
    Write { at: u64, bytes: &'a [u8] },
    /// Cut to this length.
    Cut { len: u64 },
    /// Make all that was written durable.
    Sync,
}

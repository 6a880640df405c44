//! What is still known about a device's bytes.
use crate::word_run::WordRun;

#[derive(Drop)]
pub enum Image<F> {
    /// The first of the bytes and the ranges of words after them, as they were read and in the
    /// order of their places, and the number of all bytes: nothing was written or cut since.
    Read(Vec<u8>, Vec<WordRun>, u64),
    /// The number of bytes alone.
    Length(u64),
    /// Nothing: a write, a cut or a sync has failed, for this cause.
    Lost(F),
}

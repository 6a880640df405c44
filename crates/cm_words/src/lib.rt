//! A buffer of 64-bit words in one block of memory, with a fixed capacity.
#![tactic(auto)]

mod block;
mod bytes;
mod laws;
mod word_buf;

// A crate can name a buffer in a contract only if the types of its fields are exported.
#[doc(hidden)]
pub use block::{Base, Cells, Deed};
pub use laws::bytes_tell_words;
pub use word_buf::WordBuf;

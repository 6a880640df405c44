//! Jars: their entries, and the content of each (PKWARE's APPNOTE, and RFC 1951 for deflated ones).
#![tactic(auto)]

mod bit_reader;
mod block;
mod code;
mod crc;
mod end_record;
mod entry;
mod fault;
mod header;
mod inflate;
mod inflate_fault;
mod jar;
mod lengths;
mod numbers;
mod output;
mod rows;
mod unpacking;

pub use crc::crc32;
pub use entry::{Entry, LARGEST};
pub use fault::{EntryFault, JarFault};
pub use inflate_fault::InflateFault;
pub use jar::Jar;

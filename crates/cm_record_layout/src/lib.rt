//! How a class is laid out as words: the definition, and how words hold bytes and small numbers.
#![tactic(auto)]

mod directory;
mod head;
mod numbers;
mod packing;
mod slices;

pub use cm_words::bytes_tell_words;
pub use directory::whole_word;
pub use head::{
    DIRECTORY_AT, HEAD_ATTRIBUTES_AT, HEAD_CLASS, HEAD_COUNTS, HEAD_DIRECTORY_AT,
    HEAD_INTERFACES_AT, HEAD_MEMBERS_AT, HEAD_RUNS_AT, HEAD_TOTAL, SLOT_1_AT,
};
pub use numbers::{first, fourth, second, third, upper};
pub use packing::{FOURTH, MAX_WORDS, SECOND, THIRD, bytes_of, four_numbers, run_words, word_of};
pub use slices::words_from;

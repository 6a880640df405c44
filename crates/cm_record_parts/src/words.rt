//! The words of a record, read wherever they are asked for.
ghost use Rattle.std.specs.Prelude.{◌≡◌, ◌%◌, ◌^◌, get_or};

use cm_record_layout::THIRD;

/// The word at an index; 0 past the end.
pub(crate) fn word_at(words: &[u64], index: usize) -> u64
    ensures { result ≡ get_or words.now index 0 }
{
    words.get(index).copied().unwrap_or(0)
}

/// The offset that the word at an index is.
pub(crate) fn offset_at(words: &[u64], index: usize) -> u32
    ensures { result ≡ get_or words.now index 0 % 2 ^ 32 }
{
    (word_at(words, index) % THIRD) as u32
}

//! Bytes in words, and small numbers side by side in a word.
ghost use Rattle.std.specs.Prelude.{◌≡◌, ◌<◌, ℕ, slice_index};
ghost use Rattle.cm_record_layout.specs.Packing.{word_from, bytes_of as word_bytes_of};
ghost use Rattle.cm_record_layout.specs.Packing.{run_words as words_of_run};
ghost use Rattle.cm_record_layout.specs.Packing.{four_numbers as four_numbers_of};

/// The greatest number of words that a record has.
pub const MAX_WORDS: u64 = 524_288;

/// What adding 1 to the second number of 16 bits of a word adds to the word.
pub const SECOND: u64 = 1 << 16;

/// The same in the third number.
pub const THIRD: u64 = 1 << 32;

/// The same in the fourth number.
pub const FOURTH: u64 = 1 << 48;

/// Four numbers in one word, the first of them lowest.
pub fn four_numbers(first: u16, second: u16, third: u16, fourth: u16) -> u64
    ensures { result ≡ four_numbers_of first second third fourth }
{
    u64::from(first)
        + SECOND * u64::from(second)
        + THIRD * u64::from(third)
        + FOURTH * u64::from(fourth)
}

/// Fewer than eight bytes, filled up with zeros.
fn pad_to_eight(bytes: &[u8]) -> [u8; 8]
    ensures { (k : ℕ) → k < 8 → slice_index result k ≡ slice_index bytes.now k }
{
    let mut eight = [0u8; 8];
    let count = bytes.len().min(8);
    eight[..count].copy_from_slice(&bytes[..count]);
    eight
}

/// The first eight bytes, filled up with zeros if there are fewer.
fn first_eight(bytes: &[u8]) -> [u8; 8]
    ensures { (k : ℕ) → k < 8 → slice_index result k ≡ slice_index bytes.now k }
{
    // Most words of a run are whole ones.
    match bytes.first_chunk::<8>() {
        Some(eight) => *eight,
        None => pad_to_eight(bytes),
    }
}

/// The word of the first eight bytes, the first of them lowest. If there are fewer, the remaining
/// bits are 0.
pub fn word_of(bytes: &[u8]) -> u64
    ensures { result ≡ word_from bytes.now }
{
    u64::from_le_bytes(first_eight(bytes))
}

/// How many words a run of `count` bytes takes.
pub fn run_words(count: usize) -> u64
    ensures { result ≡ words_of_run count }
{
    let count = count as u64;
    count / 8 + u64::from(count % 8 != 0)
}

/// A word's eight bytes, the lowest first.
#[tactic(auto, unfolding(crate::specs::Packing::bytes_of))]
pub fn bytes_of(word: u64) -> [u8; 8]
    ensures { result ≡ word_bytes_of word }
{
    word.to_le_bytes()
}

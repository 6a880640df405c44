// Bits in words of 64.
ghost use Rattle.std.specs.Prelude.{◌≡◌, ℕ, ◌*◌, ◌/◌, ◌<◌, ◌≤◌, ◌==◌, length, slice_index_or};
ghost use Rattle.std.specs.Prelude.{vec_len, IfSome, IfNone};
ghost use Rattle.cm_pool.specs.Bits.{bit, with_bit, without_bit, IsFirstWord, IsFirstBit};

/// Whether a bit is set. After the last word none is.
pub fn has_bit(words: &[u64], at: u32) -> bool
    ensures { result ≡ bit words.now at }
{
    let word = (at / 64) as usize;
    word < words.len() && words[word] >> (at % 64) & 1 == 1
}

/// Sets a bit.
pub fn set_bit(words: &mut Vec<u64>, at: u32)
    requires { at < 64 * vec_len words.old }
    ensures { words.new.items ≡ with_bit words.old.items at }
{
    words[(at / 64) as usize] |= 1 << (at % 64);
}

/// Clears a bit, and returns whether its word has none left.
pub fn clear_bit(words: &mut Vec<u64>, at: u32) -> bool
    requires { at < 64 * vec_len words.old }
    ensures cleared { words.new.items ≡ without_bit words.old.items at }
    ensures none_left { result ≡ (slice_index_or words.new.items (at / 64) 0 == 0) }
{
    let word = (at / 64) as usize;
    words[word] &= !(1 << (at % 64));
    words[word] == 0
}

/// The first word that has a bit.
pub fn first_word(words: &[u64]) -> Option<u32>
    requires { length words.now ≤ 16384 }
    ensures some { IfSome result (IsFirstWord words.now) }
    ensures none { IfNone result ((k : ℕ) → slice_index_or words.now k 0 ≡ 0) }
{
    for (at, word) in words.iter().enumerate() {
        if *word != 0 {
            return Some(at as u32);
        }
    }
    None
}

/// The lowest bit of the first word that has one.
pub fn lowest_bit(words: &[u64], at: u32) -> u32
    requires first { IsFirstWord words.now at }
    requires short { length words.now ≤ 16384 }
    ensures { IsFirstBit words.now result }
{
    64 * at + words[at as usize].trailing_zeros()
}

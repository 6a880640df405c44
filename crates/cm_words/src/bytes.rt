//! Words as bytes.
ghost use Rattle.std.specs.Prelude.{◌≡◌, ◌≤◌, ◌+◌, ◌*◌, ◌++◌, length, take, drop};
ghost use Rattle.cm_words.specs.Bytes.{bytes_of, word_bytes};

/// Writes a word as eight bytes, the lowest first.
#[tactic(auto, unfolding(crate::specs::Bytes::bytes_of))]
fn write_word(out: &mut [u8], at: usize, word: u64)
    requires { at + 8 ≤ length out.old }
    ensures { out.new ≡ take at out.old ++ bytes_of word ++ drop (at + 8) out.old }
{
    out[at..at + 8].copy_from_slice(&word.to_le_bytes());
}

/// Writes words, each as eight bytes with the lowest first.
pub(crate) fn write_words(words: &[u64], out: &mut [u8])
    requires { length out.old ≡ 8 * length words.now }
    ensures { out.new ≡ word_bytes words.now }
{
    for (i, word) in words.iter().enumerate() {
        write_word(out, 8 * i, *word);
    }
}

//! What the definitions mean, as laws.
ghost use Rattle.std.specs.Prelude.{◌≡◌, length};
ghost use Rattle.cm_words.specs.Bytes.{word_bytes, packed_into};

/// The bytes of words determine the words. The function does nothing when it runs.
pub fn bytes_tell_words(words: &[u64])
    ensures { packed_into (length words.now) (word_bytes words.now) ≡ words.now }
{}

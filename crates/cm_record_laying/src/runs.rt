//! Runs of bytes, added to a buffer.
ghost use Rattle.std.specs.Prelude.{◌≡◌, ◌<◌, ◌≤◌, ◌+◌, ◌++◌, length};
ghost use Rattle.cm_record_layout.specs.Packing.{packed};

use cm_record_layout::word_of;
use cm_words::WordBuf;

/// Adds the words of whole groups of eight bytes. Returns the bytes after them.
fn push_eights<'a>(words: &mut WordBuf, bytes: &'a [u8]) -> &'a [u8]
    requires { length words.old.words + length (packed bytes.now) ≤ words.old.capacity }
    ensures words { words.new.words ++ packed result.now ≡ words.old.words ++ packed bytes.now }
    ensures capacity { words.new.capacity ≡ words.old.capacity }
    ensures few { length result.now < 8 }
{
    let mut rest = bytes;
    while let Some((eight, behind)) = rest.split_first_chunk::<8>() {
        words.push(u64::from_le_bytes(*eight));
        rest = behind;
    }
    rest
}

/// Adds the run of these bytes.
pub(crate) fn push_run(words: &mut WordBuf, bytes: &[u8])
    requires { length words.old.words + length (packed bytes.now) ≤ words.old.capacity }
    ensures words { words.new.words ≡ words.old.words ++ packed bytes.now }
    ensures capacity { words.new.capacity ≡ words.old.capacity }
{
    let rest = push_eights(words, bytes);
    if !rest.is_empty() {
        words.push(word_of(rest));
    }
}

//! Whether an index of a record's pool leads to given bytes.
ghost use Rattle.std.specs.Prelude.{◌≡◌, ◌≤◌, ◌<◌, ◌↔◌, ℕ, List, length, drop, min, get_or};
ghost use Rattle.std.specs.Prelude.{IsTrue, IfSome, false};
ghost use Rattle.cm_class.specs.declared.class_file.ClassFile.{ClassFile};
ghost use Rattle.cm_class.specs.Names.{names_utf8};
ghost use Rattle.cm_record_layout.specs.Packing.{packed, first_of};
ghost use Rattle.cm_record_layout.specs.Layout.{IsRecord, IsRecordOf};
ghost use Rattle.cm_record.specs.Constants.{constant_at_index as constant_at_index_of};
ghost use Rattle.cm_record.specs.Runs.{IsRunOf, HasRun};

use crate::constant::{Utf8Place, constant_at, wide_words_before};
use crate::names::run_of_utf8;
use crate::run::{Run, run_slice};
use cm_class::{Constant, Kind};
use cm_record_layout::{DIRECTORY_AT, HEAD_COUNTS, first, second, word_of};

/// The bytes after the first eight.
#[tactic(auto, using(std::proofs::lemmas::List::take_rest))]
pub(crate) fn skip_eight(bytes: &[u8]) -> &[u8]
    ensures { result.now ≡ drop (min (length bytes.now) 8) bytes.now }
{
    &bytes[bytes.len().min(8)..]
}

/// Whether the words are the run of these bytes.
fn is_run(words: &[u64], bytes: &[u8]) -> bool
    ensures { IsTrue result ↔ (words.now ≡ packed bytes.now) }
{
    let (mut rest, mut left) = (words, bytes);
    while !left.is_empty() {
        let [word, behind @ ..] = rest else {
            return false;
        };
        if word_of(left) != *word {
            return false;
        }
        rest = behind;
        left = skip_eight(left);
    }
    rest.is_empty()
}

/// Whether a run has these bytes.
fn is_run_of(words: &[u64], run: Run, bytes: &[u8]) -> bool
    requires { HasRun words.now run }
    ensures { (xs : List ℕ) → IsRunOf words.now run xs → IsTrue result ↔ (xs ≡ bytes.now) }
{
    run.len == bytes.len() && is_run(run_slice(words, run), bytes)
}

/// Whether the constant at an index of the pool is a Utf8 of these bytes.
pub(crate) fn is_utf8(words: &[u64], constant: Option<Constant<Utf8Place>>, bytes: &[u8]) -> bool
    requires record { IsRecord words.now }
    requires index { (index : ℕ) × (constant ≡ constant_at_index_of words.now index) }
    ensures { (c : ClassFile) (index : ℕ) → IsRecordOf c words.now
        → constant ≡ constant_at_index_of words.now index → result ≡ names_utf8 c index bytes.now }
{
    match run_of_utf8(constant) {
        Some(run) => is_run_of(words, run, bytes),
        None => false,
    }
}

/// Whether the word of an index looks like that of a Utf8 of as many bytes. It may still be the
/// second word of a Long or a Double.
#[inline(always)]
fn may_be_utf8_of(words: &[u64], index: u16, bytes: &[u8]) -> bool
    requires { IsRecord words.now }
    ensures there { IsTrue result → index < first_of (get_or words.now 2 0) }
    ensures only { (c : ClassFile) → IsRecordOf c words.now → result ≡ false
        → names_utf8 c index bytes.now ≡ false }
{
    if index >= first(words[HEAD_COUNTS]) {
        return false;
    }
    let word = words[DIRECTORY_AT + index as usize];
    first(word) == Kind::Utf8.tag() && second(word) as usize == bytes.len()
}

/// Whether an index of the pool has a Utf8 of these bytes; `None` if deciding it takes more words
/// than may still be read (`left`). The words that are read are subtracted from `left`.
#[inline(always)]
pub(crate) fn is_utf8_of(words: &[u64], index: u16, bytes: &[u8], left: &mut usize) -> Option<bool>
    requires { IsRecord words.now }
    ensures { (c : ClassFile) → IsRecordOf c words.now
        → IfSome result (λ r. r ≡ names_utf8 c index bytes.now) }
{
    if !may_be_utf8_of(words, index, bytes) {
        return Some(false);
    }
    let wide = wide_words_before(words, DIRECTORY_AT + index as usize);
    *left = left.checked_sub(1 + wide + bytes.len() / 8)?;
    let is_second = wide % 2 == 1;
    Some(is_utf8(words, constant_at(words, index, is_second), bytes))
}

//! Numbers that distinguish names at a glance.
ghost use Rattle.std.specs.Prelude.{◌≡◌, ℕ, List};
ghost use Rattle.cm_record_layout.specs.Packing.{packed};
ghost use Rattle.cm_record.specs.Fingerprints.{further, folded, upper_half};
ghost use Rattle.cm_record.specs.Fingerprints.{fingerprint as fingerprint_of};
ghost use Rattle.cm_record.specs.Runs.{IsRunOf, HasRun};

use crate::run::{Run, run_slice};
use crate::utf8::skip_eight;
use cm_record_layout::word_of;

/// An odd number with well-mixed bits, so that each word affects all bits above it.
const STEP: u64 = 11_400_714_819_323_198_485;

/// Another such number.
const SPREAD: u64 = 14_029_467_366_897_019_727;

/// Folds in one more word.
#[tactic(auto, unfolding(crate::specs::Fingerprints::further))]
fn fold_word(number: u64, word: u64) -> u64
    ensures { result ≡ further number word }
{
    number.wrapping_mul(STEP).wrapping_add(word)
}

/// The upper half, after each bit has affected it.
#[tactic(auto, unfolding(crate::specs::Fingerprints::upper_half))]
fn upper_half(number: u64) -> u32
    ensures { result ≡ upper_half number }
{
    (number.wrapping_mul(SPREAD) >> 32) as u32
}

/// Folds in these words.
fn fold_words(from: u64, words: &[u64]) -> u64
    ensures { result ≡ folded from words.now }
{
    let mut number = from;
    for word in words {
        number = fold_word(number, *word);
    }
    number
}

/// Folds in the words of these bytes.
fn fold_bytes(from: u64, bytes: &[u8]) -> u64
    ensures { result ≡ folded from (packed bytes.now) }
{
    let (mut number, mut left) = (from, bytes);
    while !left.is_empty() {
        number = fold_word(number, word_of(left));
        left = skip_eight(left);
    }
    number
}

/// A number of 32 bits that depends on the seed and on the bytes alone. Whoever chooses both can
/// produce collisions, so names with the same number have to be compared.
#[tactic(auto, unfolding(crate::specs::Fingerprints::fingerprint))]
pub fn fingerprint(seed: u64, bytes: &[u8]) -> u32
    ensures { result ≡ fingerprint_of seed bytes.now }
{
    upper_half(fold_bytes(fold_word(seed, bytes.len() as u64), bytes))
}

/// The fingerprint of the bytes of a run.
pub(crate) fn run_fingerprint(seed: u64, words: &[u64], run: Run) -> u32
    requires { HasRun words.now run }
    ensures { (bytes : List ℕ) → IsRunOf words.now run bytes → result ≡ fingerprint_of seed bytes }
{
    let from = fold_word(seed, run.len as u64);
    upper_half(fold_words(from, run_slice(words, run)))
}

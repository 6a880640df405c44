//! The order of names by their bytes.
ghost use Rattle.std.specs.Prelude.{◌≡◌, ◌≤◌, ◌<◌, ◌*◌, ℕ, List, length, drop, get_or};
ghost use Rattle.std.specs.Ordering.{nat_cmp};
ghost use Rattle.std.specs.Cmp.Lexicographic.{slice_cmp};
ghost use Rattle.cm_record_layout.specs.Layout.{limit};
ghost use Rattle.cm_record_layout.specs.Packing.{word_from};
ghost use Rattle.cm_record.specs.Runs.{IsRunOf, HasRun};

use crate::code::byte_at;
use crate::run::Run;
use cm_record_layout::{word_of, words_from};
use std::cmp::Ordering;

/// How many of the first words are the same in both.
fn same_words(words: &[u64], others: &[u64], count: usize) -> usize
    requires one { count ≤ length words.now }
    requires two { count ≤ length others.now }
    ensures within { result ≤ count }
    ensures same { (k : ℕ) → k < result → get_or words.now k 0 ≡ get_or others.now k 0 }
{
    for at in 0..count {
        if words[at] != others[at] {
            return at;
        }
    }
    count
}

/// How many of the first words are those of these bytes, eight at a time.
fn same_as_bytes(words: &[u64], bytes: &[u8], count: usize) -> usize
    requires words { count ≤ length words.now }
    requires bytes { 8 * count ≤ length bytes.now }
    ensures within { result ≤ count }
    ensures same { (k : ℕ) → k < result
        → get_or words.now k 0 ≡ word_from (drop (8 * k) bytes.now) }
{
    for at in 0..count {
        if words[at] != word_of(&bytes[8 * at..]) {
            return at;
        }
    }
    count
}

/// The order of the bytes of two runs.
pub(crate) fn cmp_runs(words: &[u64], run: Run, others: &[u64], other: Run) -> Ordering
    requires one { HasRun words.now run }
    requires two { HasRun others.now other }
    requires short_one { length words.now ≤ limit }
    requires short_two { length others.now ≤ limit }
    ensures { (xs ys : List ℕ) → IsRunOf words.now run xs → IsRunOf others.now other ys
        → result ≡ slice_cmp nat_cmp xs ys }
{
    let shared = run.len.min(other.len);
    let same = same_words(
        words_from(words, run.at),
        words_from(others, other.at),
        shared / 8,
    );
    for i in 8 * same..shared {
        let (one, two) = (byte_at(words, run.at, i), byte_at(others, other.at, i));
        if one != two {
            return one.cmp(&two);
        }
    }
    run.len.cmp(&other.len)
}

/// The order of the bytes of a run and of these bytes.
pub(crate) fn cmp_run_to(words: &[u64], run: Run, bytes: &[u8]) -> Ordering
    requires run { HasRun words.now run }
    requires short { length words.now ≤ limit }
    ensures { (xs : List ℕ) → IsRunOf words.now run xs → result ≡ slice_cmp nat_cmp xs bytes.now }
{
    let shared = run.len.min(bytes.len());
    let same = same_as_bytes(words_from(words, run.at), bytes, shared / 8);
    for i in 8 * same..shared {
        let (one, two) = (byte_at(words, run.at, i), bytes[i]);
        if one != two {
            return one.cmp(&two);
        }
    }
    run.len.cmp(&bytes.len())
}

//! The bytes of a record's words, and the tags of its constants.
ghost use Rattle.std.specs.Prelude.{◌≡◌, ◌≤◌, ◌+◌, ◌*◌, ◌++◌, ◌%◌, ◌^◌, false, OnOk};
ghost use Rattle.std.specs.Prelude.{if◌then◌else◌, length, take, drop};
ghost use Rattle.cm_record_layout.specs.Packing.{word_bytes, bytes_of as bytes_of_word};
ghost use Rattle.cm_record_layout.specs.Layout.{IsRecord};
ghost use Rattle.cm_record_rules.specs.Laid.{laid_class, tags_of, tags_from};
ghost use Rattle.cm_record_rules.specs.Laid.{is_wide_tag as is_wide_tag_of};

use crate::attributes::words_from;
use crate::constant::{first_words, word_at};
use cm_record_layout::{HEAD_COUNTS, SLOT_1_AT, bytes_of, first};
use std::alloc::AllocError;

/// The tag in a directory word; 0 if that is the second of a Long or a Double.
fn tag_in(word: u64, is_second: bool) -> u8
    ensures { result ≡ (if is_second then 0 else word % 2 ^ 8) }
{
    if is_second { 0 } else { (word % 256) as u8 }
}

/// The tag of a Long or a Double.
fn is_wide_tag(tag: u8) -> bool
    ensures { result ≡ is_wide_tag_of tag }
{
    tag == 5 || tag == 6
}

/// Writes a word as eight bytes, the lowest first.
fn write_word(out: &mut [u8], at: usize, word: u64)
    requires { at + 8 ≤ length out.old }
    ensures { out.new ≡ take at out.old ++ bytes_of_word word ++ drop (at + 8) out.old }
{
    out[at..at + 8].copy_from_slice(&bytes_of(word));
}

/// Writes words, each as eight bytes with the lowest first.
fn copy_words(out: &mut [u8], words: &[u64])
    requires { length out.old ≡ 8 * length words.now }
    ensures { out.new ≡ word_bytes words.now }
{
    for (i, word) in words.iter().enumerate() {
        write_word(out, 8 * i, *word);
    }
}

/// Replaces the content of the scratch by the bytes of the words.
fn write_words(scratch: &mut Vec<u8>, words: &[u64]) -> Result<(), AllocError>
    ensures { OnOk result (scratch.new.items ≡ word_bytes words.now) }
{
    scratch.clear();
    scratch.resize(8 * words.len(), 0)?;
    copy_words(scratch, words);
    Ok(())
}

/// Appends the tags of the directory's words to the scratch.
fn write_tags(scratch: &mut Vec<u8>, directory: &[u64]) -> Result<(), AllocError>
    ensures { OnOk result
        (scratch.new.items ≡ scratch.old.items ++ tags_from false directory.now) }
{
    let mut is_second = false;
    for word in directory {
        let tag = tag_in(*word, is_second);
        scratch.push(tag)?;
        is_second = is_wide_tag(tag);
    }
    Ok(())
}

/// Fills the scratch with the bytes of a record's words, followed by the tags of its constants by
/// their indexes, from 0 on.
pub(crate) fn fill(scratch: &mut Vec<u8>, words: &[u64]) -> Result<(), AllocError>
    requires { IsRecord words.now }
    ensures { OnOk result
        (scratch.new.items ≡ word_bytes words.now ++ tags_of (laid_class words.now)) }
{
    write_words(scratch, words)?;
    scratch.push(0)?;
    let count = first(word_at(words, HEAD_COUNTS)).saturating_sub(1);
    let directory = first_words(words_from(words, SLOT_1_AT), usize::from(count));
    write_tags(scratch, directory)?;
    Ok(())
}

//! The name that bytes show.
ghost use Rattle.std.specs.Prelude.{◌≡◌, drop, option_copied};
ghost use Rattle.cm_shown_names.specs.Shown.{word_in as word_seen};
ghost use Rattle.cm_shown_names.specs.Shown.{text_at as text_at_place, text_shown as text_of};
ghost use Rattle.cm_shown_names.specs.Shown.{class_shown as class_name_of_word};
ghost use Rattle.cm_shown_names.specs.Shown.{name_shown as name_of};

use cm_class::Kind;
use cm_record_layout::{DIRECTORY_AT, HEAD_CLASS, first, second, third, upper, word_of};

/// The bytes from a place on; none past the end.
fn bytes_from(bytes: &[u8], at: usize) -> &[u8]
    ensures { result.now ≡ drop at bytes.now }
{
    if at <= bytes.len() {
        bytes.split_at(at).1
    } else {
        &[]
    }
}

/// The word at a place; bits past the end are 0.
fn word_in(bytes: &[u8], place: u32) -> u64
    ensures { result ≡ word_seen bytes.now place }
{
    word_of(bytes_from(bytes, 8 * place as usize))
}

/// The bytes at a place, if there are that many.
fn text_at(bytes: &[u8], at: u32, len: u16) -> Option<&[u8]>
    ensures { option_copied result ≡ text_at_place bytes.now at len }
{
    let at = at as usize;
    let len = usize::from(len);
    if at + len <= bytes.len() {
        Some(bytes.split_at(at).1.split_at(len).0)
    } else {
        None
    }
}

/// The text of a Utf8, if the word is one's.
fn text_shown(bytes: &[u8], word: u64) -> Option<&[u8]>
    ensures { option_copied result ≡ text_of bytes.now word }
{
    if first(word) != u16::from(Kind::Utf8.tag()) {
        return None;
    }
    // 32 bits keep the sum of place and length small.
    let at = upper(word).wrapping_mul(8);
    text_at(bytes, at, second(word))
}

/// The name of a Class, if the word is one's.
fn class_shown(bytes: &[u8], word: u64) -> Option<&[u8]>
    ensures { option_copied result ≡ class_name_of_word bytes.now word }
{
    if first(word) != u16::from(Kind::Class.tag()) {
        return None;
    }
    text_shown(
        bytes,
        word_in(bytes, DIRECTORY_AT as u32 + u32::from(third(word))),
    )
}

/// The name that bytes show as that of the class whose record they are. Bytes that are no record
/// may show one too, or none.
#[tactic(auto, unfolding(crate::specs::Shown::name_shown))]
pub fn name_shown(bytes: &[u8]) -> Option<&[u8]>
    ensures { option_copied result ≡ name_of bytes.now }
{
    let itself = second(word_in(bytes, HEAD_CLASS as u32));
    class_shown(
        bytes,
        word_in(bytes, DIRECTORY_AT as u32 + u32::from(itself)),
    )
}

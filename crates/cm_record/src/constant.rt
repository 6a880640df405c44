//! The constants of a record, each from one word of the directory.
ghost use Rattle.std.specs.Prelude.{◌≡◌, ◌≤◌, ◌+◌, ◌%◌, ◌==◌, ◌&&◌, not, length, get_or};
ghost use Rattle.cm_record_layout.specs.Packing.{first_of};
ghost use Rattle.cm_record.specs.Constants.{is_wide_word as is_wide_word_of};
ghost use Rattle.cm_record.specs.Constants.{is_second_word as is_second_word_of};
ghost use Rattle.cm_record.specs.Constants.{kept_of_kind as kept_of_kind_of};
ghost use Rattle.cm_record.specs.Constants.{word_kept as word_kept_of};
ghost use Rattle.cm_record.specs.Constants.{constant_at_index as constant_at_index_of};

use cm_class::{Constant, Kind};
use cm_record_layout::{DIRECTORY_AT, HEAD_COUNTS, THIRD, first, fourth, second, third, upper};

/// Where the bytes of a Utf8 are in a record.
#[derive(Clone, Copy, Debug, PartialEq, Eq)]
pub struct Utf8Place {
    /// Where they begin, counted in bytes from the record's first byte.
    pub at: u32,
    /// How many there are.
    pub len: u16,
}

/// What a directory word of this kind denotes, with the word after it.
fn constant_of_kind(kind: Kind, word: u64, next: u64) -> Constant<Utf8Place>
    ensures { result ≡ kept_of_kind_of kind word next }
{
    let (one, two) = (third(word), fourth(word));
    match kind {
        Kind::Utf8 => Constant::Utf8(Utf8Place {
            // A record has fewer than 2^29 words.
            at: (u64::from(upper(word)) * 8 % THIRD) as u32,
            len: second(word),
        }),
        Kind::Integer => Constant::Integer(upper(word)),
        Kind::Float => Constant::Float(upper(word)),
        Kind::Long => Constant::Long(next),
        Kind::Double => Constant::Double(next),
        Kind::Class => Constant::Class { name: one },
        Kind::String => Constant::String { utf8: one },
        Kind::Fieldref => Constant::Fieldref {
            class: one,
            name_and_type: two,
        },
        Kind::Methodref => Constant::Methodref {
            class: one,
            name_and_type: two,
        },
        Kind::InterfaceMethodref => Constant::InterfaceMethodref {
            class: one,
            name_and_type: two,
        },
        Kind::NameAndType => Constant::NameAndType {
            name: one,
            descriptor: two,
        },
        Kind::MethodHandle => Constant::MethodHandle {
            kind: (word / THIRD % 256) as u8,
            reference: two,
        },
        Kind::MethodType => Constant::MethodType { descriptor: one },
        Kind::InvokeDynamic => Constant::InvokeDynamic {
            bootstrap_method: one,
            name_and_type: two,
        },
    }
}

/// A constant, from its directory word and the next one.
#[tactic(auto, unfolding(crate::specs::Constants::word_kept))]
fn word_kept(word: u64, next: u64) -> Option<Constant<Utf8Place>>
    ensures { result ≡ word_kept_of word next }
{
    let kind = Kind::from_tag(first(word))?;
    Some(constant_of_kind(kind, word, next))
}

/// The directory word of a Long or a Double.
fn is_wide_word(word: u64) -> bool
    ensures { result ≡ is_wide_word_of word }
{
    word == u64::from(Kind::Long.tag()) || word == u64::from(Kind::Double.tag())
}

/// How many words before a place of the directory could all be words of Longs and Doubles, with no
/// other word between. In most classes there are none. If the number is odd, the word at the place
/// is the second of a Long or a Double.
pub(crate) fn wide_words_before(words: &[u64], place: usize) -> usize
    requires { place ≤ length words.now }
    ensures within { result ≤ place }
    ensures odd { is_second_word_of words.now place ≡ (result % 2 == 1) }
{
    let mut before = place;
    while before > 0 && is_wide_word(words[before - 1]) {
        before -= 1;
    }
    place - before
}

/// Whether the next word of the directory is the second of a Long or a Double.
pub(crate) fn is_next_second(word: u64, is_second: bool) -> bool
    ensures { result ≡ (is_wide_word_of word && not is_second) }
{
    is_wide_word(word) && !is_second
}

/// The constant at an index of the pool, if it is known whether its word is the second of a Long or
/// a Double.
pub(crate) fn constant_at(words: &[u64], index: u16, is_second: bool) -> Option<Constant<Utf8Place>>
    requires within { 8 + first_of (get_or words.now 2 0) ≤ length words.now }
    requires second { is_second ≡ is_second_word_of words.now (8 + index) }
    ensures { result ≡ constant_at_index_of words.now index }
{
    if is_second || index == 0 || index >= first(words[HEAD_COUNTS]) {
        return None;
    }
    let place = DIRECTORY_AT + index as usize;
    let next = if place + 1 < words.len() {
        words[place + 1]
    } else {
        0
    };
    word_kept(words[place], next)
}

/// The constant at an index of the pool.
pub(crate) fn constant_at_index(words: &[u64], index: u16) -> Option<Constant<Utf8Place>>
    requires { 8 + first_of (get_or words.now 2 0) ≤ length words.now }
    ensures { result ≡ constant_at_index_of words.now index }
{
    if index >= first(words[HEAD_COUNTS]) {
        return None;
    }
    let is_second = wide_words_before(words, DIRECTORY_AT + index as usize) % 2 == 1;
    constant_at(words, index, is_second)
}

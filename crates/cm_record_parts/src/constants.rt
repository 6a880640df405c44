//! The constants of the pool, each from one word of the directory.
ghost use Rattle.std.specs.Prelude.{◌≡◌, ◌≤◌, ◌-◌, ◌%◌, ◌==◌, IsTrue};
ghost use Rattle.cm_class.specs.declared.class_file.ClassFile.{ClassFile};
ghost use Rattle.cm_record_layout.specs.Layout.{IsRecordOf};
ghost use Rattle.cm_record.specs.Constants.{is_wide_word as is_wide_word_of};
ghost use Rattle.cm_record.specs.Constants.{is_second_word as is_second_word_of};
ghost use Rattle.cm_record.specs.Constants.{kept_of_kind as kept_of_kind_of};
ghost use Rattle.cm_record.specs.Constants.{word_kept as word_kept_of};
ghost use Rattle.cm_record.specs.Constants.{constant_at_index as constant_at_index_of};
ghost use Rattle.cm_record.specs.Constants.{constant_kept};
ghost use Rattle.cm_record_parts.specs.Pool.{step_of, IsStart, FindsNext};

use crate::words::word_at;
use cm_class::{Constant, Kind};
use cm_record::Utf8Place;
use cm_record_layout::{DIRECTORY_AT, HEAD_COUNTS, THIRD, first, fourth, second, third, upper};

// What a directory word of this kind denotes, with the word after it.
fn constant_of_kind(kind: Kind, word: u64, next: u64) -> Constant<Utf8Place>
    ensures { result ≡ kept_of_kind_of kind word next }
{
    let (one, two) = (third(word), fourth(word));
    match kind {
        Kind::Utf8 => Constant::Utf8(Utf8Place {
            // A record has fewer than 2^29 words.
            at: (u64::from(upper(word)) * 8 % THIRD) as u32,
            len: second(word),
        }),
        Kind::Integer => Constant::Integer(upper(word)),
        Kind::Float => Constant::Float(upper(word)),
        Kind::Long => Constant::Long(next),
        Kind::Double => Constant::Double(next),
        Kind::Class => Constant::Class { name: one },
        Kind::String => Constant::String { utf8: one },
        Kind::Fieldref => Constant::Fieldref {
            class: one,
            name_and_type: two,
        },
        Kind::Methodref => Constant::Methodref {
            class: one,
            name_and_type: two,
        },
        Kind::InterfaceMethodref => Constant::InterfaceMethodref {
            class: one,
            name_and_type: two,
        },
        Kind::NameAndType => Constant::NameAndType {
            name: one,
            descriptor: two,
        },
        Kind::MethodHandle => Constant::MethodHandle {
            kind: (word / THIRD % 256) as u8,
            reference: two,
        },
        Kind::MethodType => Constant::MethodType { descriptor: one },
        Kind::InvokeDynamic => Constant::InvokeDynamic {
            bootstrap_method: one,
            name_and_type: two,
        },
    }
}

// A constant, from its directory word and the next one.
#[tactic(auto, unfolding(cm_record::specs::Constants::word_kept))]
fn word_kept(word: u64, next: u64) -> Option<Constant<Utf8Place>>
    ensures { result ≡ word_kept_of word next }
{
    let kind = Kind::from_tag(first(word))?;
    Some(constant_of_kind(kind, word, next))
}

// The directory word of a Long or a Double.
fn is_wide_word(word: u64) -> bool
    ensures { result ≡ is_wide_word_of word }
{
    word == u64::from(Kind::Long.tag()) || word == u64::from(Kind::Double.tag())
}

// Whether the word at a place is the second of a Long or a Double. It goes back over the words that
// could all be words of these, with no other word between; in most classes there are none.
fn is_second_word(words: &[u64], place: usize) -> bool
    ensures { result ≡ is_second_word_of words.now place }
{
    let mut before = place;
    while before > 0 && is_wide_word(word_at(words, before - 1)) {
        before -= 1;
    }
    (place - before) % 2 == 1
}

// The constant at an index of the pool.
pub(crate) fn constant_at_index(words: &[u64], index: u16) -> Option<Constant<Utf8Place>>
    ensures { result ≡ constant_at_index_of words.now index }
{
    if index == 0 || index >= first(word_at(words, HEAD_COUNTS)) {
        return None;
    }
    let place = DIRECTORY_AT + index as usize;
    if is_second_word(words, place) {
        return None;
    }
    word_kept(word_at(words, place), word_at(words, place + 1))
}

/// The constant at an index of the pool, which counts from 1; `None` at 0, at the second index of a
/// Long or a Double, and past the end of the pool.
pub fn constant(words: &[u64], index: u16) -> Option<Constant<Utf8Place>>
    ensures { (c : ClassFile) → IsRecordOf c words.now → result ≡ constant_kept c index }
{
    constant_at_index(words, index)
}

/// A constant of the pool, with its index.
#[derive(Clone, Copy, Debug, PartialEq, Eq)]
pub struct PoolConstant {
    pub index: u16,
    pub constant: Constant<Utf8Place>,
}

// How far after the constant at an index the next one is; 1 at index 0.
fn step_after(words: &[u64], index: u16) -> u16
    ensures { result ≡ step_of words.now index }
{
    if index != 0 && is_wide_word(word_at(words, DIRECTORY_AT + index as usize)) {
        2
    } else {
        1
    }
}

/// The first constant of the pool after the one at an index, or the first one of all after 0;
/// `None` after the last one. It reads three words, whatever the pool has.
pub fn next_constant(words: &[u64], after: u16) -> Option<PoolConstant>
    ensures { (c : ClassFile) → IsRecordOf c words.now → IsStart c after
        → FindsNext c after result }
{
    let Some(index) = after.checked_add(step_after(words, after)) else {
        return None;
    };
    if index >= first(word_at(words, HEAD_COUNTS)) {
        return None;
    }
    let place = DIRECTORY_AT + index as usize;
    let Some(constant) = word_kept(word_at(words, place), word_at(words, place + 1)) else {
        return None;
    };
    Some(PoolConstant { index, constant })
}

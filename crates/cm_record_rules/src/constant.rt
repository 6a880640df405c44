//! The constants of a record, with the bytes of its Utf8s.
ghost use Rattle.std.specs.Prelude.{◌≡◌, get_or, take};
ghost use Rattle.cm_record_rules.specs.Laid.{constant_of as constant_of_words};
ghost use Rattle.cm_record_rules.specs.Laid.{run_bytes as bytes_of_run};

use cm_class::{Bytes, Constant, Kind};
use cm_record_layout::{fourth, second, third, upper};

/// The bytes of a run that begins at a word; if it ends past them, those that are there.
#[tactic(auto, using(std::proofs::lemmas::List::take_rest))]
pub(crate) fn run_bytes(bytes: &[u8], at: u64, len: usize) -> &[u8]
    ensures { result.now ≡ bytes_of_run bytes.now at len }
{
    let Some(at) = (at as usize).checked_mul(8) else {
        return &[];
    };
    if at > bytes.len() {
        return &[];
    }
    let rest = bytes.split_at(at).1;
    rest.split_at(len.min(rest.len())).0
}

/// The word at a place; 0 after the words.
pub(crate) fn word_at(words: &[u64], place: usize) -> u64
    ensures { result ≡ get_or words.now place 0 }
{
    match words.get(place) {
        Some(word) => *word,
        None => 0,
    }
}

/// The first `count` words; all if there are fewer.
#[tactic(auto, using(std::proofs::lemmas::List::take_rest))]
pub(crate) fn first_words(words: &[u64], count: usize) -> &[u64]
    ensures { result.now ≡ take count words.now }
{
    words.split_at(count.min(words.len())).0
}

/// What a directory word of this kind denotes, with the word after it.
#[inline(always)]
pub(crate) fn constant_of<'a>(
    bytes: &'a [u8],
    word: u64,
    next: u64,
    kind: Kind,
) -> Constant<Bytes<'a>>
    ensures { result ≡ constant_of_words bytes.now word next kind }
{
    let (one, two) = (third(word), fourth(word));
    match kind {
        Kind::Utf8 => Constant::Utf8(Bytes::of(run_bytes(
            bytes,
            u64::from(upper(word)),
            usize::from(second(word)),
        ))),
        Kind::Integer => Constant::Integer(upper(word)),
        Kind::Float => Constant::Float(upper(word)),
        Kind::Long => Constant::Long(next),
        Kind::Double => Constant::Double(next),
        Kind::Class => Constant::Class { name: one },
        Kind::String => Constant::String { utf8: one },
        Kind::Fieldref => Constant::Fieldref {
            class: one,
            name_and_type: two,
        },
        Kind::Methodref => Constant::Methodref {
            class: one,
            name_and_type: two,
        },
        Kind::InterfaceMethodref => Constant::InterfaceMethodref {
            class: one,
            name_and_type: two,
        },
        Kind::NameAndType => Constant::NameAndType {
            name: one,
            descriptor: two,
        },
        Kind::MethodHandle => Constant::MethodHandle {
            kind: (one % 256) as u8,
            reference: two,
        },
        Kind::MethodType => Constant::MethodType { descriptor: one },
        Kind::InvokeDynamic => Constant::InvokeDynamic {
            bootstrap_method: one,
            name_and_type: two,
        },
    }
}

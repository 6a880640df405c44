//! The words of the directory, one by one.
ghost use Rattle.std.specs.Prelude.{◌≡◌, ◌≤◌, ◌<◌, ◌+◌, ◌*◌, ◌^◌};
ghost use Rattle.cm_record_layout.specs.Layout.{limit};
ghost use Rattle.cm_record_layout.specs.Packing.{first_of, second_of, third_of, fourth_of};
ghost use Rattle.cm_record_layout.specs.Packing.{upper_of};
ghost use Rattle.cm_record_reading.specs.Reading.{candidate as candidate_of};
ghost use Rattle.cm_record_reading.specs.Reading.{entry_of_kind as entry_of_kind_of};
ghost use Rattle.cm_record_reading.specs.Reading.{entry_word as entry_word_of, entry_of};
ghost use Rattle.cm_record_reading.specs.Reading.{attribute_word as attribute_word_of};

use cm_class::{Bytes, Constant, Kind};
use cm_record_layout::{SECOND, THIRD, first, fourth, second, third, upper, whole_word};

/// What a word of the directory denotes: a Utf8 with its length, the beginning of a wide constant,
/// or a whole constant.
#[derive(Debug, Drop)]
pub(crate) enum DirectoryEntry<'a> {
    Utf8(u16),
    Long,
    Double,
    Whole(Constant<Bytes<'a>>),
}

/// What a word of this kind denotes.
fn entry_of_kind<'a>(kind: Kind, word: u64) -> DirectoryEntry<'a>
    ensures { result ≡ entry_of_kind_of kind word }
{
    let (one, two) = (third(word), fourth(word));
    let whole = match kind {
        Kind::Utf8 => return DirectoryEntry::Utf8(second(word)),
        Kind::Long => return DirectoryEntry::Long,
        Kind::Double => return DirectoryEntry::Double,
        Kind::Integer => Constant::Integer(upper(word)),
        Kind::Float => Constant::Float(upper(word)),
        Kind::Class => Constant::Class { name: one },
        Kind::String => Constant::String { utf8: one },
        Kind::Fieldref => Constant::Fieldref {
            class: one,
            name_and_type: two,
        },
        Kind::Methodref => Constant::Methodref {
            class: one,
            name_and_type: two,
        },
        Kind::InterfaceMethodref => Constant::InterfaceMethodref {
            class: one,
            name_and_type: two,
        },
        Kind::NameAndType => Constant::NameAndType {
            name: one,
            descriptor: two,
        },
        Kind::MethodHandle => Constant::MethodHandle {
            kind: (word / THIRD % 256) as u8,
            reference: two,
        },
        Kind::MethodType => Constant::MethodType { descriptor: one },
        Kind::InvokeDynamic => Constant::InvokeDynamic {
            bootstrap_method: one,
            name_and_type: two,
        },
    };
    DirectoryEntry::Whole(whole)
}

/// What a word may denote, by its tag.
#[tactic(auto, unfolding(crate::specs::Reading::candidate))]
fn candidate<'a>(word: u64) -> Option<DirectoryEntry<'a>>
    ensures { result ≡ candidate_of word }
{
    let kind = Kind::from_tag(first(word))?;
    Some(entry_of_kind(kind, word))
}

/// The word of an entry whose run would begin at `at`.
fn entry_word(at: u64, entry: &DirectoryEntry) -> u64
    requires { at ≤ limit }
    ensures { result ≡ entry_word_of at entry.now }
{
    match entry {
        DirectoryEntry::Utf8(count) => {
            u64::from(Kind::Utf8.tag()) + SECOND * u64::from(*count) + THIRD * at
        }
        DirectoryEntry::Long => u64::from(Kind::Long.tag()),
        DirectoryEntry::Double => u64::from(Kind::Double.tag()),
        DirectoryEntry::Whole(constant) => whole_word(constant),
    }
}

/// What a word of the directory denotes, if its run would begin at `at`.
#[tactic(auto, unfolding(crate::specs::Reading::entry_of))]
pub(crate) fn entry_at<'a>(at: u64, word: u64) -> Option<DirectoryEntry<'a>>
    requires { at ≤ limit }
    ensures { result ≡ entry_of at word }
{
    let entry = candidate(word)?;
    if entry_word(at, &entry) == word {
        Some(entry)
    } else {
        None
    }
}

/// The word of an attribute's name and length.
pub(crate) fn attribute_word(name: u16, count: u32) -> u64
    ensures { result ≡ attribute_word_of name count }
{
    u64::from(name) + THIRD * u64::from(count)
}

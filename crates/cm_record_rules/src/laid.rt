//! A class in place, in the words of its record.
ghost use Rattle.std.specs.Prelude.{◌≡◌, ◌<◌, ◌^◌, length, get_or, slice_get};

use crate::attributes::{LaidAttributes, words_from};
use crate::constant::{constant_of, first_words, run_bytes, word_at};
use crate::members::LaidMembers;
use cm_class::{Bytes, Constant, Kind};
use cm_record_layout::{
    DIRECTORY_AT, HEAD_CLASS, HEAD_COUNTS, HEAD_INTERFACES_AT, HEAD_MEMBERS_AT, HEAD_RUNS_AT,
    first, fourth, second, third, upper,
};
use std::marker::Model;

/// The tag of a Utf8.
pub(crate) const UTF8_TAG: u8 = 1;

/// The tag of a NameAndType.
const NAME_AND_TYPE_TAG: u8 = 12;

/// A class in place, in the words of its record. Contracts see the `ClassFile` that it is.
#[derive(Drop)]
pub(crate) struct LaidClass<'a> {
    words: &'a [u64],
    /// The bytes of these words.
    bytes: &'a [u8],
    /// The tag of each constant, by its index; 0 if there is none.
    tags: &'a [u8],
}

impl<'a> Model for LaidClass<'a> {
    ghost use Rattle.cm_class.specs.declared.class_file.ClassFile.{ClassFile};
    ghost use Rattle.cm_record_rules.specs.Laid.{laid_class, IsLaid};

    ghost Value = { ClassFile };

    ghost view = { λ c. laid_class c.words.now };

    ghost invariant = { λ c. IsLaid c.words.now c.bytes.now c.tags.now };
}

impl<'a> LaidClass<'a> {
    ghost use Rattle.std.specs.Prelude.{◌≡◌, ◌<◌, ◌^◌, ◌*◌, length, get_or, take};
    ghost use Rattle.cm_class.specs.Names.{constant_named, names, utf8, name_index_at};
    ghost use Rattle.cm_class.specs.Names.{descriptor_index_at};
    ghost use Rattle.cm_record_layout.specs.Packing.{word_bytes};
    ghost use Rattle.cm_record_layout.specs.Layout.{IsRecord, utf8_runs};
    ghost use Rattle.cm_record_rules.specs.Laid.{laid_class, tags_of};
    ghost use Rattle.cm_record_rules.specs.Plain.{count_characters, texts};

    /// The class of a record's words, with their bytes and the tags of its constants.
    pub(crate) fn new(words: &'a [u64], bytes: &'a [u8], tags: &'a [u8]) -> LaidClass<'a>
        requires record { IsRecord words.now }
        requires bytes { bytes.now ≡ word_bytes words.now }
        requires tags { tags.now ≡ tags_of (laid_class words.now) }
        ensures { result ≡ laid_class words.now }
    {
        LaidClass { words, bytes, tags }
    }

    /// The access flags.
    pub(crate) fn flags(&self) -> u16
        ensures { result ≡ self.now.flags }
    {
        first(word_at(self.words, HEAD_CLASS))
    }

    /// Index of the class in the pool.
    pub(crate) fn this_class(&self) -> u16
        ensures { result ≡ self.now.this_class }
    {
        second(word_at(self.words, HEAD_CLASS))
    }

    /// Index of the super class in the pool; 0 if there is none.
    pub(crate) fn super_class(&self) -> u16
        ensures { result ≡ self.now.super_class }
    {
        third(word_at(self.words, HEAD_CLASS))
    }

    /// The last index of the pool, which equals the number of slots.
    pub(crate) fn last_index(&self) -> u16
        ensures { result ≡ length self.now.slots }
    {
        first(word_at(self.words, HEAD_COUNTS)).saturating_sub(1)
    }

    /// The tag of the constant at an index; 0 if there is none.
    pub(crate) fn tag(&self, index: u16) -> u8
        ensures { result ≡ get_or (tags_of self.now) index 0 }
    {
        match self.tags.get(usize::from(index)) {
            Some(tag) => *tag,
            None => 0,
        }
    }

    /// How many bytes its record has.
    pub(crate) fn len(&self) -> usize {
        self.bytes.len()
    }

    /// Whether an index names a constant of this kind.
    #[tactic(auto, using(crate::proofs::Tags::names_by_tag))]
    pub(crate) fn names(&self, index: u16, kind: Kind) -> bool
        ensures { result ≡ names kind self.now index }
    {
        u16::from(self.tag(index)) == kind.tag()
    }

    /// The constant that an index of the pool names; `None` at 0, after a Long or a Double, and
    /// past the end of the pool.
    #[inline(always)]
    pub(crate) fn constant(&self, index: u16) -> Option<Constant<Bytes<'a>>>
        ensures { result ≡ constant_named self.now index }
    {
        match Kind::from_tag(u16::from(self.tag(index))) {
            Some(kind) => {
                let place = DIRECTORY_AT + usize::from(index);
                let (word, next) = (word_at(self.words, place), word_at(self.words, place + 1));
                Some(constant_of(self.bytes, word, next, kind))
            }
            None => None,
        }
    }

    /// The bytes of the Utf8 that an index names; empty if it names no Utf8.
    pub(crate) fn utf8(&self, index: u16) -> &'a [u8]
        ensures { result.now ≡ utf8 self.now index }
    {
        if self.tag(index) != UTF8_TAG {
            return &[];
        }
        let word = word_at(self.words, DIRECTORY_AT + usize::from(index));
        run_bytes(
            self.bytes,
            u64::from(upper(word)),
            usize::from(second(word)),
        )
    }

    /// The bytes of the Utf8 that an index names, with those that fill up its last word.
    pub(crate) fn filled_utf8(&self, index: u16) -> &'a [u8]
        ensures { take (length (utf8 self.now index)) result.now ≡ utf8 self.now index }
    {
        if self.tag(index) != UTF8_TAG {
            return &[];
        }
        let word = word_at(self.words, DIRECTORY_AT + usize::from(index));
        run_bytes(
            self.bytes,
            u64::from(upper(word)),
            (usize::from(second(word)) + 7) / 8 * 8,
        )
    }

    /// The bytes of the words of all Utf8s, of which there are `len`: those of the Utf8s, and zeros
    /// that fill up the last word of each.
    pub(crate) fn utf8_words(&self, len: usize) -> &'a [u8]
        requires { len ≡ 8 * length (utf8_runs self.now.slots) }
        ensures { count_characters result.now ≡ count_characters (texts self.now.slots) }
    {
        run_bytes(self.bytes, word_at(self.words, HEAD_RUNS_AT), len)
    }

    /// The indexes of the name and of the descriptor in the NameAndType that an index names; both 0
    /// if it names none.
    pub(crate) fn name_and_type(&self, index: u16) -> (u16, u16)
        ensures name { result.0 ≡ name_index_at self.now index }
        ensures descriptor { result.1 ≡ descriptor_index_at self.now index }
    {
        if self.tag(index) != NAME_AND_TYPE_TAG {
            return (0, 0);
        }
        let word = word_at(self.words, DIRECTORY_AT + usize::from(index));
        (third(word), fourth(word))
    }

    /// The indexes of the interfaces.
    pub(crate) fn interfaces(&self) -> &'a [u64]
        ensures { result.now ≡ self.now.interfaces }
    {
        let count = fourth(word_at(self.words, HEAD_CLASS));
        let at = word_at(self.words, HEAD_INTERFACES_AT) as usize;
        first_words(words_from(self.words, at), usize::from(count))
    }

    /// The fields, in order.
    pub(crate) fn fields(&self) -> LaidMembers<'a>
        ensures { result ≡ self.now.fields }
    {
        let count = second(word_at(self.words, HEAD_COUNTS));
        let at = word_at(self.words, HEAD_MEMBERS_AT) as usize;
        LaidMembers::new(self.words, self.bytes, at, count)
    }

    /// The methods, in order.
    pub(crate) fn methods(&self) -> LaidMembers<'a>
        ensures { result ≡ self.now.methods }
    {
        let counts = word_at(self.words, HEAD_COUNTS);
        let fields = word_at(self.words, HEAD_MEMBERS_AT) as usize;
        let at = fields.saturating_add(2 * usize::from(second(counts)));
        LaidMembers::new(self.words, self.bytes, at, third(counts))
    }

    /// The attributes of the class itself, in order.
    pub(crate) fn attributes(&self) -> LaidAttributes<'a>
        ensures same { result ≡ self.now.attributes }
        ensures short { length result < 2 ^ 16 }
    {
        let count = fourth(word_at(self.words, HEAD_COUNTS));
        let behind = word_at(self.words, HEAD_RUNS_AT) as usize;
        let at = behind.saturating_sub(2 * usize::from(count));
        LaidAttributes::new(self.words, self.bytes, at, count)
    }
}

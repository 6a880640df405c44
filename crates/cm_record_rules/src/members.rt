//! Fields and methods in place, in the words of a record.
ghost use Rattle.std.specs.Prelude.{◌≡◌, ◌<◌, ◌^◌, length, drop};
ghost use Rattle.std.specs.Iterator.{YieldsFirst, item_count};
ghost use Rattle.cm_record_rules.specs.Laid.{member_in, members_in};

use crate::attributes::{LaidAttributes, words_from};
use cm_record_layout::{first, fourth, second, third};
use std::marker::Model;

/// A field or a method, in the words of a record. Contracts see the `Member` that it is.
#[derive(Drop)]
pub(crate) struct LaidMember<'a> {
    all: &'a [u64],
    bytes: &'a [u8],
    word: u64,
    /// Where its attributes begin.
    at: u64,
}

impl<'a> Model for LaidMember<'a> {
    ghost use Rattle.cm_class.specs.declared.class_file.Member.{Member};
    ghost use Rattle.cm_record_rules.specs.Laid.{member_in};

    ghost Value = { Member };

    ghost view = { λ m. member_in m.all.now m.bytes.now m.word m.at };
}

impl<'a> LaidMember<'a> {
    /// The access flags.
    pub(crate) fn flags(&self) -> u16
        ensures { result ≡ self.now.flags }
    {
        first(self.word)
    }

    /// Index of its name in the pool.
    pub(crate) fn name(&self) -> u16
        ensures { result ≡ self.now.name }
    {
        second(self.word)
    }

    /// Index of its descriptor in the pool.
    pub(crate) fn descriptor(&self) -> u16
        ensures { result ≡ self.now.descriptor }
    {
        third(self.word)
    }

    /// Its attributes, in order.
    pub(crate) fn attributes(&self) -> LaidAttributes<'a>
        ensures same { result ≡ self.now.attributes }
        ensures short { length result < 2 ^ 16 }
    {
        LaidAttributes::new(self.all, self.bytes, self.at as usize, fourth(self.word))
    }
}

/// The fields or the methods of a class, in order, read one after another from a record's words; an
/// iterator over them. Contracts see the list of the members that are left.
#[derive(Drop)]
pub(crate) struct LaidMembers<'a> {
    count: u16,
    all: &'a [u64],
    bytes: &'a [u8],
    /// The words of the next one, and those after them.
    rest: &'a [u64],
}

impl<'a> Model for LaidMembers<'a> {
    ghost use Rattle.std.specs.Prelude.{List};
    ghost use Rattle.cm_class.specs.declared.class_file.Member.{Member};

    ghost Value = { List Member };

    ghost use Rattle.cm_record_rules.specs.Laid.{members_in};

    ghost view = { λ m. members_in m.all.now m.bytes.now m.count m.rest.now };
}

impl<'a> LaidMembers<'a> {
    /// `count` members, whose words begin at a place.
    pub(crate) fn new(words: &'a [u64], bytes: &'a [u8], at: usize, count: u16) -> LaidMembers<'a>
        ensures { result ≡ members_in words.now bytes.now count (drop at words.now) }
    {
        LaidMembers {
            count,
            all: words,
            bytes,
            rest: words_from(words, at),
        }
    }

    /// How many there are.
    pub(crate) fn len(&self) -> usize
        ensures len { result ≡ length self.now }
        ensures short { length self.now < 2 ^ 16 }
    {
        usize::from(self.count).min(self.rest.len() / 2)
    }

    /// An iterator over the same members.
    pub(crate) fn iter(&self) -> LaidMembers<'a>
        ensures { result ≡ self.now }
    {
        LaidMembers {
            count: self.count,
            all: self.all,
            bytes: self.bytes,
            rest: self.rest,
        }
    }
}

impl<'a> Iterator for LaidMembers<'a> {
    type Item = LaidMember<'a>;

    ghost next_gives = { YieldsFirst (λ these. these) };

    ghost remaining = { item_count (λ these. these) };

    fn next(&mut self) -> Option<LaidMember<'a>> {
        if self.count == 0 {
            return None;
        }
        if self.rest.len() < 2 {
            return None;
        }
        let item = LaidMember {
            all: self.all,
            bytes: self.bytes,
            word: self.rest[0],
            at: self.rest[1],
        };
        self.count -= 1;
        self.rest = words_from(self.rest, 2);
        Some(item)
    }
}

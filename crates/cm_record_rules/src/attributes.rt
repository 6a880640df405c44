//! Attributes in place, in the words of a record.
ghost use Rattle.std.specs.Prelude.{◌≡◌, ◌<◌, ◌^◌, length, drop, slice_get};
ghost use Rattle.std.specs.Iterator.{YieldsFirst, item_count};
ghost use Rattle.cm_record_rules.specs.Laid.{attributes_in};

use crate::constant::run_bytes;
use cm_class::{Attribute, Bytes};
use cm_record_layout::{first, upper};
use std::marker::Model;

/// The attributes of a class, a field or a method, in order, read one after another from a record's
/// words; an iterator over them. Contracts see the list of the attributes that are left.
#[derive(Drop)]
pub(crate) struct LaidAttributes<'a> {
    count: u16,
    /// The bytes of the record.
    bytes: &'a [u8],
    /// The words of the next one, and those after them.
    rest: &'a [u64],
}

impl<'a> Model for LaidAttributes<'a> {
    ghost use Rattle.std.specs.Prelude.{List};
    ghost use Rattle.cm_class.specs.declared.class_file.Attribute.{Attribute};

    ghost Value = { List Attribute };

    ghost use Rattle.cm_record_rules.specs.Laid.{attributes_in};

    ghost view = { λ a. attributes_in a.bytes.now a.count a.rest.now };
}

/// The words from a place on; none past the end.
#[tactic(auto, using(std::proofs::lemmas::List::take_rest))]
pub(crate) fn words_from(words: &[u64], at: usize) -> &[u64]
    ensures { result.now ≡ drop at words.now }
{
    if at > words.len() {
        return &[];
    }
    words.split_at(at).1
}

impl<'a> LaidAttributes<'a> {
    /// `count` attributes, whose words begin at a place.
    pub(crate) fn new(
        words: &'a [u64],
        bytes: &'a [u8],
        at: usize,
        count: u16,
    ) -> LaidAttributes<'a>
        ensures same { result ≡ attributes_in bytes.now count (drop at words.now) }
        ensures short { length result < 2 ^ 16 }
    {
        LaidAttributes {
            count,
            bytes,
            rest: words_from(words, at),
        }
    }

    /// How many there are.
    pub(crate) fn len(&self) -> usize
        ensures len { result ≡ length self.now }
        ensures short { length self.now < 2 ^ 16 }
    {
        usize::from(self.count).min(self.rest.len() / 2)
    }

    /// The attribute at a place. It skips those before it.
    pub(crate) fn get(self, place: usize) -> Option<Attribute<'a>>
        ensures { result ≡ slice_get self.entry place }
    {
        let mut rest = self;
        let mut left = place;
        while left > 0 {
            if rest.next().is_none() {
                return None;
            }
            left -= 1;
        }
        rest.next()
    }
}

impl<'a> Iterator for LaidAttributes<'a> {
    type Item = Attribute<'a>;

    ghost next_gives = { YieldsFirst (λ these. these) };

    ghost remaining = { item_count (λ these. these) };

    fn next(&mut self) -> Option<Attribute<'a>> {
        if self.count == 0 {
            return None;
        }
        if self.rest.len() < 2 {
            return None;
        }
        let (word, at) = (self.rest[0], self.rest[1]);
        let bytes = run_bytes(self.bytes, at, upper(word) as usize);
        self.count -= 1;
        self.rest = words_from(self.rest, 2);
        Some(Attribute {
            name: first(word),
            bytes: Bytes::of(bytes),
        })
    }
}

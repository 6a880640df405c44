//! Attributes in place in a class file, and their reader.
ghost use Rattle.std.specs.Prelude.{◌≡◌, ◌<◌, ◌^◌, length, slice_get};
ghost use Rattle.std.specs.Iterator.{YieldsFirst, item_count};
ghost use Rattle.cm_class.specs.Reading.{GivesExactly, many_at, counted_at, attribute_at, rest_of};

use crate::bytes::Bytes;
use crate::class_file::Attribute;
use crate::numbers::{content, read_u16};
use crate::stop::Stop;
use std::marker::Model;

/// The attributes of a class, a field or a method, in the file's order, read one after another from
/// the file's bytes; an iterator over them. Contracts see the list of the attributes that are left.
#[derive(Debug, Drop)]
pub struct Attributes<'a> {
    count: u16,
    /// Where the next one begins; more bytes may follow the last.
    bytes: &'a [u8],
}

impl<'a> Model for Attributes<'a> {
    ghost use Rattle.std.specs.Prelude.{List};
    ghost use Rattle.cm_class.specs.declared.class_file.Attribute.{Attribute};

    ghost Value = { List Attribute };

    ghost use Rattle.cm_class.specs.Reading.{attributes_of, many_at, attribute_at, Succeeds};

    ghost view = { λ a. attributes_of a.count a.bytes.now };

    ghost invariant = { λ a. Succeeds (many_at attribute_at a.count a.bytes.now) };
}

#[tactic(auto, unfolding(crate::specs::Reading::attribute_at))]
fn attribute<'a>(bytes: &'a [u8]) -> Result<(Attribute<'a>, &'a [u8]), Stop>
    ensures { GivesExactly (λ x. (x.0, x.1.now)) result (attribute_at bytes.now) }
{
    let (name, rest) = read_u16(bytes)?;
    let (content, rest) = content(rest)?;
    let bytes = Bytes::of(content);
    Ok((Attribute { name, bytes }, rest))
}

/// The bytes that follow `count` attributes.
fn skip_attributes(count: u16, bytes: &[u8]) -> Result<&[u8], Stop>
    ensures { GivesExactly (λ x. x.now) result (rest_of (many_at attribute_at count bytes.now)) }
{
    let mut rest = bytes;
    for _ in 0..count {
        let (_, after) = attribute(rest)?;
        rest = after;
    }
    Ok(rest)
}

/// Attributes preceded by their count, and what follows them.
#[tactic(auto, unfolding(crate::specs::Reading::counted_at))]
pub(crate) fn counted_attributes<'a>(bytes: &'a [u8]) -> Result<(Attributes<'a>, &'a [u8]), Stop>
    ensures { GivesExactly (λ x. (x.0, x.1.now)) result (counted_at attribute_at bytes.now) }
{
    let (count, bytes) = read_u16(bytes)?;
    let rest = skip_attributes(count, bytes)?;
    Ok((Attributes { count, bytes }, rest))
}

impl<'a> Attributes<'a> {
    /// How many there are.
    pub fn len(&self) -> usize
        ensures { result ≡ length self.now }
    {
        usize::from(self.count)
    }

    /// An iterator over the same attributes.
    pub fn iter(&self) -> Attributes<'a>
        ensures same { result ≡ self.now }
        ensures short { length result < 2 ^ 16 }
    {
        Attributes {
            count: self.count,
            bytes: self.bytes,
        }
    }

    /// The attribute at a place. It reads those before it.
    pub fn get(&self, place: usize) -> Option<Attribute<'a>>
        ensures { result ≡ slice_get self.now place }
    {
        let mut rest = self.iter();
        let mut left = place;
        while left > 0 {
            if rest.next().is_none() {
                return None;
            }
            left -= 1;
        }
        rest.next()
    }
}

impl<'a> Iterator for Attributes<'a> {
    type Item = Attribute<'a>;

    ghost next_gives = { YieldsFirst (λ these. these) };

    ghost remaining = { item_count (λ these. these) };

    fn next(&mut self) -> Option<Attribute<'a>> {
        if self.count == 0 {
            return None;
        }
        match attribute(self.bytes) {
            Ok((item, rest)) => {
                self.count -= 1;
                self.bytes = rest;
                Some(item)
            }
            Err(_) => unreachable!(),
        }
    }
}

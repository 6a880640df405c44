//! Readers of interfaces, fields and methods.
ghost use Rattle.std.specs.Prelude.{◌≡◌};
ghost use Rattle.cm_class.specs.Reading.{GivesTo, GivesExactly, number_at, many_at, counted_at};
ghost use Rattle.cm_class.specs.Reading.{member_at};

use crate::attributes::counted_attributes;
use crate::class_file::Member;
use crate::items::Items;
use crate::numbers::{read_u16, room_for};
use crate::sink::Sink;
use crate::stop::Stop;

#[tactic(auto, unfolding(crate::specs::Reading::member_at))]
fn member<'a>(bytes: &'a [u8]) -> Result<(Member<'a>, &'a [u8]), Stop>
    ensures { GivesExactly (λ x. (x.0, x.1.now)) result (member_at bytes.now) }
{
    let (flags, rest) = read_u16(bytes)?;
    let (name, rest) = read_u16(rest)?;
    let (descriptor, rest) = read_u16(rest)?;
    let (attributes, rest) = counted_attributes(rest)?;
    let member = Member {
        flags,
        name,
        descriptor,
        attributes,
    };
    Ok((member, rest))
}

fn many_members<'a, S: Sink>(
    sink: S,
    count: u16,
    bytes: &'a [u8],
) -> Result<(Vec<Member<'a>>, &'a [u8]), Stop>
    ensures { GivesTo S.keeps (λ x. (x.0.items, x.1.now)) result
        (many_at member_at count bytes.now) }
{
    let mut members = sink.room(room_for(count, 8, bytes))?;
    let mut rest = bytes;
    for _ in 0..count {
        let (item, after) = member(rest)?;
        sink.push(&mut members, item)?;
        rest = after;
    }
    Ok((members, rest))
}

/// Fields or methods, preceded by their count.
#[tactic(auto, unfolding(crate::specs::Reading::counted_at))]
pub(crate) fn members<'a, S: Sink>(
    sink: S,
    bytes: &'a [u8],
) -> Result<(Items<Member<'a>>, &'a [u8]), Stop>
    ensures { GivesTo S.keeps (λ x. (x.0, x.1.now)) result (counted_at member_at bytes.now) }
{
    let (count, rest) = read_u16(bytes)?;
    let (items, rest) = many_members(sink, count, rest)?;
    Ok((Items::from_vec(items), rest))
}

fn many_numbers<S: Sink>(sink: S, count: u16, bytes: &[u8]) -> Result<(Vec<u16>, &[u8]), Stop>
    ensures { GivesTo S.keeps (λ x. (x.0.items, x.1.now)) result
        (many_at (number_at 2) count bytes.now) }
{
    let mut numbers = sink.room(room_for(count, 2, bytes))?;
    let mut rest = bytes;
    for _ in 0..count {
        let (item, after) = read_u16(rest)?;
        sink.push(&mut numbers, item)?;
        rest = after;
    }
    Ok((numbers, rest))
}

/// Interfaces, preceded by their count.
#[tactic(auto, unfolding(crate::specs::Reading::counted_at))]
pub(crate) fn interfaces<S: Sink>(sink: S, bytes: &[u8]) -> Result<(Items<u16>, &[u8]), Stop>
    ensures { GivesTo S.keeps (λ x. (x.0, x.1.now)) result (counted_at (number_at 2) bytes.now) }
{
    let (count, rest) = read_u16(bytes)?;
    let (items, rest) = many_numbers(sink, count, rest)?;
    Ok((Items::from_vec(items), rest))
}

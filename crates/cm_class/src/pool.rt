//! Readers of the constant pool.
ghost use Rattle.std.specs.Prelude.{◌≡◌, true, false};
ghost use Rattle.cm_class.specs.Reading.{GivesTo, GivesExactly, tag_at, info_at, constant_at};
ghost use Rattle.cm_class.specs.Reading.{slots_at, pool_at, both_at, number_at};
ghost use Rattle.cm_class.specs.Reading.{is_number, is_member, has_indexes};

use crate::bytes::Bytes;
use crate::constant::{Constant, Slot};
use crate::items::Items;
use crate::kind::Kind;
use crate::numbers::{
    pool_count, read_u8, read_u16, read_u32, read_u64, read_utf8, room_for, skip_heading,
};
use crate::sink::Sink;
use crate::stop::Stop;

/// The tag of a constant for which `left` slots are left. A wide one takes two of them.
#[tactic(auto, unfolding(crate::specs::Reading::tag_at))]
fn tag(left: u16, bytes: &[u8]) -> Result<(Kind, &[u8]), Stop>
    ensures { GivesExactly (λ x. (x.0, x.1.now)) result (tag_at left bytes.now) }
{
    let [byte, rest @ ..] = bytes else {
        return Err(Stop::Short);
    };
    match Kind::from_tag(u16::from(*byte)) {
        Some(tag) if !(tag.is_wide() && left < 2) => Ok((tag, rest)),
        _ => Err(Stop::Bad(bytes.len())),
    }
}

/// The two numbers of a constant.
fn two(bytes: &[u8]) -> Result<(u16, u16, &[u8]), Stop>
    ensures { GivesExactly (λ x. ((x.0, x.1), x.2.now)) result
        (both_at (number_at 2) (number_at 2) bytes.now) }
{
    let (first, rest) = read_u16(bytes)?;
    let (second, rest) = read_u16(rest)?;
    Ok((first, second, rest))
}

/// The constant of a number, after its tag (JVMS 4.4.4, 4.4.5).
#[tactic(auto, unfolding(crate::specs::Reading::one_at))]
fn number<'a>(kind: Kind, bytes: &'a [u8]) -> Result<(Constant<Bytes<'a>>, &'a [u8]), Stop>
    requires { is_number kind ≡ true }
    ensures { GivesExactly (λ x. (x.0, x.1.now)) result (info_at kind bytes.now) }
{
    match kind {
        Kind::Integer => {
            let (bits, rest) = read_u32(bytes)?;
            Ok((Constant::Integer(bits), rest))
        }
        Kind::Float => {
            let (bits, rest) = read_u32(bytes)?;
            Ok((Constant::Float(bits), rest))
        }
        Kind::Long => {
            let (bits, rest) = read_u64(bytes)?;
            Ok((Constant::Long(bits), rest))
        }
        Kind::Double => {
            let (bits, rest) = read_u64(bytes)?;
            Ok((Constant::Double(bits), rest))
        }
        _ => unreachable!(),
    }
}

/// The constant that names a field, a method or an interface's method, after its tag (JVMS 4.4.2).
#[tactic(auto, unfolding(crate::specs::Reading::two_at))]
fn member<'a>(kind: Kind, bytes: &'a [u8]) -> Result<(Constant<Bytes<'a>>, &'a [u8]), Stop>
    requires { is_member kind ≡ true }
    ensures { GivesExactly (λ x. (x.0, x.1.now)) result (info_at kind bytes.now) }
{
    match kind {
        Kind::Fieldref => {
            let (class, name_and_type, rest) = two(bytes)?;
            Ok((
                Constant::Fieldref {
                    class,
                    name_and_type,
                },
                rest,
            ))
        }
        Kind::Methodref => {
            let (class, name_and_type, rest) = two(bytes)?;
            Ok((
                Constant::Methodref {
                    class,
                    name_and_type,
                },
                rest,
            ))
        }
        Kind::InterfaceMethodref => {
            let (class, name_and_type, rest) = two(bytes)?;
            Ok((
                Constant::InterfaceMethodref {
                    class,
                    name_and_type,
                },
                rest,
            ))
        }
        _ => unreachable!(),
    }
}

/// A constant of other indexes, after its tag (JVMS 4.4.1, 4.4.3, 4.4.6, 4.4.8 to 4.4.10).
#[tactic(auto, unfolding(crate::specs::Reading::one_at, crate::specs::Reading::two_at))]
fn indexes<'a>(kind: Kind, bytes: &'a [u8]) -> Result<(Constant<Bytes<'a>>, &'a [u8]), Stop>
    requires { has_indexes kind ≡ true }
    ensures { GivesExactly (λ x. (x.0, x.1.now)) result (info_at kind bytes.now) }
{
    match kind {
        Kind::Class => {
            let (name, rest) = read_u16(bytes)?;
            Ok((Constant::Class { name }, rest))
        }
        Kind::String => {
            let (utf8, rest) = read_u16(bytes)?;
            Ok((Constant::String { utf8 }, rest))
        }
        Kind::NameAndType => {
            let (name, descriptor, rest) = two(bytes)?;
            Ok((Constant::NameAndType { name, descriptor }, rest))
        }
        Kind::MethodHandle => {
            let (kind, rest) = read_u8(bytes)?;
            let (reference, rest) = read_u16(rest)?;
            Ok((Constant::MethodHandle { kind, reference }, rest))
        }
        Kind::MethodType => {
            let (descriptor, rest) = read_u16(bytes)?;
            Ok((Constant::MethodType { descriptor }, rest))
        }
        Kind::InvokeDynamic => {
            let (bootstrap_method, name_and_type, rest) = two(bytes)?;
            Ok((
                Constant::InvokeDynamic {
                    bootstrap_method,
                    name_and_type,
                },
                rest,
            ))
        }
        _ => unreachable!(),
    }
}

/// A constant, after its tag.
#[tactic(auto, unfolding(crate::specs::Reading::utf8_at))]
fn info<'a>(kind: Kind, bytes: &'a [u8]) -> Result<(Constant<Bytes<'a>>, &'a [u8]), Stop>
    ensures { GivesExactly (λ x. (x.0, x.1.now)) result (info_at kind bytes.now) }
{
    match kind {
        Kind::Utf8 => {
            let (utf8, rest) = read_utf8(bytes)?;
            Ok((Constant::Utf8(Bytes::of(utf8)), rest))
        }
        Kind::Integer | Kind::Float | Kind::Long | Kind::Double => number(kind, bytes),
        Kind::Fieldref | Kind::Methodref | Kind::InterfaceMethodref => member(kind, bytes),
        _ => indexes(kind, bytes),
    }
}

#[tactic(auto, unfolding(crate::specs::Reading::constant_at))]
fn constant<'a>(left: u16, bytes: &'a [u8]) -> Result<(Constant<Bytes<'a>>, &'a [u8]), Stop>
    ensures { GivesExactly (λ x. (x.0, x.1.now)) result (constant_at left bytes.now) }
{
    let (tag, rest) = tag(left, bytes)?;
    info(tag, rest)
}

/// `count` slots: each constant and, after a wide one, its unusable second index.
fn slots<'a, S: Sink>(
    sink: S,
    count: u16,
    bytes: &'a [u8],
) -> Result<(Vec<Slot<'a>>, &'a [u8]), Stop>
    ensures { GivesTo S.keeps (λ x. (x.0.items, x.1.now)) result (slots_at false count bytes.now) }
{
    let mut slots = sink.room(room_for(count, 3, bytes))?;
    let mut rest = bytes;
    let mut second = false;
    for index in 0..count {
        if second {
            sink.push(&mut slots, Slot::Unusable)?;
            second = false;
        } else {
            let (item, after) = constant(count - index, rest)?;
            second = item.is_wide();
            sink.push(&mut slots, Slot::Usable(item))?;
            rest = after;
        }
    }
    Ok((slots, rest))
}

/// The heading, the pool's count and its slots.
#[tactic(auto, unfolding(crate::specs::Reading::pool_at))]
pub(crate) fn pool<'a, S: Sink>(
    sink: S,
    bytes: &'a [u8],
) -> Result<(Items<Slot<'a>>, &'a [u8]), Stop>
    ensures { GivesTo S.keeps (λ x. (x.0, x.1.now)) result (pool_at bytes.now) }
{
    let rest = skip_heading(bytes)?;
    let (count, rest) = pool_count(rest)?;
    let (items, rest) = slots(sink, count - 1, rest)?;
    Ok((Items::from_vec(items), rest))
}

//! Laying constants.
ghost use Rattle.std.specs.Prelude.{◌≡◌, ◌<◌, true, IfSome, if◌then◌else◌};
ghost use Rattle.cm_class.specs.Reading.{takes_two};
ghost use Rattle.cm_record_laying.specs.Laying.{LaysConstant, LaysSlots};
ghost use Rattle.cm_record_laying.specs.Kinds.{has_bits, has_index, has_pair};
ghost use Rattle.cm_class.specs.declared.kind.Kind.TheVariants as kinds;

use crate::numbers::{read_bytes, read_u8, read_u16, read_u32, read_u64};
use crate::sections::Sections;
use cm_class::Kind;
use cm_record_layout::{FOURTH, SECOND, THIRD};

/// Lays a Utf8.
fn lay_utf8<'a>(sections: &mut Sections, bytes: &'a [u8]) -> Option<&'a [u8]>
    ensures { IfSome result (λ rest. LaysConstant kinds.Utf8 bytes.now sections.old sections.new
        rest.now) }
{
    let (len, rest) = read_u16(bytes)?;
    let (utf8, rest) = read_bytes(usize::from(len), rest)?;
    let at = sections.next_run()?;
    let word = u64::from(Kind::Utf8.tag()) + SECOND * u64::from(len) + THIRD * u64::from(at);
    sections.push_word(word)?;
    sections.push_run(utf8)?;
    Some(rest)
}

/// Lays an Integer or a Float.
fn lay_bits<'a>(sections: &mut Sections, kind: Kind, bytes: &'a [u8]) -> Option<&'a [u8]>
    requires { has_bits kind ≡ true }
    ensures { IfSome result (λ rest. LaysConstant kind bytes.now sections.old sections.new
        rest.now) }
{
    let (bits, rest) = read_u32(bytes)?;
    sections.push_word(u64::from(kind.tag()) + THIRD * u64::from(bits))?;
    Some(rest)
}

/// Lays a Long or a Double, which has two words.
fn lay_wide<'a>(sections: &mut Sections, kind: Kind, bytes: &'a [u8]) -> Option<&'a [u8]>
    requires { takes_two kind ≡ true }
    ensures { IfSome result (λ rest. LaysConstant kind bytes.now sections.old sections.new
        rest.now) }
{
    let (bits, rest) = read_u64(bytes)?;
    sections.push_word(u64::from(kind.tag()))?;
    sections.push_word(bits)?;
    Some(rest)
}

/// Lays a Class, a String or a MethodType.
fn lay_index<'a>(sections: &mut Sections, kind: Kind, bytes: &'a [u8]) -> Option<&'a [u8]>
    requires { has_index kind ≡ true }
    ensures { IfSome result (λ rest. LaysConstant kind bytes.now sections.old sections.new
        rest.now) }
{
    let (index, rest) = read_u16(bytes)?;
    sections.push_word(u64::from(kind.tag()) + THIRD * u64::from(index))?;
    Some(rest)
}

/// Lays a constant of two indexes.
fn lay_pair<'a>(sections: &mut Sections, kind: Kind, bytes: &'a [u8]) -> Option<&'a [u8]>
    requires { has_pair kind ≡ true }
    ensures { IfSome result (λ rest. LaysConstant kind bytes.now sections.old sections.new
        rest.now) }
{
    let (first, rest) = read_u16(bytes)?;
    let (second, rest) = read_u16(rest)?;
    let word = u64::from(kind.tag()) + THIRD * u64::from(first) + FOURTH * u64::from(second);
    sections.push_word(word)?;
    Some(rest)
}

/// Lays a MethodHandle.
fn lay_handle<'a>(sections: &mut Sections, bytes: &'a [u8]) -> Option<&'a [u8]>
    ensures { IfSome result (λ rest. LaysConstant kinds.MethodHandle bytes.now sections.old
        sections.new rest.now) }
{
    let (kind, rest) = read_u8(bytes)?;
    let (reference, rest) = read_u16(rest)?;
    let tag = u64::from(Kind::MethodHandle.tag());
    let word = tag + THIRD * u64::from(kind) + FOURTH * u64::from(reference);
    sections.push_word(word)?;
    Some(rest)
}

/// Lays the constant of this kind whose spelling after the tag the bytes begin with.
fn lay_info<'a>(sections: &mut Sections, kind: Kind, bytes: &'a [u8]) -> Option<&'a [u8]>
    ensures { IfSome result (λ rest. LaysConstant kind bytes.now sections.old sections.new
        rest.now) }
{
    match kind {
        Kind::Utf8 => lay_utf8(sections, bytes),
        Kind::Integer | Kind::Float => lay_bits(sections, kind, bytes),
        Kind::Long | Kind::Double => lay_wide(sections, kind, bytes),
        Kind::Class | Kind::String | Kind::MethodType => lay_index(sections, kind, bytes),
        Kind::MethodHandle => lay_handle(sections, bytes),
        _ => lay_pair(sections, kind, bytes),
    }
}

/// How many slots a constant of this kind takes.
fn slots_taken(kind: Kind) -> u16
    ensures { result ≡ (if takes_two kind then 2 else 1) }
{
    match kind {
        Kind::Long | Kind::Double => 2,
        _ => 1,
    }
}

/// Lays the constant that the bytes begin with. Returns how many slots it takes, and the bytes
/// after it.
fn lay_constant<'a>(sections: &mut Sections, bytes: &'a [u8]) -> Option<(u16, &'a [u8])>
    ensures laid { IfSome result (λ x. LaysSlots x.0 bytes.now sections.old sections.new x.1.now) }
    ensures some { IfSome result (λ x. 0 < x.0) }
{
    let (tag, rest) = read_u8(bytes)?;
    let kind = Kind::from_tag(u16::from(tag))?;
    let rest = lay_info(sections, kind, rest)?;
    Some((slots_taken(kind), rest))
}

/// Lays this many slots of the pool. Returns the bytes after them.
pub(crate) fn lay_slots<'a>(
    sections: &mut Sections,
    count: u16,
    bytes: &'a [u8],
) -> Option<&'a [u8]>
    ensures { IfSome result (λ rest. LaysSlots count bytes.now sections.old sections.new
        rest.now) }
{
    let mut left = count;
    let mut rest = bytes;
    while left > 0 {
        let (slots, after) = lay_constant(sections, rest)?;
        left = left.checked_sub(slots)?;
        rest = after;
    }
    Some(rest)
}

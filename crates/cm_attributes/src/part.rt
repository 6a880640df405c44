//! The parts of contents: numbers of two bytes.
ghost use Rattle.std.specs.Prelude.{◌≡◌, option_copied};
ghost use Rattle.cm_class.specs.Names.{names_such};
ghost use Rattle.cm_attributes.specs.Contents.{is_loadable, passes, past_part, past_parts};
ghost use Rattle.cm_attributes.specs.Contents.{past_counted, is_row, are_rows};

use crate::numbers::{is_whole, read_u2};
use cm_class::{Class, Constant, Kind};

/// What a number of two bytes in an attribute's content must be.
#[derive(Clone, Copy, Debug)]
pub(crate) enum Part {
    Any,
    /// The index of a constant of this kind.
    Names(Kind),
    /// 0, or the index of a constant of this kind.
    ZeroOr(Kind),
    /// The index of a constant that a bootstrap method takes (JVMS 4.7.23).
    Loadable,
}

fn is_loadable(class: &Class, index: u16) -> bool
    ensures { result ≡ names_such is_loadable class.now index }
{
    matches!(
        class.constant(index),
        Some(
            Constant::String { .. }
                | Constant::Class { .. }
                | Constant::Integer(_)
                | Constant::Long(_)
                | Constant::Float(_)
                | Constant::Double(_)
                | Constant::MethodHandle { .. }
                | Constant::MethodType { .. }
        )
    )
}

/// Whether a number is what a part must be.
pub(crate) fn passes(class: &Class, part: Part, number: u16) -> bool
    ensures { result ≡ passes class.now part number }
{
    match part {
        Part::Any => true,
        Part::Names(kind) => class.names(number, kind),
        Part::ZeroOr(kind) => number == 0 || class.names(number, kind),
        Part::Loadable => is_loadable(class, number),
    }
}

fn skip_part<'b>(class: &Class, part: Part, bytes: &'b [u8]) -> Option<&'b [u8]>
    ensures { option_copied result ≡ past_part class.now part bytes.now }
{
    let (number, rest) = read_u2(bytes)?;
    if passes(class, part, number) {
        Some(rest)
    } else {
        None
    }
}

/// The bytes after one number for each of the parts.
pub(crate) fn skip_parts<'b>(class: &Class, parts: &[Part], bytes: &'b [u8]) -> Option<&'b [u8]>
    ensures { option_copied result ≡ past_parts class.now parts.now bytes.now }
{
    let mut rest = bytes;
    for part in parts {
        rest = skip_part(class, *part, rest)?;
    }
    Some(rest)
}

/// The bytes after a count and that many rows of the parts.
pub(crate) fn skip_rows<'b>(class: &Class, parts: &[Part], bytes: &'b [u8]) -> Option<&'b [u8]>
    ensures { option_copied result ≡ past_counted (past_parts class.now parts.now) bytes.now }
{
    let (count, mut rest) = read_u2(bytes)?;
    for _ in 0..count {
        rest = skip_parts(class, parts, rest)?;
    }
    Some(rest)
}

/// Whether the bytes are a row of the parts, and nothing else.
pub(crate) fn is_row(class: &Class, parts: &[Part], bytes: &[u8]) -> bool
    ensures { result ≡ is_row class.now parts.now bytes.now }
{
    is_whole(skip_parts(class, parts, bytes))
}

/// Whether the bytes are a count and that many rows of the parts, and nothing else.
pub(crate) fn are_rows(class: &Class, parts: &[Part], bytes: &[u8]) -> bool
    ensures { result ≡ are_rows class.now parts.now bytes.now }
{
    is_whole(skip_rows(class, parts, bytes))
}

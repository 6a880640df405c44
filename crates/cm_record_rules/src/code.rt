//! The content of a Code (JVMS 4.7.3).
ghost use Rattle.std.specs.Prelude.{◌≡◌, option_copied};
ghost use Rattle.cm_attributes.specs.Contents.{handler_of, is_handler, past_handler};
ghost use Rattle.cm_attributes.specs.Contents.{past_attribute, past_counted, past_code};

use crate::laid::LaidClass;
use crate::parts::{skip_one, skip_two_numbers};
use cm_attributes::{read_code, read_u2, read_u4, skip};
use cm_class::Kind;

/// The bytes after a handler, which covers some of the code's bytes, is within them, and catches a
/// class or all.
fn skip_handler<'b>(class: &LaidClass, size: u32, bytes: &'b [u8]) -> Option<&'b [u8]>
    ensures { option_copied result ≡ past_handler class.now size bytes.now }
{
    let (start, rest) = read_u2(bytes)?;
    let (end, rest) = read_u2(rest)?;
    let (handler, rest) = read_u2(rest)?;
    let (catch, rest) = read_u2(rest)?;
    if start < end
        && u32::from(end) <= size
        && u32::from(handler) < size
        && (catch == 0 || class.names(catch, Kind::Class))
    {
        Some(rest)
    } else {
        None
    }
}

/// The bytes after a count and that many handlers.
fn skip_handlers<'b>(class: &LaidClass, size: u32, bytes: &'b [u8]) -> Option<&'b [u8]>
    ensures { option_copied result ≡ past_counted (past_handler class.now size) bytes.now }
{
    let (count, mut rest) = read_u2(bytes)?;
    for _ in 0..count {
        rest = skip_handler(class, size, rest)?;
    }
    Some(rest)
}

/// The bytes after an attribute whose name is a Utf8.
#[tactic(auto, unfolding(crate::specs::Parts::past_parts))]
fn skip_attribute<'b>(class: &LaidClass, bytes: &'b [u8]) -> Option<&'b [u8]>
    ensures { option_copied result ≡ past_attribute class.now bytes.now }
{
    let rest = skip_one(class, Kind::Utf8, bytes)?;
    let (len, rest) = read_u4(rest)?;
    skip(len as usize, rest)
}

/// The bytes after a count and that many attributes.
fn skip_attributes<'b>(class: &LaidClass, bytes: &'b [u8]) -> Option<&'b [u8]>
    ensures { option_copied result ≡ past_counted (past_attribute class.now) bytes.now }
{
    let (count, mut rest) = read_u2(bytes)?;
    for _ in 0..count {
        rest = skip_attribute(class, rest)?;
    }
    Some(rest)
}

/// The bytes after stack, locals, code, handlers and attributes.
#[tactic(auto, unfolding(crate::specs::Parts::past_parts))]
pub(crate) fn skip_code<'b>(class: &LaidClass, bytes: &'b [u8]) -> Option<&'b [u8]>
    ensures { option_copied result ≡ past_code class.now bytes.now }
{
    let rest = skip_two_numbers(bytes)?;
    let (size, rest) = read_code(rest)?;
    let rest = skip_handlers(class, size, rest)?;
    skip_attributes(class, rest)
}

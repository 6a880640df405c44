//! The content of a Code (JVMS 4.7.3).
ghost use Rattle.std.specs.Prelude.{◌≡◌, option_copied, option_map};
ghost use Rattle.cm_attributes.specs.Contents.{handler_of, is_handler, past_handler};
ghost use Rattle.cm_attributes.specs.Contents.{past_attribute, past_counted, code_of, past_code};

use crate::numbers::{read_u2, read_u4, skip};
use crate::part::{Part, passes, skip_parts};
use cm_class::{Class, Kind};

/// A handler of exceptions from `start` to `end`, the latter not included.
#[derive(Clone, Copy, Debug)]
pub(crate) struct Handler {
    start: u16,
    end: u16,
    handler: u16,
    /// Index of the class that is caught; 0 for all.
    catch: u16,
}

fn read_handler(bytes: &[u8]) -> Option<(Handler, &[u8])>
    ensures { option_map (λ x. (x.0, x.1.now)) result ≡ handler_of bytes.now }
{
    let (start, rest) = read_u2(bytes)?;
    let (end, rest) = read_u2(rest)?;
    let (handler, rest) = read_u2(rest)?;
    let (catch, rest) = read_u2(rest)?;
    let handler = Handler {
        start,
        end,
        handler,
        catch,
    };
    Some((handler, rest))
}

/// Whether the handler covers some of the code's bytes and is within them, and catches a class or
/// all.
fn is_handler(class: &Class, size: u32, handler: Handler) -> bool
    ensures { result ≡ is_handler class.now size handler }
{
    handler.start < handler.end
        && u32::from(handler.end) <= size
        && u32::from(handler.handler) < size
        && passes(class, Part::ZeroOr(Kind::Class), handler.catch)
}

fn skip_handler<'b>(class: &Class, size: u32, bytes: &'b [u8]) -> Option<&'b [u8]>
    ensures { option_copied result ≡ past_handler class.now size bytes.now }
{
    let (handler, rest) = read_handler(bytes)?;
    if is_handler(class, size, handler) {
        Some(rest)
    } else {
        None
    }
}

/// The bytes after a count and that many handlers.
fn skip_handlers<'b>(class: &Class, size: u32, bytes: &'b [u8]) -> Option<&'b [u8]>
    ensures { option_copied result ≡ past_counted (past_handler class.now size) bytes.now }
{
    let (count, mut rest) = read_u2(bytes)?;
    for _ in 0..count {
        rest = skip_handler(class, size, rest)?;
    }
    Some(rest)
}

/// The bytes after an attribute whose name is a Utf8.
fn skip_attribute<'b>(class: &Class, bytes: &'b [u8]) -> Option<&'b [u8]>
    ensures { option_copied result ≡ past_attribute class.now bytes.now }
{
    let rest = skip_parts(class, &[Part::Names(Kind::Utf8)], bytes)?;
    let (len, rest) = read_u4(rest)?;
    skip(len as usize, rest)
}

/// The bytes after a count and that many attributes.
fn skip_attributes<'b>(class: &Class, bytes: &'b [u8]) -> Option<&'b [u8]>
    ensures { option_copied result ≡ past_counted (past_attribute class.now) bytes.now }
{
    let (count, mut rest) = read_u2(bytes)?;
    for _ in 0..count {
        rest = skip_attribute(class, rest)?;
    }
    Some(rest)
}

/// How many bytes the code has, 1 to 65,535, and the bytes after them.
#[tactic(auto, unfolding(crate::specs::Contents::code_of))]
pub fn read_code(bytes: &[u8]) -> Option<(u32, &[u8])>
    ensures { option_map (λ x. (x.0, x.1.now)) result ≡ code_of bytes.now }
{
    let (size, rest) = read_u4(bytes)?;
    if !(0 < size && size <= 65535) {
        return None;
    }
    let rest = skip(size as usize, rest)?;
    Some((size, rest))
}

/// The bytes after stack, locals, code, handlers and attributes.
pub(crate) fn skip_code<'b>(class: &Class, bytes: &'b [u8]) -> Option<&'b [u8]>
    ensures { option_copied result ≡ past_code class.now bytes.now }
{
    let rest = skip_parts(class, &[Part::Any, Part::Any], bytes)?;
    let (size, rest) = read_code(rest)?;
    let rest = skip_handlers(class, size, rest)?;
    skip_attributes(class, rest)
}

//! Laying interfaces, attributes and members.
ghost use Rattle.std.specs.Prelude.{◌≡◌, IfSome};
ghost use Rattle.cm_record_laying.specs.Laying.{LaysNumbers, LaysAttributes, LaysMembers};

use crate::numbers::{read_bytes, read_u16, read_u32};
use crate::sections::Sections;
use cm_record_layout::{THIRD, four_numbers};

/// Lays this many interfaces, one word each. Returns the bytes after them.
pub(crate) fn lay_interfaces<'a>(
    sections: &mut Sections,
    count: u16,
    bytes: &'a [u8],
) -> Option<&'a [u8]>
    ensures { IfSome result (λ rest. LaysNumbers count bytes.now sections.old sections.new
        rest.now) }
{
    let mut rest = bytes;
    for _ in 0..count {
        let (index, after) = read_u16(rest)?;
        sections.push_word(u64::from(index))?;
        rest = after;
    }
    Some(rest)
}

/// Lays the attribute that the bytes begin with. Returns the bytes after it.
fn lay_attribute<'a>(sections: &mut Sections, bytes: &'a [u8]) -> Option<&'a [u8]>
    ensures { IfSome result (λ rest. LaysAttributes 1 bytes.now sections.old sections.new
        rest.now) }
{
    let (name, rest) = read_u16(bytes)?;
    let (len, rest) = read_u32(rest)?;
    let (content, rest) = read_bytes(len as usize, rest)?;
    let at = sections.next_run()?;
    sections.push_attribute(u64::from(name) + THIRD * u64::from(len), u64::from(at))?;
    sections.push_run(content)?;
    Some(rest)
}

/// Lays this many attributes. Returns the bytes after them.
pub(crate) fn lay_attributes<'a>(
    sections: &mut Sections,
    count: u16,
    bytes: &'a [u8],
) -> Option<&'a [u8]>
    ensures { IfSome result (λ rest. LaysAttributes count bytes.now sections.old sections.new
        rest.now) }
{
    let mut rest = bytes;
    for _ in 0..count {
        rest = lay_attribute(sections, rest)?;
    }
    Some(rest)
}

/// Lays the field or the method that the bytes begin with. Returns the bytes after it.
fn lay_member<'a>(sections: &mut Sections, bytes: &'a [u8]) -> Option<&'a [u8]>
    ensures { IfSome result (λ rest. LaysMembers 1 bytes.now sections.old sections.new rest.now) }
{
    let (flags, rest) = read_u16(bytes)?;
    let (name, rest) = read_u16(rest)?;
    let (descriptor, rest) = read_u16(rest)?;
    let (count, rest) = read_u16(rest)?;
    let at = sections.next_attribute()?;
    sections.push_word(four_numbers(flags, name, descriptor, count))?;
    sections.push_word(at)?;
    lay_attributes(sections, count, rest)
}

/// Lays this many fields or methods. Returns the bytes after them.
pub(crate) fn lay_members<'a>(
    sections: &mut Sections,
    count: u16,
    bytes: &'a [u8],
) -> Option<&'a [u8]>
    ensures { IfSome result (λ rest. LaysMembers count bytes.now sections.old sections.new
        rest.now) }
{
    let mut rest = bytes;
    for _ in 0..count {
        rest = lay_member(sections, rest)?;
    }
    Some(rest)
}

//! Laying a whole class file.
ghost use Rattle.std.specs.Prelude.{◌≡◌, ◌++◌, IfSome};
ghost use Rattle.cm_class.specs.Spelling.{heading};
ghost use Rattle.cm_record_laying.specs.Files.{LaysPool, LaysFile, IsRecordOfFile};

use crate::constants::lay_slots;
use crate::lists::{lay_attributes, lay_interfaces, lay_members};
use crate::measure::measure;
use crate::numbers::read_u16;
use crate::sections::Sections;
use crate::sizes::{Numbers, head_of};
use cm_class::HEADING;
use cm_record_layout::{HEAD_TOTAL, MAX_WORDS};
use cm_words::WordBuf;
use std::alloc::Global;

/// The bytes after the heading.
fn skip_heading(bytes: &[u8]) -> Option<&[u8]>
    ensures { IfSome result (λ rest. bytes.now ≡ heading ++ rest.now) }
{
    let (found, rest) = bytes.split_first_chunk::<8>()?;
    if *found == HEADING { Some(rest) } else { None }
}

/// Lays the constant pool, and slot 0 before it. Returns one more than its last index, and the
/// bytes after it.
fn lay_pool<'a>(sections: &mut Sections, bytes: &'a [u8]) -> Option<(u16, &'a [u8])>
    ensures { IfSome result (λ x. LaysPool x.0 bytes.now sections.old sections.new x.1.now) }
{
    let rest = skip_heading(bytes)?;
    let (count, rest) = read_u16(rest)?;
    let slots = count.checked_sub(1)?;
    sections.push_word(0)?;
    let rest = lay_slots(sections, slots, rest)?;
    Some((count, rest))
}

/// Lays all parts of a class file but the head.
fn lay_parts(sections: &mut Sections, bytes: &[u8]) -> Option<Numbers>
    ensures { IfSome result (λ numbers. LaysFile numbers bytes.now sections.old sections.new) }
{
    let (slots, rest) = lay_pool(sections, bytes)?;
    let (flags, rest) = read_u16(rest)?;
    let (this_class, rest) = read_u16(rest)?;
    let (super_class, rest) = read_u16(rest)?;
    let (interfaces, rest) = read_u16(rest)?;
    let rest = lay_interfaces(sections, interfaces, rest)?;
    let (fields, rest) = read_u16(rest)?;
    let rest = lay_members(sections, fields, rest)?;
    let (methods, rest) = read_u16(rest)?;
    let rest = lay_members(sections, methods, rest)?;
    let (attributes, rest) = read_u16(rest)?;
    let rest = lay_attributes(sections, attributes, rest)?;
    if !rest.is_empty() {
        return None;
    }
    Some(Numbers {
        slots,
        flags,
        this_class,
        super_class,
        interfaces,
        fields,
        methods,
        attributes,
    })
}

/// The words of the record of the class file that the bytes spell. They are written from the bytes,
/// without making the class: a first walk finds how long the sections are, and a second one writes
/// them, and checks this and everything else.
///
/// Only `Some` is a promise. `None` is returned if the bytes spell no class file, if its record is
/// longer than the limit, and if an allocation failed; the reader of `cm_class` says which.
pub fn lay_file(alloc: Global, bytes: &[u8]) -> Option<WordBuf>
    ensures { IfSome result (λ words. IsRecordOfFile bytes.now words.words) }
{
    let measured = measure(bytes)?;
    let head = head_of(&measured.numbers, measured.attributes, measured.runs)?;
    if head[HEAD_TOTAL] > MAX_WORDS {
        return None;
    }
    let mut sections = Sections::with_head(alloc, &head)?;
    let numbers = lay_parts(&mut sections, bytes)?;
    let attributes = sections.attributes.len() as u64;
    let runs = sections.runs.len() as u64;
    let found = head_of(&numbers, attributes, runs)?;
    if found == head { sections.join() } else { None }
}

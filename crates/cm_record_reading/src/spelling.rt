//! Spelling a class from the words of a record, part by part and in the class file's order. Each
//! function reads from slices that end where the record ends, so the length of what it leaves says
//! where in the record that begins. It appends the bytes of what it read to a buffer.
ghost use Rattle.std.specs.Prelude.{◌≡◌, ◌++◌, ◌≤◌, length, false, IfOk, OnOk};
ghost use Rattle.std.specs.List.{flat_map};
ghost use Rattle.cm_class.specs.declared.constant.Constant.TheVariants as constants;
ghost use Rattle.cm_class.specs.declared.kind.Kind.TheVariants as kinds;
ghost use Rattle.cm_class.specs.Names.{is_kind};
ghost use Rattle.cm_class.specs.Reading.{tag_number};
ghost use Rattle.cm_class.specs.Spelling.{u1, u2, u4, u8, slot_bytes, constant_bytes};
ghost use Rattle.cm_class.specs.Spelling.{attribute_bytes, member_bytes, counted};
ghost use Rattle.cm_record_layout.specs.Layout.{limit};
ghost use Rattle.cm_record_layout.specs.Packing.{word_bytes};
ghost use Rattle.cm_record_reading.specs.Reading.{Gives, run_at, constant_at, slots_at, with_front};
ghost use Rattle.cm_record_reading.specs.Reading.{interfaces_from, attribute_at, attributes_from};
ghost use Rattle.cm_record_reading.specs.Reading.{member_at, members_from};
ghost use Rattle.cm_record_reading.specs.Reading.{appended, behind3, behind4};
ghost use Rattle.cm_record_reading.specs.Reading.{constant_behind, utf8_bytes, content_bytes};

use crate::entry::{DirectoryEntry, attribute_word, entry_at};
use crate::fault::RecordFault;
use cm_class::{Bytes, Constant, Kind};
use cm_record_layout::{SECOND, bytes_of, first, fourth, second, third, upper, word_of};
use std::alloc::{AllocError, Global};

/// How many bytes to make room for: no more than the words hold, whatever the count says.
fn bytes_within(count: usize, words: &[u64]) -> usize
    ensures { result ≤ count }
{
    count.min(words.len().saturating_mul(8))
}

/// A run of `count` bytes, and the words after it.
pub fn read_run<'a>(
    alloc: Global,
    count: usize,
    words: &'a [u64],
) -> Result<(Vec<u8>, &'a [u64]), RecordFault>
    ensures read { Gives (λ x. (x.0.items, x.1.now)) result (run_at count words.now) }
    ensures suffix { IfOk result (λ x. length x.1.now ≤ length words.now) }
{
    let mut bytes = Vec::with_capacity(alloc, bytes_within(count, words))?;
    let rest = spell_run(count, words, &mut bytes)?;
    Ok((bytes, rest))
}

/// The words after a run of `count` bytes, which are appended to the buffer.
fn spell_run<'a>(
    count: usize,
    words: &'a [u64],
    out: &mut Vec<u8>,
) -> Result<&'a [u64], RecordFault>
    ensures read { Gives (λ x. (out.new.items, x.now)) result
        (with_front out.old.items (run_at count words.now)) }
    ensures suffix { IfOk result (λ x. length x.now ≤ length words.now) }
{
    let Some(whole) = words.get(..count / 8) else {
        return Err(RecordFault::NotARecord);
    };
    put_words(whole, out)?;
    let rest = &words[count / 8..];
    let left = count % 8;
    if left == 0 {
        return Ok(rest);
    }
    let [word, following @ ..] = rest else {
        return Err(RecordFault::NotARecord);
    };
    let eight = bytes_of(*word);
    if word_of(&eight[..left]) != *word {
        return Err(RecordFault::NotARecord);
    }
    out.extend_from_slice(&eight[..left])?;
    Ok(following)
}

/// Puts the bytes of words into the buffer.
fn put_words(words: &[u64], out: &mut Vec<u8>) -> Result<(), AllocError>
    ensures { OnOk result (out.new.items ≡ out.old.items ++ word_bytes words.now) }
{
    for word in words {
        out.extend_from_slice(&bytes_of(*word))?;
    }
    Ok(())
}

/// Puts a number of two bytes into the buffer.
pub(crate) fn put_u16(number: u16, out: &mut Vec<u8>) -> Result<(), AllocError>
    ensures { IfOk result (λ _. out.new.items ≡ out.old.items ++ u2 number) }
{
    out.extend_from_slice(&number.to_be_bytes())
}

/// Puts a number of four bytes into the buffer.
fn put_u32(number: u32, out: &mut Vec<u8>) -> Result<(), AllocError>
    ensures { IfOk result (λ _. out.new.items ≡ out.old.items ++ u4 number) }
{
    out.extend_from_slice(&number.to_be_bytes())
}

/// Puts a kind's tag into the buffer.
fn put_tag(kind: Kind, out: &mut Vec<u8>) -> Result<(), AllocError>
    ensures { IfOk result (λ _. out.new.items ≡ out.old.items ++ u1 (tag_number kind)) }
{
    out.extend_from_slice(&[kind.tag() as u8])
}

/// Puts a constant of one number of four bytes into the buffer.
fn put_bits(kind: Kind, bits: u32, out: &mut Vec<u8>) -> Result<(), AllocError>
    ensures { IfOk result
        (λ _. out.new.items ≡ out.old.items ++ (u1 (tag_number kind) ++ u4 bits)) }
{
    put_tag(kind, out)?;
    put_u32(bits, out)
}

/// Puts a constant of one number of eight bytes into the buffer.
fn put_wide(kind: Kind, bits: u64, out: &mut Vec<u8>) -> Result<(), AllocError>
    ensures { IfOk result
        (λ _. out.new.items ≡ out.old.items ++ (u1 (tag_number kind) ++ u8 bits)) }
{
    put_tag(kind, out)?;
    out.extend_from_slice(&bits.to_be_bytes())
}

/// Puts a constant of one index into the buffer.
fn put_index(kind: Kind, index: u16, out: &mut Vec<u8>) -> Result<(), AllocError>
    ensures { IfOk result
        (λ _. out.new.items ≡ out.old.items ++ (u1 (tag_number kind) ++ u2 index)) }
{
    put_tag(kind, out)?;
    put_u16(index, out)
}

/// Puts a constant of two indexes into the buffer.
fn put_indexes(kind: Kind, one: u16, two: u16, out: &mut Vec<u8>) -> Result<(), AllocError>
    ensures { IfOk result
        (λ _. out.new.items ≡ out.old.items ++ (u1 (tag_number kind) ++ (u2 one ++ u2 two))) }
{
    put_tag(kind, out)?;
    put_u16(one, out)?;
    put_u16(two, out)
}

/// Puts a method handle into the buffer.
fn put_handle(kind: u8, reference: u16, out: &mut Vec<u8>) -> Result<(), AllocError>
    ensures { IfOk result
        (λ _. out.new.items
        ≡ out.old.items ++ constant_bytes (constants.MethodHandle kind reference)) }
{
    put_tag(Kind::MethodHandle, out)?;
    out.extend_from_slice(&[kind])?;
    put_u16(reference, out)
}

/// Puts a constant other than a Utf8 into the buffer.
fn put_constant(constant: &Constant<Bytes>, out: &mut Vec<u8>) -> Result<(), AllocError>
    requires { is_kind kinds.Utf8 constant.now ≡ false }
    ensures { IfOk result (λ _. out.new.items ≡ out.old.items ++ constant_bytes constant.now) }
{
    match constant {
        Constant::Utf8(_) => unreachable!(),
        Constant::Integer(bits) => put_bits(Kind::Integer, *bits, out),
        Constant::Float(bits) => put_bits(Kind::Float, *bits, out),
        Constant::Long(bits) => put_wide(Kind::Long, *bits, out),
        Constant::Double(bits) => put_wide(Kind::Double, *bits, out),
        Constant::Class { name } => put_index(Kind::Class, *name, out),
        Constant::String { utf8 } => put_index(Kind::String, *utf8, out),
        Constant::Fieldref {
            class,
            name_and_type,
        } => put_indexes(Kind::Fieldref, *class, *name_and_type, out),
        Constant::Methodref {
            class,
            name_and_type,
        } => put_indexes(Kind::Methodref, *class, *name_and_type, out),
        Constant::InterfaceMethodref {
            class,
            name_and_type,
        } => put_indexes(Kind::InterfaceMethodref, *class, *name_and_type, out),
        Constant::NameAndType { name, descriptor } => {
            put_indexes(Kind::NameAndType, *name, *descriptor, out)
        }
        Constant::MethodHandle { kind, reference } => put_handle(*kind, *reference, out),
        Constant::MethodType { descriptor } => put_index(Kind::MethodType, *descriptor, out),
        Constant::InvokeDynamic {
            bootstrap_method,
            name_and_type,
        } => put_indexes(Kind::InvokeDynamic, *bootstrap_method, *name_and_type, out),
    }
}

/// A Utf8 of `count` bytes, from the runs.
fn spell_utf8<'a>(count: u16, runs: &'a [u64], out: &mut Vec<u8>) -> Result<&'a [u64], RecordFault>
    ensures read { Gives (λ x. (out.new.items, x.now)) result
        (appended out.old.items utf8_bytes (run_at count runs.now)) }
    ensures suffix { IfOk result (λ x. length x.now ≤ length runs.now) }
{
    put_index(Kind::Utf8, count, out)?;
    let rest = spell_run(usize::from(count), runs, out)?;
    Ok(rest)
}

/// A constant, from the directory and the runs, in a record of `total` words; whether it is wide,
/// and what is left.
#[tactic(auto, unfolding(crate::specs::Reading::constant_at))]
fn spell_constant<'a, 'b>(
    total: usize,
    main: &'a [u64],
    runs: &'b [u64],
    out: &mut Vec<u8>,
) -> Result<(bool, &'a [u64], &'b [u64]), RecordFault>
    requires short { total ≤ limit }
    requires suffix { length runs.now ≤ total }
    ensures read { Gives (λ x. (out.new.items, x.0, x.1.now, x.2.now)) result
        (constant_behind out.old.items (constant_at total main.now runs.now)) }
    ensures suffix { IfOk result (λ x. length x.2.now ≤ length runs.now) }
{
    let [word, main @ ..] = main else {
        return Err(RecordFault::NotARecord);
    };
    let at = (total - runs.len()) as u64;
    match entry_at(at, *word).ok_or(RecordFault::NotARecord)? {
        DirectoryEntry::Utf8(count) => {
            let runs = spell_utf8(count, runs, out)?;
            Ok((false, main, runs))
        }
        DirectoryEntry::Long => {
            let [bits, main @ ..] = main else {
                return Err(RecordFault::NotARecord);
            };
            put_wide(Kind::Long, *bits, out)?;
            Ok((true, main, runs))
        }
        DirectoryEntry::Double => {
            let [bits, main @ ..] = main else {
                return Err(RecordFault::NotARecord);
            };
            put_wide(Kind::Double, *bits, out)?;
            Ok((true, main, runs))
        }
        DirectoryEntry::Whole(constant) => {
            put_constant(&constant, out)?;
            Ok((constant.is_wide(), main, runs))
        }
    }
}

/// `count` slots of the constant pool, and what is left after them.
pub(crate) fn spell_slots<'a, 'b>(
    total: usize,
    count: usize,
    main: &'a [u64],
    runs: &'b [u64],
    out: &mut Vec<u8>,
) -> Result<(&'a [u64], &'b [u64]), RecordFault>
    requires short { total ≤ limit }
    requires suffix { length runs.now ≤ total }
    ensures read { Gives (λ x. (out.new.items, x.0.now, x.1.now)) result
        (behind3 out.old.items (flat_map slot_bytes)
        (slots_at total false count main.now runs.now)) }
    ensures suffix { IfOk result (λ x. length x.1.now ≤ length runs.now) }
{
    let mut second = false;
    let (mut main, mut runs) = (main, runs);
    for _ in 0..count {
        if second {
            second = false;
            continue;
        }
        let (wide, main_behind, runs_behind) = spell_constant(total, main, runs, out)?;
        second = wide;
        main = main_behind;
        runs = runs_behind;
    }
    if second {
        return Err(RecordFault::NotARecord);
    }
    Ok((main, runs))
}

/// `count` interfaces, and what is left after them.
pub(crate) fn spell_interfaces<'a>(
    count: u16,
    words: &'a [u64],
    out: &mut Vec<u8>,
) -> Result<&'a [u64], RecordFault>
    ensures { Gives (λ x. (out.new.items, x.now)) result
        (appended out.old.items (counted u2) (interfaces_from count words.now)) }
{
    put_u16(count, out)?;
    let mut rest = words;
    for _ in 0..count {
        let [word, following @ ..] = rest else {
            return Err(RecordFault::NotARecord);
        };
        if *word >= SECOND {
            return Err(RecordFault::NotARecord);
        }
        put_u16(*word as u16, out)?;
        rest = following;
    }
    Ok(rest)
}

/// An attribute of this name with a content of `count` bytes, from the runs.
fn spell_content<'a>(
    name: u16,
    count: u32,
    runs: &'a [u64],
    out: &mut Vec<u8>,
) -> Result<&'a [u64], RecordFault>
    ensures read { Gives (λ x. (out.new.items, x.now)) result
        (appended out.old.items (content_bytes name) (run_at count runs.now)) }
    ensures suffix { IfOk result (λ x. length x.now ≤ length runs.now) }
{
    put_u16(name, out)?;
    put_u32(count, out)?;
    let rest = spell_run(count as usize, runs, out)?;
    Ok(rest)
}

/// An attribute, from the attributes and the runs, and what is left after it.
#[tactic(auto, unfolding(crate::specs::Reading::attribute_at))]
fn spell_attribute<'a, 'b>(
    total: usize,
    attributes: &'a [u64],
    runs: &'b [u64],
    out: &mut Vec<u8>,
) -> Result<(&'a [u64], &'b [u64]), RecordFault>
    requires { length runs.now ≤ total }
    ensures read { Gives (λ x. (out.new.items, x.0.now, x.1.now)) result
        (behind3 out.old.items attribute_bytes (attribute_at total attributes.now runs.now)) }
    ensures suffixes { IfOk result (λ x. (length x.0.now ≤ length attributes.now)
        × (length x.1.now ≤ length runs.now)) }
{
    let [word, at, following @ ..] = attributes else {
        return Err(RecordFault::NotARecord);
    };
    let (name, count) = (first(*word), upper(*word));
    if attribute_word(name, count) != *word || *at != (total - runs.len()) as u64 {
        return Err(RecordFault::NotARecord);
    }
    let runs = spell_content(name, count, runs, out)?;
    Ok((following, runs))
}

/// `count` attributes, and what is left after them.
pub(crate) fn spell_attributes<'a, 'b>(
    total: usize,
    count: u16,
    attributes: &'a [u64],
    runs: &'b [u64],
    out: &mut Vec<u8>,
) -> Result<(&'a [u64], &'b [u64]), RecordFault>
    requires { length runs.now ≤ total }
    ensures read { Gives (λ x. (out.new.items, x.0.now, x.1.now)) result
        (behind3 out.old.items (counted attribute_bytes)
        (attributes_from total count attributes.now runs.now)) }
    ensures suffixes { IfOk result (λ x. (length x.0.now ≤ length attributes.now)
        × (length x.1.now ≤ length runs.now)) }
{
    put_u16(count, out)?;
    let (mut attributes, mut runs) = (attributes, runs);
    for _ in 0..count {
        let (following, runs_behind) = spell_attribute(total, attributes, runs, out)?;
        attributes = following;
        runs = runs_behind;
    }
    Ok((attributes, runs))
}

/// A member, from the members, the attributes and the runs, and what is left after it.
#[tactic(auto, using(cm_record_layout::proofs::four_numbers_test), unfolding(crate::specs::Reading::member_at))]
fn spell_member<'a, 'b, 'c>(
    total: usize,
    main: &'a [u64],
    attributes: &'b [u64],
    runs: &'c [u64],
    out: &mut Vec<u8>,
) -> Result<(&'a [u64], &'b [u64], &'c [u64]), RecordFault>
    requires attributes { length attributes.now ≤ total }
    requires runs { length runs.now ≤ total }
    ensures read { Gives (λ x. (out.new.items, x.0.now, x.1.now, x.2.now)) result
        (behind4 out.old.items member_bytes
        (member_at total main.now attributes.now runs.now)) }
    ensures suffixes { IfOk result (λ x. (length x.1.now ≤ length attributes.now)
        × (length x.2.now ≤ length runs.now)) }
{
    let [word, at, following @ ..] = main else {
        return Err(RecordFault::NotARecord);
    };
    if *at != (total - attributes.len()) as u64 {
        return Err(RecordFault::NotARecord);
    }
    put_u16(first(*word), out)?;
    put_u16(second(*word), out)?;
    put_u16(third(*word), out)?;
    let (attributes, runs) = spell_attributes(total, fourth(*word), attributes, runs, out)?;
    Ok((following, attributes, runs))
}

/// `count` members, and what is left after them.
pub(crate) fn spell_members<'a, 'b, 'c>(
    total: usize,
    count: u16,
    main: &'a [u64],
    attributes: &'b [u64],
    runs: &'c [u64],
    out: &mut Vec<u8>,
) -> Result<(&'a [u64], &'b [u64], &'c [u64]), RecordFault>
    requires attributes { length attributes.now ≤ total }
    requires runs { length runs.now ≤ total }
    ensures read { Gives (λ x. (out.new.items, x.0.now, x.1.now, x.2.now)) result
        (behind4 out.old.items (counted member_bytes)
        (members_from total count main.now attributes.now runs.now)) }
    ensures suffixes { IfOk result (λ x. (length x.1.now ≤ length attributes.now)
        × (length x.2.now ≤ length runs.now)) }
{
    put_u16(count, out)?;
    let (mut main, mut attributes, mut runs) = (main, attributes, runs);
    for _ in 0..count {
        let (following, attributes_behind, runs_behind) = spell_member(
            total, main, attributes, runs, out,
        )?;
        main = following;
        attributes = attributes_behind;
        runs = runs_behind;
    }
    Ok((main, attributes, runs))
}

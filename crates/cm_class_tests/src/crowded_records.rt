//! Members and code of records whose indexes cost much to compare, so that they are found by marks.
use crate::member_samples::{Indexes, class_bytes};
use crate::record_samples::record_of;
use cm_class::Constant;
use cm_record::Record;
use std::alloc::{AllocError, Global};
use std::test::Fail;

const MEMBERS: [Indexes; 5] = [(1, 2), (1, 3), (1, 4), (1, 5), (1, 6)];

// Fields and methods of one name, each with a different descriptor except the last one.
fn overloads(alloc: Global, name: &[u8]) -> Result<Record, Fail> {
    let utf8s: [&[u8]; 6] = [name, b"()B", b"()C", b"()D", b"()F", b"()B"];
    record_of(alloc, &class_bytes(alloc, &utf8s, &MEMBERS, &MEMBERS)?)
}

fn indexes(record: &Record, name: &[u8], descriptor: &[u8]) -> [Option<u16>; 2] {
    let found = [
        record.field(name, descriptor),
        record.method(name, descriptor),
    ];
    found.map(|member| member.map(|member| member.index))
}

const EXPECTED: [(&[u8], Option<u16>); 6] = [
    (b"()B", Some(0)),
    (b"()C", Some(1)),
    (b"()D", Some(2)),
    (b"()F", Some(3)),
    (b"()J", None),
    (b"()", None),
];

// Whether each descriptor is found under the name.
fn has_each(record: &Record, name: &[u8]) -> bool {
    for (descriptor, index) in &EXPECTED {
        if indexes(record, name, descriptor) != [*index; 2] {
            return false;
        }
    }
    true
}

fn has_none(record: &Record, name: &[u8]) -> bool {
    indexes(record, name, b"()B") == [None; 2]
}

// Two comparisons of the name read more words than the record has.
#[test]
fn members_of_one_long_name_are_found(rt: HostRuntime) -> Result<(), Fail> {
    let mut name = Vec::from_elem(rt.alloc(), b'n', 4_000)?;
    let record = overloads(rt.alloc(), &name)?;
    assert!(rt; has_each(&record, &name));
    name[3_999] = b'm';
    assert!(rt; has_none(&record, &name) && has_none(&record, &name[..3_999]));
    Ok(())
}

const LONGS: u16 = 100;

// The first index after the Longs, that of `Junk`.
const JUNK: u16 = 2 * LONGS + 1;

const UTF8S: [u8; 20] = *b"\x01\0\x04Junk\x01\0\x04Code\x01\0\x03()V";

fn put_attribute(bytes: &mut Vec<u8>, name: u16, content: &[u8]) -> Result<(), Fail> {
    bytes.extend_from_slice(&name.to_be_bytes())?;
    bytes.extend_from_slice(&u32::try_from(content.len())?.to_be_bytes())?;
    Ok(bytes.extend_from_slice(content)?)
}

// Max stack 1, max locals 2, no code, no handlers, no attributes.
const BODY: [u8; 12] = [0, 1, 0, 2, 0, 0, 0, 0, 0, 0, 0, 0];

// A method `Junk` of `()V` with three attributes: `Junk`, one whose name is at this index, and
// `Code`.
fn put_method(bytes: &mut Vec<u8>, second_name: u16) -> Result<(), Fail> {
    for number in [1, 0, JUNK, JUNK + 2, 3] {
        bytes.extend_from_slice(&u16::to_be_bytes(number))?;
    }
    put_attribute(bytes, JUNK, b"")?;
    put_attribute(bytes, second_name, b"")?;
    put_attribute(bytes, JUNK + 1, &BODY)
}

// A heading, and a pool: before the Utf8s it has Longs whose bits are 5, like the directory word of
// a Long, except the last one, which has these bits.
fn put_pool(bytes: &mut Vec<u8>, last: u64) -> Result<(), AllocError> {
    bytes.extend_from_slice(&[0xca, 0xfe, 0xba, 0xbe, 0, 0, 0, 0x34])?;
    bytes.extend_from_slice(&u16::to_be_bytes(JUNK + 3))?;
    for at in 1..=LONGS {
        let bits = if at == LONGS { last } else { 5 };
        bytes.push(5)?;
        bytes.extend_from_slice(&bits.to_be_bytes())?;
    }
    bytes.extend_from_slice(&UTF8S)
}

fn put_class(bytes: &mut Vec<u8>, last: u64, second_name: u16) -> Result<(), Fail> {
    put_pool(bytes, last)?;
    // No flags, no class of its own, no super class, no interfaces, no fields.
    bytes.extend_from_slice(&[0; 10])?;
    put_method(bytes, second_name)?;
    Ok(bytes.extend_from_slice(&[0, 0])?)
}

// A class with that method and such a pool.
fn behind_longs(alloc: Global, last: u64, second_name: u16) -> Result<Record, Fail> {
    let mut bytes = Vec::new(alloc);
    put_class(&mut bytes, last, second_name)?;
    record_of(alloc, &bytes)
}

// The index of the method, and the stack and the locals of its code.
fn find_member(record: &Record) -> Option<(u16, u16, u16)> {
    let method = record.method(b"Junk", b"()V")?;
    let code = record.code(&method)?;
    Some((method.index, code.max_stack, code.max_locals))
}

// Whether the method is found, none of another name, and no constant at the last Long's second
// slot.
fn has_one_method(record: &Record) -> bool {
    find_member(record) == Some((0, 1, 2))
        && record.method(b"Code", b"()V").is_none()
        && record.constant(JUNK - 1).is_none()
}

#[test]
fn what_stands_behind_longs_is_found(rt: HostRuntime) -> Result<(), Fail> {
    let record = behind_longs(rt.alloc(), 5, JUNK)?;
    assert!(rt; has_one_method(&record));
    Ok(())
}

// The directory's word of `Code`.
fn word_of_code(record: &Record) -> Result<u64, Fail> {
    let Some(Constant::Utf8(place)) = record.constant(JUNK + 1) else {
        return Err(Fail::new("it has the name"));
    };
    Ok(1 + (u64::from(place.len) << 16) + (u64::from(place.at / 8) << 32))
}

// The second slot of the last Long has the word of `Code`, but is no constant.
#[test]
fn a_second_slot_leads_to_no_name(rt: HostRuntime) -> Result<(), Fail> {
    let word = word_of_code(&behind_longs(rt.alloc(), 5, JUNK)?)?;
    let record = behind_longs(rt.alloc(), word, JUNK - 1)?;
    assert!(rt; has_one_method(&record));
    Ok(())
}

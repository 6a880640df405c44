//! Constants, fields, methods and code, found in records.
use crate::record_samples::{ALL_TAGS, record_bytes, record_of};
use crate::samples::{join_parts, with_byte};
use cm_class::Constant;
use cm_record::{Code, Member, Record, Utf8Place};
use cm_samples::CLASS_A;
use std::alloc::Global;
use std::cmp::Ordering;
use std::process::Abort;
use std::test::Fail;

// The constants of the class with all tags, by their indexes; its first run begins at word 39.
static CONSTANTS: [(u16, Option<Constant<Utf8Place>>); 18] = [
    (0, None),
    (1, Some(Constant::Utf8(Utf8Place { at: 312, len: 9 }))),
    (2, Some(Constant::Integer(0x0102_0304))),
    (3, Some(Constant::Float(0xfffe_fdfc))),
    (4, Some(Constant::Long(0x0102_0304_0506_0708))),
    (5, None),
    (6, Some(Constant::Double(0x0700_0000_0000_0007))),
    (7, None),
    (8, Some(Constant::Class { name: 1 })),
    (9, Some(Constant::String { utf8: 0xffff })),
    (
        10,
        Some(Constant::Fieldref {
            class: 8,
            name_and_type: 12,
        }),
    ),
    (
        11,
        Some(Constant::Methodref {
            class: 8,
            name_and_type: 12,
        }),
    ),
    (
        12,
        Some(Constant::InterfaceMethodref {
            class: 0x0102,
            name_and_type: 0x0304,
        }),
    ),
    (
        13,
        Some(Constant::NameAndType {
            name: 1,
            descriptor: 1,
        }),
    ),
    (
        14,
        Some(Constant::MethodHandle {
            kind: 6,
            reference: 10,
        }),
    ),
    (15, Some(Constant::MethodType { descriptor: 1 })),
    (
        16,
        Some(Constant::InvokeDynamic {
            bootstrap_method: 0,
            name_and_type: 13,
        }),
    ),
    (17, None),
];

fn has_constants(rt: &impl Abort, record: &Record, rows: &[(u16, Option<Constant<Utf8Place>>)]) {
    for (index, constant) in rows {
        assert!(rt; record.constant(*index) == *constant, "at {index}");
    }
}

fn record_of_parts(alloc: Global, parts: &[&[u8]]) -> Result<Record, Fail> {
    let bytes = join_parts(alloc, parts)?;
    record_of(alloc, &bytes)
}

#[test]
fn constants_stand_at_their_indexes(rt: HostRuntime) -> Result<(), Fail> {
    let record = record_of(rt.alloc(), &ALL_TAGS)?;
    has_constants(&rt, &record, &CONSTANTS);
    assert_eq!(rt; record.constant(0xffff), None);
    Ok(())
}

// Three Longs, 5 to 7, and an Integer, 9.
const LONGS: [u8; 32] = [
    5, 0, 0, 0, 0, 0, 0, 0, 5, 5, 0, 0, 0, 0, 0, 0, 0, 6, 5, 0, 0, 0, 0, 0, 0, 0, 7, 3, 0, 0, 0, 9,
];

const BEHIND_LONGS: [(u16, Option<Constant<Utf8Place>>); 8] = [
    (5, Some(Constant::Long(5))),
    (6, None),
    (7, Some(Constant::Long(6))),
    (8, None),
    (9, Some(Constant::Long(7))),
    (10, None),
    (11, Some(Constant::Integer(9))),
    (12, None),
];

// Longs whose bits look like the directory words of Longs: each second slot is unusable
// nevertheless.
#[test]
fn bits_that_look_like_constants_are_none(rt: HostRuntime) -> Result<(), Fail> {
    let parts: [&[u8]; 5] = [
        &CLASS_A[..9],
        &[12],
        &CLASS_A[10..39],
        &LONGS,
        &CLASS_A[39..],
    ];
    let record = record_of_parts(rt.alloc(), &parts)?;
    has_constants(&rt, &record, &BEHIND_LONGS);
    Ok(())
}

// Slots 5 to 8 after those of class A: `m`, `()V`, `Code` and `I`.
const MORE_SLOTS: [u8; 21] = [
    1, 0, 1, 0x6d, 1, 0, 3, 0x28, 0x29, 0x56, 1, 0, 4, 0x43, 0x6f, 0x64, 0x65, 1, 0, 1, 0x49,
];

// Max stack 2, max locals 3, one byte of code, one handler, no attributes.
static BODY: [u8; 21] = [
    0, 2, 0, 3, 0, 0, 0, 1, 0xb1, 0, 1, 0, 0, 0, 1, 0, 0, 0, 0, 0, 0,
];

// The bytes between the pool and the last byte of the code's length.
const BEFORE_CODE: [u8; 56] = [
    0, 0x21, 0, 1, 0, 3, 0, 0, // flags, this, super, no interfaces
    0, 2, 0, 1, 0, 5, 0, 8, 0, 0, 0, 2, 0, 5, 0, 6, 0, 0, // two fields
    0, 3, 0, 1, 0, 5, 0, 8, 0, 0, 0, 9, 0, 5, 0, 6, 0, 3, // two of three methods
    0, 5, 0, 0, 0, 1, 0xff, 0, 7, 0, 0, 0, // an attribute, and the code's name
];

// A second code, of no bytes, the third method, and no attributes.
const BEHIND_CODE: [u8; 16] = [0, 7, 0, 0, 0, 0, 0, 4, 0, 5, 0, 6, 0, 0, 0, 0];

// Class A with two fields `m` of I and `()V`, a method `m` of I without attributes, and two methods
// `m` of `()V`: the first has an attribute `m` and two `Code`, of these bytes and of none.
fn with_members(alloc: Global, body: &[u8]) -> Result<Record, Fail> {
    let parts: [&[u8]; 8] = [
        &CLASS_A[..9],
        &[9],
        &CLASS_A[10..39],
        &MORE_SLOTS,
        &BEFORE_CODE,
        &[u8::try_from(body.len()).unwrap_or(0)],
        body,
        &BEHIND_CODE,
    ];
    record_of_parts(alloc, &parts)
}

fn member(is_method: bool, index: u16, flags: u16, attributes: u16) -> Member {
    Member {
        is_method,
        index,
        flags,
        attributes,
    }
}

// Names and descriptors that no member has.
const OTHERS: [(&[u8], &[u8]); 5] = [
    (b"m", b"J"),
    (b"I", b"m"),
    (b"", b""),
    (b"mm", b"I"),
    (b"java/lang/Object", b"A"),
];

fn has_members(record: &Record) -> bool {
    record.field(b"m", b"I") == Some(member(false, 0, 1, 0))
        && record.field(b"m", b"()V") == Some(member(false, 1, 2, 0))
        && record.method(b"m", b"I") == Some(member(true, 0, 1, 0))
        && record.method(b"m", b"()V") == Some(member(true, 1, 9, 3))
}

fn has_no_others(record: &Record) -> bool {
    for (name, descriptor) in &OTHERS {
        if record.field(name, descriptor).is_some() || record.method(name, descriptor).is_some() {
            return false;
        }
    }
    true
}

#[test]
fn members_are_found_by_name_and_descriptor(rt: HostRuntime) -> Result<(), Fail> {
    let record = with_members(rt.alloc(), &BODY)?;
    assert!(rt; has_members(&record));
    assert!(rt; has_no_others(&record));
    Ok(())
}

fn method_of(record: &Record) -> Result<Member, Fail> {
    match record.method(b"m", b"()V") {
        Some(method) => Ok(method),
        None => Err(Fail::new("it has the method")),
    }
}

// Whether neither a field of the method's index nor another method has code.
fn others_have_none(record: &Record, method: Member) -> bool {
    let field = Member {
        is_method: false,
        ..method
    };
    if record.code(&field).is_some() {
        return false;
    }
    for index in &[0, 2, 3, 0xffff] {
        let other = Member {
            index: *index,
            ..method
        };
        if record.code(&other).is_some() {
            return false;
        }
    }
    true
}

// Whether a code has the parts of the body, which is there among the record's bytes.
fn is_body(code: &Code, bytes: &[u8]) -> bool {
    let expected = Code {
        max_stack: 2,
        max_locals: 3,
        code_len: 1,
        handlers: 1,
        ..*code
    };
    let (at, end) = (code.code_at as usize, code.code_at as usize + 11);
    *code == expected
        && code.handlers_at.checked_sub(code.code_at) == Some(3)
        && end <= bytes.len()
        && &bytes[at..end] == &BODY[8..19]
}

// Checks that the method has the code of the body, and nothing else has code.
fn has_code(rt: &impl Abort, record: &Record, bytes: &[u8]) -> Result<(), Fail> {
    let method = method_of(record)?;
    let code = record.code(&method).ok_or("it has a code")?;
    assert!(rt; is_body(&code, bytes));
    assert!(rt; others_have_none(record, method));
    Ok(())
}

#[test]
fn code_lies_where_it_says(rt: HostRuntime) -> Result<(), Fail> {
    let record = with_members(rt.alloc(), &BODY)?;
    let bytes = record_bytes(rt.alloc(), &record)?;
    has_code(&rt, &record, &bytes)
}

fn is_code(alloc: Global, body: &[u8]) -> Result<bool, Fail> {
    let record = with_members(alloc, body)?;
    let method = method_of(&record)?;
    Ok(record.code(&method).is_some())
}

// Ten bytes come before the code's end is known, and the handlers begin after one byte of code and
// their number.
#[test]
fn a_code_that_ends_early_is_none(rt: HostRuntime) -> Result<(), Fail> {
    for end in 0..BODY.len() {
        let is_found = is_code(rt.alloc(), &BODY[..end])?;
        assert!(rt; is_found == (end >= 19), "of {end} bytes");
    }
    Ok(())
}

// A place in class A, the byte put there, and whether it then has the same name: a letter of its
// name; this_class 3, which leads to `java/lang/Object`, and 2, a Utf8, which leads to no name.
const OTHER_BYTES: [(usize, u8, bool); 4] = [
    (16, 0x42, false),
    (42, 3, false),
    (42, 2, false),
    (42, 1, true),
];

fn has_same_name(alloc: Global, one: &Record, place: usize, byte: u8) -> Result<bool, Fail> {
    let other = record_of(alloc, &with_byte(place, byte))?;
    Ok(one.same_name(&other))
}

fn is_compared(rt: &(impl Abort + AllocGlobal), one: &Record) -> Result<(), Fail> {
    for (place, byte, is_same) in &OTHER_BYTES {
        let found = has_same_name(rt.alloc(), one, *place, *byte)?;
        assert!(rt; found == *is_same, "{byte} at {place}");
    }
    let other = with_members(rt.alloc(), &BODY)?;
    assert!(rt; one.same_name(&other));
    Ok(())
}

#[test]
fn names_are_compared(rt: HostRuntime) -> Result<(), Fail> {
    let one = record_of(rt.alloc(), &CLASS_A)?;
    is_compared(&rt, &one)
}

// The order of class A with one letter as its name, and with another.
fn order(alloc: Global, one: u8, two: u8) -> Result<Ordering, Fail> {
    let one = record_of(alloc, &with_byte(16, one))?;
    let two = record_of(alloc, &with_byte(16, two))?;
    Ok(one.cmp_name(&two))
}

// Two letters, and the order of the first and the second.
const ORDERS: [(u8, u8, Ordering); 3] = [
    (b'B', 0xc3, Ordering::Less),
    (0xc3, b'B', Ordering::Greater),
    (b'B', b'B', Ordering::Equal),
];

const LETTERS: [(&[u8], Ordering); 5] = [
    (b"A", Ordering::Greater),
    (b"", Ordering::Greater),
    (b"B", Ordering::Equal),
    (b"BA", Ordering::Less),
    (b"C", Ordering::Less),
];

const NINES: [(&[u8], Ordering); 3] = [
    (&[1, 2, 3, 4, 5, 6, 7, 8, 9], Ordering::Equal),
    (&[1, 2, 3, 4, 5, 6, 7, 8], Ordering::Greater),
    (&[1, 2, 3, 4, 5, 6, 7, 8, 10], Ordering::Less),
];

fn are_ordered(record: &Record, names: &[(&[u8], Ordering)]) -> bool {
    for (name, order) in names {
        if record.cmp_name_to(name) != *order {
            return false;
        }
    }
    true
}

// Whether the name of the class of these bytes compares like this with each of these.
fn is_ordered(alloc: Global, bytes: &[u8], names: &[(&[u8], Ordering)]) -> Result<bool, Fail> {
    let record = record_of(alloc, bytes)?;
    Ok(are_ordered(&record, names))
}

#[test]
fn names_are_ordered_by_their_bytes(rt: HostRuntime) -> Result<(), Fail> {
    for (one, two, expected) in &ORDERS {
        assert_eq!(rt; order(rt.alloc(), *one, *two)?, *expected);
    }
    assert!(rt; is_ordered(rt.alloc(), &with_byte(16, b'B'), &LETTERS)?);
    assert!(rt; is_ordered(rt.alloc(), &ALL_TAGS, &NINES)?);
    Ok(())
}

//! The parts of classes, read from their bytes.
use crate::samples::EACH_KIND;
use cm_class::{Attributes, Class, Constant, Member, Slot, read_shape};
use cm_samples::CLASS_A;
use std::process::Abort;
use std::test::Fail;

/// A constant's tag, and its numbers in the file's order; 0 for one that it doesn't have. For a
/// Utf8 only the tag.
type Numbers = (u8, u64, u16);

/// `None` if the slot can't be used.
fn numbers(slot: &Slot) -> Option<Numbers> {
    let Slot::Usable(constant) = slot else {
        return None;
    };
    Some(match constant {
        Constant::Utf8(_) => (1, 0, 0),
        Constant::Integer(bits) => (3, *bits as u64, 0),
        Constant::Float(bits) => (4, *bits as u64, 0),
        Constant::Long(bits) => (5, *bits, 0),
        Constant::Double(bits) => (6, *bits, 0),
        Constant::Class { name } => (7, *name as u64, 0),
        Constant::String { utf8 } => (8, *utf8 as u64, 0),
        Constant::Fieldref {
            class,
            name_and_type,
        } => (9, *class as u64, *name_and_type),
        Constant::Methodref {
            class,
            name_and_type,
        } => (10, *class as u64, *name_and_type),
        Constant::InterfaceMethodref {
            class,
            name_and_type,
        } => (11, *class as u64, *name_and_type),
        Constant::NameAndType { name, descriptor } => (12, *name as u64, *descriptor),
        Constant::MethodHandle { kind, reference } => (15, *kind as u64, *reference),
        Constant::MethodType { descriptor } => (16, *descriptor as u64, 0),
        Constant::InvokeDynamic {
            bootstrap_method,
            name_and_type,
        } => (18, *bootstrap_method as u64, *name_and_type),
    })
}

/// Whether a class has these slots, from index 1 on, and no more.
fn has_slots(class: &Class, expected: &[Option<Numbers>]) -> bool {
    for (slot, expected) in class.slots().iter().zip(expected) {
        if numbers(slot) != *expected {
            return false;
        }
    }
    class.slots().len() == expected.len()
}

/// Whether the slots of a class have these texts; a slot without a Utf8 has an empty one.
fn has_texts(class: &Class, expected: &[&[u8]]) -> bool {
    for (slot, expected) in class.slots().iter().zip(expected) {
        let text = match slot {
            Slot::Usable(Constant::Utf8(text)) => text.as_slice(),
            _ => &[],
        };
        if text != *expected {
            return false;
        }
    }
    true
}

fn is_class_a(rt: &impl Abort, class: &Class) {
    let numbers = [class.flags(), class.this_class(), class.super_class()];
    assert_eq!(rt; numbers, [0x21, 1, 3]);
    let slots = [
        Some((7, 2, 0)),
        Some((1, 0, 0)),
        Some((7, 4, 0)),
        Some((1, 0, 0)),
    ];
    assert!(rt; has_slots(class, &slots));
    assert!(rt; has_texts(class, &[b"", b"A", b"", b"java/lang/Object"]));
    let counts = [
        class.interfaces().len(),
        class.fields().len(),
        class.methods().len(),
        class.attributes().len(),
    ];
    assert_eq!(rt; counts, [0, 0, 0, 0]);
}

#[test]
fn class_a(rt: HostRuntime) -> Result<(), Fail> {
    let class = read_shape(rt.alloc(), &CLASS_A)?;
    is_class_a(&rt, &class);
    Ok(())
}

/// The constants of the class with each kind of part.
static CONSTANTS: [Option<Numbers>; 16] = [
    Some((1, 0, 0)),
    Some((3, 0x0102_0304, 0)),
    Some((4, 0x7fc0_0000, 0)),
    Some((5, 9, 0)),
    None,
    Some((6, 0x0100_0000_0000_0000, 0)),
    None,
    Some((7, 1, 0)),
    Some((8, 1, 0)),
    Some((9, 8, 13)),
    Some((10, 0xffff, 13)),
    Some((11, 8, 13)),
    Some((12, 1, 2)),
    Some((15, 6, 11)),
    Some((16, 1, 0)),
    Some((18, 0, 13)),
];

#[test]
fn each_kind_of_constant(rt: HostRuntime) -> Result<(), Fail> {
    let class = read_shape(rt.alloc(), &EACH_KIND)?;
    assert!(rt; has_slots(&class, &CONSTANTS));
    Ok(())
}

/// Whether there is exactly one attribute, with this name and these bytes.
fn is_one_attribute(attributes: &Attributes, name: u16, bytes: &[u8]) -> bool {
    let mut rest = attributes.iter();
    match rest.next() {
        Some(first) => rest.next().is_none() && first.name == name && first.content() == bytes,
        None => false,
    }
}

/// The only member, if there is exactly one, with these flags and these indexes of its name and
/// descriptor.
fn one_member<'m, 'a>(members: &'m [Member<'a>], expected: [u16; 3]) -> Option<&'m Member<'a>> {
    let (first, others) = members.split_first()?;
    let numbers = [first.flags, first.name, first.descriptor];
    if others.is_empty() && numbers == expected {
        Some(first)
    } else {
        None
    }
}

fn has_field(class: &Class) -> bool {
    one_member(class.fields(), [0x19, 1, 1]).is_some_and(|field| is_one_attribute(
        &field.attributes(),
        1,
        &[0xab, 0xcd],
    ))
}

fn has_method(class: &Class) -> bool {
    one_member(class.methods(), [0x401, 2, 3]).is_some_and(|method| method.attributes().len() == 0)
}

fn has_each_part(rt: &impl Abort, class: &Class) {
    assert_eq!(rt; class.interfaces(), [8].as_slice());
    assert!(rt; has_field(class) && has_method(class));
    assert!(rt; is_one_attribute(&class.attributes(), 5, &[]));
}

#[test]
fn each_kind_of_part(rt: HostRuntime) -> Result<(), Fail> {
    let class = read_shape(rt.alloc(), &EACH_KIND)?;
    has_each_part(&rt, &class);
    Ok(())
}

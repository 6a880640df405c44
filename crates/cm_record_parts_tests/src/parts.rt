//! The parts of a class.

use crate::sample::{CLASS_FILE, WORDS};
use cm_class::Constant;
use cm_record_parts::{
    Attribute, Member, NestedAttributes, Owner, Place, PoolConstant, attribute_at, attribute_count,
    attribute_named, class_file, class_name, constant, field, field_count, flags, interface,
    interface_count, method, method_count, nested_attribute, nested_attributes, next_constant,
    pool_count, super_name,
};
use std::test::Fail;

/// The attribute of `run`.
const CODE: Attribute = Attribute {
    name: Place { at: 264, len: 4 },
    content: Place { at: 272, len: 13 },
};

#[test]
fn the_class_has_its_names_and_counts(rt: HostRuntime) {
    assert_eq!(rt; flags(&WORDS), 0x21);
    assert_eq!(rt; class_name(&WORDS), Place { at: 208, len: 1 });
    assert_eq!(rt; super_name(&WORDS), Some(Place { at: 216, len: 16 }));
    assert_eq!(rt; interface_count(&WORDS), 0);
    assert_eq!(rt; interface(&WORDS, 0), None);
    assert_eq!(rt; pool_count(&WORDS), 12);
    assert_eq!(rt; field_count(&WORDS), 1);
    assert_eq!(rt; method_count(&WORDS), 1);
}

#[test]
fn constants_follow_each_other(rt: HostRuntime) {
    let long = Constant::Long(0x1_0000_0002);
    assert_eq!(rt; constant(&WORDS, 10), Some(long));
    assert_eq!(rt; constant(&WORDS, 11), None);
    let last = PoolConstant {
        index: 10,
        constant: long,
    };
    assert_eq!(rt; next_constant(&WORDS, 9), Some(last));
    assert_eq!(rt; next_constant(&WORDS, 10), None);
}

#[test]
fn members_have_their_names_and_descriptors(rt: HostRuntime) {
    let x = Member {
        flags: 2,
        name: Place { at: 232, len: 1 },
        descriptor: Place { at: 240, len: 1 },
        attributes: 0,
    };
    let run = Member {
        flags: 1,
        name: Place { at: 248, len: 3 },
        descriptor: Place { at: 256, len: 3 },
        attributes: 1,
    };
    assert_eq!(rt; field(&WORDS, 0), Some(x));
    assert_eq!(rt; field(&WORDS, 1), None);
    assert_eq!(rt; method(&WORDS, 0), Some(run));
    assert_eq!(rt; method(&WORDS, 1), None);
}

#[test]
fn attributes_have_their_contents(rt: HostRuntime) {
    assert_eq!(rt; attribute_count(&WORDS, Owner::Class), 0);
    assert_eq!(rt; attribute_count(&WORDS, Owner::Method(0)), 1);
    assert_eq!(rt; attribute_at(&WORDS, Owner::Method(0), 0), Some(CODE));
    assert_eq!(rt; attribute_at(&WORDS, Owner::Field(0), 0), None);
    assert_eq!(rt;
        attribute_named(&WORDS, Owner::Method(0), b"Code"),
        Some(CODE)
    );
    assert_eq!(rt; attribute_named(&WORDS, Owner::Method(0), b"Core"), None);
    let nested = NestedAttributes { from: 13, count: 0 };
    assert_eq!(rt; nested_attributes(&WORDS, CODE.content), Some(nested));
    assert_eq!(rt; nested_attribute(&WORDS, CODE.content, 13), None);
}

#[test]
fn the_class_file_is_that_which_was_defined(rt: HostRuntime) -> Result<(), Fail> {
    let mut bytes = Vec::new(rt.alloc());
    class_file(&WORDS, &mut bytes).map_err(|_| "no class file")?;
    assert!(rt; bytes.as_slice() == CLASS_FILE.as_slice());
    Ok(())
}

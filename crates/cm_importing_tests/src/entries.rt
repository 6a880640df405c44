//! The class files of a jar.

use cm_found_classes::class_entries;
use cm_jar::{Jar, JarFault};
use std::alloc::Global;
use std::test::*;

/// A jar that Python's zipfile made, with five empty files: `A.class`, `p/package-info.class`,
/// `p/B.class`, `module-info.class` and `B.txt`.
const JAR: &[u8] = b"PK\x03\x04\x14\0\0\0\0\0\0\0!\0\0\0\0\0\0\0\0\0\0\0\0\0\x07\0\0\0A.class\
    PK\x03\x04\
    \x14\0\0\0\0\0\0\0!\0\0\0\0\0\0\0\0\0\0\0\0\0\x14\0\0\0p/package-info.classPK\x03\
    \x04\x14\0\0\0\0\0\0\0!\0\0\0\0\0\0\0\0\0\0\0\0\0\x09\0\0\0p/B.classPK\x03\x04\x14\0\
    \0\0\0\0\0\0!\0\0\0\0\0\0\0\0\0\0\0\0\0\x11\0\0\0module-info.classPK\x03\x04\x14\0\0\
    \0\0\0\0\0!\0\0\0\0\0\0\0\0\0\0\0\0\0\x05\0\0\0B.txtPK\x01\x02\x14\x03\x14\0\0\0\0\0\
    \0\0!\0\0\0\0\0\0\0\0\0\0\0\0\0\x07\0\0\0\0\0\0\0\0\0\0\0\x80\x01\0\0\0\0A.classPK\
    \x01\x02\x14\x03\x14\0\0\0\0\0\0\0!\0\0\0\0\0\0\0\0\0\0\0\0\0\x14\0\0\0\0\0\0\0\0\0\
    \0\0\x80\x01%\0\0\0p/package-info.classPK\x01\x02\x14\x03\x14\0\0\0\0\0\0\0!\0\0\0\0\
    \0\0\0\0\0\0\0\0\0\x09\0\0\0\0\0\0\0\0\0\0\0\x80\x01W\0\0\0p/B.classPK\x01\x02\x14\
    \x03\x14\0\0\0\0\0\0\0!\0\0\0\0\0\0\0\0\0\0\0\0\0\x11\0\0\0\0\0\0\0\0\0\0\0\x80\x01~\
    \0\0\0module-info.classPK\x01\x02\x14\x03\x14\0\0\0\0\0\0\0!\0\0\0\0\0\0\0\0\0\0\0\0\
    \0\x05\0\0\0\0\0\0\0\0\0\0\0\x80\x01\xad\0\0\0B.txtPK\x05\x06\0\0\0\0\x05\0\x05\0 \
    \x01\0\0\xd0\0\0\0\0\0";

/// Whether exactly `A.class` and `p/B.class` are the class files of the jar, in this order.
fn are_the_classes(alloc: Global) -> Result<bool, JarFault> {
    let jar = Jar::read(alloc, JAR)?;
    let entries = class_entries(alloc, &jar)?;
    let names: [&[u8]; 2] = [b"A.class", b"p/B.class"];
    let mut are = entries.len() == names.len();
    for (entry, name) in entries.iter().zip(&names) {
        are &= entry.name() == *name;
    }
    Ok(are)
}

#[test]
fn a_jar_has_two_class_files(rt: HostRuntime) -> Result<(), Fail> {
    assert!(rt; are_the_classes(rt.alloc())?);
    Ok(())
}

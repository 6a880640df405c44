//! Which names are those of class files and of jars.

use cm_found_classes::{is_class_name, is_jar_name};
use std::test::*;

/// Names, and whether a class file has this name.
const NAMES: [(&[u8], bool); 10] = [
    (b"A.class", true),
    (b"p/A.class", true),
    (b".class", true),
    (b"A.CLASS", false),
    (b"A.class/", false),
    (b"module-info.class", false),
    (b"p/package-info.class", false),
    (b"META-INF/versions/9/module-info.class", false),
    (b"p/amodule-info.class", true),
    (b"", false),
];

#[test]
fn names_of_class_files_are_known(rt: HostRuntime) {
    for (name, is_class) in &NAMES {
        assert_eq!(rt; is_class_name(name), *is_class);
    }
}

#[test]
fn names_of_jars_end_in_jar(rt: HostRuntime) {
    assert!(rt; is_jar_name(b"lib/a.jar") && is_jar_name(b".jar"));
    assert!(rt; !is_jar_name(b"a.jar/b") && !is_jar_name(b"a.JAR") && !is_jar_name(b"jar"));
}

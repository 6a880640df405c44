//! Which bytes are a Utf8, a name or a descriptor, checked one by one and all at once.

use cm_descriptors::{
    Judgement, begins_with, ends_in_void, first, has_utf8_form, is_class_name, is_field_descriptor,
    is_method_name, is_unqualified_name, judge, method_units,
};

/// Bytes, and whether they have the form of a Utf8.
static FORMS: [(&[u8], bool); 12] = [
    (b"", true),
    (b"\x01\x7f", true),
    (b"\xc0\x80", true),
    (b"\xdf\xbfa", true),
    (b"\xe0\x80\x80\xef\xbf\xbf", true),
    (b"\x00", false),
    (b"a\x80", false),
    (b"\xc0", false),
    (b"\xc0a", false),
    (b"\xe0\x80", false),
    (b"\xe0\x80\xc0", false),
    (b"\xf0\x80\x80\x80", false),
];

#[test]
fn utf8_forms(rt: HostRuntime) {
    for (bytes, expected) in &FORMS {
        assert_eq!(rt; has_utf8_form(bytes), *expected, "at {bytes:?}");
    }
}

/// Bytes, and whether they are an unqualified name, a method's name, a class name.
static NAMES: [(&[u8], bool, bool, bool); 12] = [
    (b"a", true, true, true),
    (b"a b", true, true, true),
    (b"<init>", true, true, true),
    (b"<clinit>", true, true, true),
    (b"<a>", true, false, true),
    (b"a/b", false, false, true),
    (b"", false, false, false),
    (b"/a", false, false, false),
    (b"a//b", false, false, false),
    (b"a.b", false, false, false),
    (b"a;", false, false, false),
    (b"[a", false, false, false),
];

#[test]
fn names(rt: HostRuntime) {
    for (bytes, unqualified, of_a_method, of_a_class) in &NAMES {
        assert_eq!(rt; is_unqualified_name(bytes), *unqualified, "at {bytes:?}");
        assert_eq!(rt; is_method_name(bytes), *of_a_method, "at {bytes:?}");
        assert_eq!(rt; is_class_name(bytes), *of_a_class, "at {bytes:?}");
    }
}

/// Bytes, and whether they are a field's descriptor.
static FIELDS: [(&[u8], bool); 11] = [
    (b"B", true),
    (b"Z", true),
    (b"[[J", true),
    (b"La/b;", true),
    (b"", false),
    (b"V", false),
    (b"II", false),
    (b"[", false),
    (b"L;", false),
    (b"La", false),
    (b"()V", false),
];

#[test]
fn field_descriptors(rt: HostRuntime) {
    for (bytes, expected) in &FIELDS {
        assert_eq!(rt; is_field_descriptor(bytes), *expected, "at {bytes:?}");
    }
}

/// Bytes, and the units of the parameters, if they are a method's descriptor.
static METHODS: [(&[u8], Option<u8>); 10] = [
    (b"()V", Some(0)),
    (b"(I)I", Some(1)),
    (b"(JD)V", Some(4)),
    (b"([J[[D)V", Some(2)),
    (b"(La/b;I)[I", Some(2)),
    (b"", None),
    (b"()", None),
    (b"(V)V", None),
    (b"(I", None),
    (b"()VV", None),
];

#[test]
fn method_descriptors(rt: HostRuntime) {
    for (bytes, expected) in &METHODS {
        assert_eq!(rt; method_units(bytes), *expected, "at {bytes:?}");
    }
    assert!(rt; ends_in_void(b"()V") && !ends_in_void(b"()I") && !ends_in_void(b""));
    assert!(rt; begins_with(b'(', b"()V") && !begins_with(b'(', b""));
    assert_eq!(rt; first(b"ab"), Some((b'a', b"b".as_slice())));
}

/// The judgement of characters that are none of these.
const NOTHING: Judgement = Judgement {
    utf8: true,
    class_name: false,
    unqualified_name: false,
    method_name: false,
    field_descriptor: false,
    method_units: None,
};

/// A class name with more than one part.
const CLASS: Judgement = Judgement {
    class_name: true,
    ..NOTHING
};

/// An unqualified name that no method has.
const SPECIAL: Judgement = Judgement {
    unqualified_name: true,
    ..CLASS
};

const NAME: Judgement = Judgement {
    method_name: true,
    ..SPECIAL
};

/// The name of a base type.
const BASE: Judgement = Judgement {
    field_descriptor: true,
    ..NAME
};

const FIELD: Judgement = Judgement {
    field_descriptor: true,
    ..NOTHING
};

/// The descriptor of a method that takes three units.
const THREE_UNITS: Judgement = Judgement {
    method_units: Some(3),
    ..NOTHING
};

/// Bytes that are characters, and their judgement.
static JUDGED: [(&[u8], Judgement); 62] = [
    (b"", NOTHING),
    (b"a", NAME),
    (b"V", NAME),
    (b"BB", NAME),
    (b"L", NAME),
    (b"printStackTrace and more", NAME),
    (b"\x01\x7f", NAME),
    (b"\xc3\xa9", NAME),
    (b"caf\xc3\xa9 \xe2\x82\xac", NAME),
    (b"<init>", NAME),
    (b"<clinit>", NAME),
    (b"<init>a", SPECIAL),
    (b"a>b", SPECIAL),
    (b"<", SPECIAL),
    (b"java/lang/Object", CLASS),
    (b"a/b", CLASS),
    (b"java/util/stream/<T>", CLASS),
    (b"Lx/y", CLASS),
    (b"caf\xc3\xa9/b", CLASS),
    (b"a//b", NOTHING),
    (b"java/lang/util//Deque", NOTHING),
    (b"/a", NOTHING),
    (b"a/", NOTHING),
    (b"/", NOTHING),
    (b"a.b", NOTHING),
    (b"java/lang.Object", NOTHING),
    (b"a;", NOTHING),
    (b"[", NOTHING),
    (b"L;", NOTHING),
    (b"La//b;", NOTHING),
    (b"La;b;", NOTHING),
    (b"[V", NOTHING),
    (b"()", NAME),
    (b"(I", NAME),
    (b"(Lx;", NOTHING),
    (b"I", BASE),
    (b"Z", BASE),
    (b"Lx;", FIELD),
    (b"Ljava/lang/Object;", FIELD),
    (b"[[J", FIELD),
    (b"[Ljava/lang/String;", FIELD),
    (
        b"()V",
        Judgement {
            method_units: Some(0),
            ..NAME
        },
    ),
    (
        b"(DJ)Lx;",
        Judgement {
            method_units: Some(4),
            ..NOTHING
        },
    ),
    (b"(I[JLa/b;)[[D", THREE_UNITS),
    (b"java/lang//Thing", NOTHING),
    (b"a//of/many", NOTHING),
    (b"of/many//a", NOTHING),
    (b"java/util/concurrent/atomic/LongAdder", CLASS),
    (b"java/util/concurrent/atomic//LongAdder", NOTHING),
    (b"java//util/concurrent/atomic/LongAdder", NOTHING),
    (b"/java/util/concurrent/atomic/LongAdder", NOTHING),
    (b"java/util/concurrent/atomic/LongAdder/", NOTHING),
    (b"java/util/concurrent.atomic/LongAdder", NOTHING),
    (b"Ljava/util/concurrent/atomic/LongAdder;", FIELD),
    (b"Ljava/util/concurrent/atomic//LongAdder;", NOTHING),
    (b"L/java/util/concurrent/atomic/LongAdder;", NOTHING),
    (b"Ljava/util/concurrent/atomic/LongAdder/;", NOTHING),
    (b"[[Ljava/util/concurrent/atomic/[LongAdder;", NOTHING),
    (b"(Ljava/util/concurrent/atomic/LongAdder;J)V", THREE_UNITS),
    (b"(Ljava/util/concurrent/atomic/.LongAdder;J)V", NOTHING),
    (b"(Lx;)Vx", NOTHING),
    (b"(Lx;)VV", NOTHING),
];

#[test]
fn judgements(rt: HostRuntime) {
    for (bytes, expected) in &JUDGED {
        assert_eq!(rt; judge(bytes), *expected, "at {bytes:?}");
    }
}

/// Bytes that are no characters, and their judgement apart from that.
static JUDGED_NO_CHARACTERS: [(&[u8], Judgement); 9] = [
    (b"\x00", NAME),
    (b"twelve bytes and a \x00", NAME),
    (b"\xc3", NAME),
    (b"eight \x00 b", NAME),
    (b"caf\xc3\xa9 of sixteen bytes \x80", NAME),
    (b"\x00 and sixteen bytes behind it", NAME),
    (b"a/\x80", CLASS),
    (b"L\xff;", FIELD),
    (
        b"(L\x00;)V",
        Judgement {
            method_units: Some(1),
            ..NOTHING
        },
    ),
];

/// Bytes that are no characters may still be names and descriptors.
#[test]
fn judgements_of_no_characters(rt: HostRuntime) {
    for (bytes, letters) in &JUDGED_NO_CHARACTERS {
        let expected = Judgement {
            utf8: false,
            ..*letters
        };
        assert_eq!(rt; judge(bytes), expected, "at {bytes:?}");
    }
}

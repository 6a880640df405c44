use cm_lines::{Line, NameFault, escape_into, parse, unescape};
use std::alloc::Global;
use std::test::*;

const FORMS: [(&[u8], Line<'_>); 10] = [
    (b"loader app", Line::Loader(b"app")),
    (b"unload app", Line::Unload(b"app")),
    (b"unload unload", Line::Unload(b"unload")),
    (b"tighten app", Line::Tighten(b"app")),
    (b"tighten unload", Line::Tighten(b"unload")),
    (b"define app cafebabe", Line::Define(b"app", b"cafebabe")),
    (b"find a% %c3%a9", Line::Find(b"a%", b"%c3%a9")),
    (b"unloadall app", Line::UnloadAll(b"app")),
    (b"unloadall b a \xff", Line::UnloadAll(b"b a \xff")),
    (
        b"unloadall a b c d e f g h a",
        Line::UnloadAll(b"a b c d e f g h a"),
    ),
];

#[test]
fn lines_of_known_forms_are_parsed(rt: HostRuntime) -> Result<(), Fail> {
    for (line, wanted) in &FORMS {
        assert!(rt; parse(line) == Some(*wanted));
    }
    Ok(())
}

const OTHERS: [&[u8]; 27] = [
    b"",
    b" ",
    b"unload",
    b"unload ",
    b"unload  app",
    b"unload app ",
    b" unload app",
    b"unload a b",
    b"Unload app",
    b"unloads app",
    b"unloadall",
    b"unloadall ",
    b"unloadall  app",
    b"unloadall a ",
    b"unloadall a  b",
    b" unloadall app",
    b"unloadalls app",
    b"tighten",
    b"tighten ",
    b"tighten a b",
    b"tight app",
    b"loader",
    b"define app",
    b"define app 00 00",
    b"find app",
    b"find  A",
    b"unload\tapp",
];

#[test]
fn other_lines_ask_for_nothing(rt: HostRuntime) -> Result<(), Fail> {
    for line in &OTHERS {
        assert!(rt; parse(line).is_none());
    }
    Ok(())
}

const BAD_ESCAPES: [&[u8]; 6] = [b"%41", b"%", b"%C", b"a b", b"%g0", b"\x80"];

/// Whether a name is written as this text.
fn is_escaped(alloc: Global, name: &[u8], text: &[u8]) -> Result<bool, Fail> {
    let mut written = Vec::new(alloc);
    escape_into(&mut written, name)?;
    Ok(written.as_slice() == text)
}

/// Whether a text is read as this name.
fn is_unescaped(alloc: Global, text: &[u8], name: &[u8]) -> bool {
    match unescape(alloc, text) {
        Ok(found) => found.as_slice() == name,
        Err(_) => false,
    }
}

fn is_bad_escape(alloc: Global, text: &[u8]) -> bool {
    matches!(unescape(alloc, text), Err(NameFault::BadEscape))
}

#[test]
fn names_are_escaped_and_read_again(rt: HostRuntime) -> Result<(), Fail> {
    assert!(rt; is_escaped(rt.alloc(), b"a%\xc3\xa9 ", b"a%25%C3%A9%20")?);
    assert!(rt; is_unescaped(rt.alloc(), b"a%25%c3%A9%20", b"a%\xc3\xa9 "));
    for bad in &BAD_ESCAPES {
        assert!(rt; is_bad_escape(rt.alloc(), bad));
    }
    Ok(())
}

//! What is listed of accepted caches.

use crate::classes::push_parts;
use crate::list_calls::Call::{Define, Loader, Tighten, Unload};
use crate::list_calls::{Call, accept_all, small_front};
use cm_front::Front;
use cm_maintenance::{ListedClass, ListedLoader, list_accepted};
use std::alloc::Global;
use std::test::*;

/// Commands, and what is then listed, as text: each loader's name on a line, and after it each
/// class with how many words its record has, its root, its chunk's first word there, and its
/// offset.
const CASES: [(&[Call], &[u8]); 9] = [
    (&[], b""),
    (&[Loader(b"a")], b"a\n"),
    // the same class in two loaders, each with a chunk of its own
    (
        &[
            Loader(b"a"),
            Loader(b"b"),
            Define(b"a", b"A"),
            Define(b"b", b"A"),
        ],
        b"a\n A 16 0 0 0\nb\n A 16 0 128 0\n",
    ),
    // in another order than their names have
    (
        &[
            Loader(b"b"),
            Loader(b"a"),
            Define(b"b", b"A"),
            Define(b"a", b"A"),
        ],
        b"a\n A 16 0 128 0\nb\n A 16 0 0 0\n",
    ),
    // upper case sorts before lower case, and a name before those that begin with it
    (
        &[
            Loader(b"ab"),
            Loader(b"b"),
            Loader(b"~"),
            Loader(b"B"),
            Loader(b"a"),
            Loader(b"!"),
            Loader(b"aB"),
            Loader(b"10"),
            Loader(b"9"),
        ],
        b"!\n10\n9\nB\na\naB\nab\nb\n~\n",
    ),
    (
        &[
            Loader(b"a"),
            Define(b"a", b"b/C"),
            Define(b"a", b"b"),
            Define(b"a", b"Z"),
            Define(b"a", b"b$C"),
            Define(b"a", b"\xC3\xA9"),
            Define(b"a", b"a"),
        ],
        b"a\n Z 16 0 0 32\n a 16 0 0 80\n b 16 0 0 16\n b$C 16 0 0 48\n b/C 16 0 0 0\n\
          \x20\xC3\xA9 16 0 0 64\n",
    ),
    // a loader that is unloaded, and one that comes after it and has its name; what it left isn't
    // free until its unloading is known to be durable
    (
        &[
            Loader(b"a"),
            Loader(b"b"),
            Define(b"a", b"A"),
            Define(b"b", b"A"),
            Unload(b"a"),
        ],
        b"b\n A 16 0 128 0\n",
    ),
    (
        &[
            Loader(b"a"),
            Define(b"a", b"A"),
            Unload(b"a"),
            Loader(b"a"),
            Define(b"a", b"B"),
        ],
        b"a\n B 16 0 128 0\n",
    ),
    // eight classes fill a chunk; the ninth, in one of 256 words, moves to one of 128
    (
        &[
            Loader(b"a"),
            Define(b"a", b"A"),
            Define(b"a", b"B"),
            Define(b"a", b"C"),
            Define(b"a", b"D"),
            Define(b"a", b"E"),
            Define(b"a", b"F"),
            Define(b"a", b"G"),
            Define(b"a", b"H"),
            Define(b"a", b"I"),
            Tighten(b"a"),
        ],
        b"a\n A 16 0 0 0\n B 16 0 0 16\n C 16 0 0 32\n D 16 0 0 48\n E 16 0 0 64\n F 16 0 0 80\n\
          \x20G 16 0 0 96\n H 16 0 0 112\n I 16 0 128 0\n",
    ),
];

fn write_name(alloc: Global, class: &ListedClass, text: &mut Vec<u8>) -> Result<(), Fail> {
    let name = class.class.class_name(alloc)?;
    push_parts(text, &[b" ", &name]).ok_or("memory")?;
    Ok(())
}

fn write_numbers(alloc: Global, class: &ListedClass, text: &mut Vec<u8>) -> Result<(), Fail> {
    let (words, place) = (class.class.words(), &class.place);
    let (root, at, offset) = (place.chunk.root, place.chunk.at, place.offset);
    let numbers = format!(in alloc; " {words} {root} {at} {offset}\n")?;
    text.extend_from_slice(numbers.as_bytes())?;
    Ok(())
}

fn write_class(alloc: Global, class: &ListedClass, text: &mut Vec<u8>) -> Result<(), Fail> {
    write_name(alloc, class, text)?;
    write_numbers(alloc, class, text)
}

fn write_loader(alloc: Global, loader: &ListedLoader, text: &mut Vec<u8>) -> Result<(), Fail> {
    push_parts(text, &[&loader.name, b"\n"]).ok_or("memory")?;
    for class in &loader.classes {
        write_class(alloc, class, text)?;
    }
    Ok(())
}

fn write_front(alloc: Global, front: &Front, text: &mut Vec<u8>) -> Result<(), Fail> {
    for loader in &list_accepted(alloc, front)? {
        write_loader(alloc, loader, text)?;
    }
    Ok(())
}

fn text_of(alloc: Global, front: &mut Front, calls: &[Call]) -> Result<Vec<u8>, Fail> {
    accept_all(alloc, front, calls)?;
    let mut text = Vec::new(alloc);
    write_front(alloc, front, &mut text)?;
    Ok(text)
}

// What is listed of a small cache after these commands.
fn text_after(alloc: Global, calls: &[Call]) -> Result<Vec<u8>, Fail> {
    let mut front = small_front(alloc)?;
    text_of(alloc, &mut front, calls)
}

#[test]
fn names_come_in_byte_order_with_places(rt: HostRuntime) -> Result<(), Fail> {
    for (calls, expected) in &CASES {
        assert_eq!(rt; text_after(rt.alloc(), calls)?.as_slice(), *expected);
    }
    Ok(())
}

/// Bytes that names of loaders have, in their order: 91 of them.
const LETTERS: &[u8] = b"!#$%&'()*+-./0123456789:;<=>?@ABCDEFGHIJKLMNOPQRSTUVWXYZ[]^_`\
    abcdefghijklmnopqrstuvwxyz{|}~";

fn letter(at: usize) -> &'static [u8] {
    LETTERS.get(at..at.saturating_add(1)).unwrap_or(&[])
}

fn push_loaders(calls: &mut Vec<Call>) -> Result<(), Fail> {
    for at in 0..91 {
        // each is added once, and neighbours are added apart
        calls.push(Loader(letter(at * 37 % 91)))?;
    }
    Ok(())
}

fn push_lines(lines: &mut Vec<u8>) -> Result<(), Fail> {
    for at in 0..91 {
        push_parts(lines, &[letter(at), b"\n"]).ok_or("memory")?;
    }
    Ok(())
}

fn text_of_many(alloc: Global) -> Result<Vec<u8>, Fail> {
    let mut calls = Vec::new(alloc);
    push_loaders(&mut calls)?;
    text_after(alloc, &calls)
}

// Whether all of them are listed in their order.
fn are_listed(alloc: Global, text: &[u8]) -> Result<bool, Fail> {
    let mut lines = Vec::new(alloc);
    push_lines(&mut lines)?;
    Ok(text == lines.as_slice())
}

#[test]
fn many_loaders_come_in_byte_order(rt: HostRuntime) -> Result<(), Fail> {
    let text = text_of_many(rt.alloc())?;
    assert!(rt; are_listed(rt.alloc(), &text)?);
    Ok(())
}

//! Classes by name, in live rows with their records.
use crate::samples::{chunk, class_row, loader, small_book, take, unload};
use cm_class::{Class, read_shape};
use cm_layout::{Entry, Row};
use cm_record::{Record, build};
use cm_rows::LiveRows;
use std::alloc::{AllocGlobal, Global};
use std::process::Abort;
use std::sync::Arc;
use std::test::*;

// The bytes of a class of this name that has no super class.
fn push_class(bytes: &mut Vec<u8>, name: &[u8]) -> Result<(), Fail> {
    bytes.extend_from_slice(&[0xca, 0xfe, 0xba, 0xbe, 0, 0, 0, 0x34, 0, 3, 1])?;
    bytes.extend_from_slice(&u16::try_from(name.len())?.to_be_bytes())?;
    bytes.extend_from_slice(name)?;
    bytes.extend_from_slice(&[7, 0, 1, 0, 0x21, 0, 2, 0, 0, 0, 0, 0, 0, 0, 0, 0, 0])?;
    Ok(())
}

fn record_of_class(alloc: Global, class: &Class) -> Result<Record, Fail> {
    Ok(build(alloc, class)?)
}

fn record_of(alloc: Global, bytes: &[u8]) -> Result<Record, Fail> {
    let class = read_shape(alloc, bytes)?;
    record_of_class(alloc, &class)
}

// The record of such a class.
fn record_of_name(alloc: Global, name: &[u8]) -> Result<Arc<Record, Global>, Fail> {
    let mut bytes = Vec::new(alloc);
    push_class(&mut bytes, name)?;
    Ok(Arc::new(alloc, record_of(alloc, &bytes)?)?)
}

// Three loaders, with classes of the names given with them, one word each.
const CLASSES: [(u64, &[u8]); 7] = [
    (1, b"A"),
    (2, b"A"),
    (1, b"B"),
    (1, b"java/lang/Object"),
    (3, b"java/lang/String"),
    (2, b"java/lang/Object"),
    (3, b""),
];

type Classes = LiveRows<Arc<Record, Global>>;

fn add_loaders(book: &mut Classes) -> Result<(), Fail> {
    for (number, name) in &[(1, b"app"), (2, b"lib"), (3, b"web")] {
        take(book, *number, loader(*number, *name)?)?;
    }
    Ok(())
}

fn add_class(alloc: Global, book: &mut Classes, loader: u64, name: &[u8]) -> Result<(), Fail> {
    let offset = book.last(loader).map_or(0, |last| last.used);
    let at = u32::try_from(loader)?.wrapping_mul(128);
    let row = class_row(loader, chunk(0, at), offset, 1);
    let entry = Entry::Live(Row::Class(row, record_of_name(alloc, name)?));
    take(book, 4, entry)
}

fn add_all(alloc: Global, book: &mut Classes) -> Result<(), Fail> {
    add_loaders(book)?;
    for (loader, name) in &CLASSES {
        add_class(alloc, book, *loader, name)?;
    }
    Ok(())
}

fn book_of_classes(alloc: Global) -> Result<Classes, Fail> {
    let mut book = small_book(alloc)?;
    add_all(alloc, &mut book)?;
    Ok(book)
}

// Classes that no loader has.
const NONE: [(u64, &[u8]); 5] = [
    (2, b"B"),
    (1, b""),
    (3, b"A"),
    (4, b"A"),
    (1, b"java/lang/"),
];

// Whether a loader has a class of this name, looked up by the name and by a class that has it, and
// what is found has that name.
fn has_like(
    book: &Classes,
    loader: u64,
    name: &[u8],
    class: &Arc<Record, Global>,
) -> Result<bool, Fail> {
    match (book.class(loader, name), book.class_like(loader, class)) {
        (Some(one), Some(other)) if one.same_name(class) && other.same_name(class) => Ok(true),
        (None, None) => Ok(false),
        _ => Err("another class".into()),
    }
}

fn has(alloc: Global, book: &Classes, loader: u64, name: &[u8]) -> Result<bool, Fail> {
    let class = record_of_name(alloc, name)?;
    has_like(book, loader, name, &class)
}

fn finds_each(rt: &(impl Abort + AllocGlobal), book: &Classes) -> Result<(), Fail> {
    for (loader, name) in &CLASSES {
        assert!(rt; has(rt.alloc(), book, *loader, name)?);
    }
    for (loader, name) in &NONE {
        assert!(rt; !has(rt.alloc(), book, *loader, name)?);
    }
    Ok(())
}

#[test]
fn finds_each_class_in_its_loader(rt: HostRuntime) -> Result<(), Fail> {
    let book = book_of_classes(rt.alloc())?;
    finds_each(&rt, &book)
}

// Whether the second loader's class is gone, and a class of that name and one of the third loader
// are there.
fn has_others(book: &Classes) -> bool {
    book.class(2, b"A").is_none()
        && book.class(1, b"A").is_some()
        && book.class(3, b"java/lang/String").is_some()
}

fn finds_others(rt: &impl Abort, book: &mut Classes) -> Result<(), Fail> {
    take(book, 4, unload(2))?;
    assert!(rt; has_others(book));
    Ok(())
}

#[test]
fn finds_no_class_of_an_unloaded_loader(rt: HostRuntime) -> Result<(), Fail> {
    let mut book = book_of_classes(rt.alloc())?;
    finds_others(&rt, &mut book)
}

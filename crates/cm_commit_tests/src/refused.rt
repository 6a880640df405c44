//! Commands one after another if an allocation may fail: a command that is refused because an
//! allocation failed changes nothing that is found, and when it is repeated it takes the number
//! that was due.

use crate::classes::class;
use crate::fronts;
use crate::fronts::{empty, words};
use cm_commands::{Command, Prepared, Refusal};
use cm_front::Front;
use cm_samples::CLASS_A_TEXT;
use std::alloc::Global;
use std::test::Fail;

/// A command on the only loader. A class to define is given by its index in the test's list.
#[derive(Clone, Copy)]
enum Asked {
    Loader,
    Define(usize),
    Unload,
    Tighten,
}

/// How many words the classes `A` and `B` have, if they are found.
type Found = [Option<u32>; 2];

/// A command, its result, and what is then found.
type Step = (Asked, Result<u64, Refusal>, Found);

fn found(front: &Front, loader: &[u8]) -> Found {
    [words(front, loader, b"A"), words(front, loader, b"B")]
}

fn define(
    front: &mut Front,
    loader: &[u8],
    classes: &[Prepared],
    at: usize,
) -> Result<u64, Refusal> {
    match classes.get(at) {
        Some(class) => front.accept(Command::Define(loader, class.share()?)),
        None => Err(Refusal::NoLoader),
    }
}

fn accept(
    front: &mut Front,
    loader: &[u8],
    classes: &[Prepared],
    asked: Asked,
) -> Result<u64, Refusal> {
    match asked {
        Asked::Loader => front.accept(Command::AddLoader(loader)),
        Asked::Define(at) => define(front, loader, classes, at),
        Asked::Unload => front.accept(Command::Unload(loader)),
        Asked::Tighten => front.accept(Command::Tighten(loader)),
    }
}

// The result of a command; if an allocation failed and nothing has changed, its result when it is
// repeated.
fn accept_again(
    front: &mut Front,
    loader: &[u8],
    classes: &[Prepared],
    asked: Asked,
) -> Result<u64, Refusal> {
    let before = found(front, loader);
    match accept(front, loader, classes, asked) {
        Err(Refusal::NoMemory) if found(front, loader) == before => {
            accept(front, loader, classes, asked)
        }
        answer => answer,
    }
}

// Which step is the first with a wrong result.
fn first_wrong(
    front: &mut Front,
    loader: &[u8],
    classes: &[Prepared],
    steps: &[Step],
) -> Option<usize> {
    for (at, (asked, due, finds)) in steps.iter().enumerate() {
        let answer = accept_again(front, loader, classes, *asked);
        if answer != *due || found(front, loader) != *finds {
            return Some(at);
        }
    }
    None
}

// The same on an empty cache.
fn first_other(
    alloc: Global,
    loader: &[u8],
    classes: &[Prepared],
    steps: &[Step],
) -> Result<Option<usize>, Fail> {
    let mut front = empty(alloc, 8, 64)?;
    Ok(first_wrong(&mut front, loader, classes, steps))
}

const FOUND: [Step; 2] = [
    (Asked::Loader, Ok(1), [None, None]),
    (Asked::Define(0), Ok(2), [Some(16), None]),
];

#[test]
fn a_class_is_found_after_a_refusal(rt: HostRuntime) -> Result<(), Fail> {
    let classes = [class(rt.alloc(), CLASS_A_TEXT)?];
    assert_eq!(rt; first_other(rt.alloc(), b"app", &classes, &FOUND)?, None);
    Ok(())
}

const COMES_AGAIN: [Step; 5] = [
    (Asked::Loader, Ok(1), [None, None]),
    (Asked::Define(0), Ok(2), [Some(16), None]),
    (Asked::Unload, Ok(3), [None, None]),
    (Asked::Loader, Ok(4), [None, None]),
    (Asked::Define(1), Ok(5), [Some(20), None]),
];

#[test]
fn a_loader_comes_again_after_a_refusal(rt: HostRuntime) -> Result<(), Fail> {
    let alloc = rt.alloc();
    let classes = [class(alloc, CLASS_A_TEXT)?, fronts::class(alloc, b'A', 0)?];
    assert_eq!(rt; first_other(alloc, b"a", &classes, &COMES_AGAIN)?, None);
    Ok(())
}

const LEFT: [Step; 5] = [
    (Asked::Loader, Ok(1), [None, None]),
    (Asked::Define(0), Ok(2), [Some(20), None]),
    (Asked::Define(1), Ok(3), [Some(20), Some(128)]),
    (Asked::Tighten, Ok(4), [Some(20), Some(128)]),
    (Asked::Tighten, Err(Refusal::NoMove), [Some(20), Some(128)]),
];

#[test]
fn a_chunk_is_left_after_a_refusal(rt: HostRuntime) -> Result<(), Fail> {
    let alloc = rt.alloc();
    let classes = [
        fronts::class(alloc, b'A', 0)?,
        fronts::class(alloc, b'B', 864)?,
    ];
    assert_eq!(rt; first_other(alloc, b"a", &classes, &LEFT)?, None);
    Ok(())
}

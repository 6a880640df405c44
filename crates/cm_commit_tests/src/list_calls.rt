//! Commands as values, so that a test is a table of commands and what is then listed, and accepted
//! caches after them.

use crate::fronts::{add_loader, define, empty_of, tighten, unload};
use cm_commands::{PrepareFault, Prepared};
use cm_front::Front;
use cm_samples::{class, small_geometry};
use std::alloc::Global;
use std::test::Fail;

/// A command. Classes have names of up to five bytes.
#[derive(Clone, Copy)]
pub enum Call {
    Loader(&'static [u8]),
    Define(&'static [u8], &'static [u8]),
    Unload(&'static [u8]),
    Tighten(&'static [u8]),
}

/// The class of this name. It is made once more if an allocation failed.
fn class_again(alloc: Global, name: &[u8]) -> Result<Prepared, PrepareFault> {
    match class(alloc, name) {
        Err(PrepareFault::NoMemory) => class(alloc, name),
        answer => answer,
    }
}

fn accept(alloc: Global, front: &mut Front, call: Call) -> Result<bool, Fail> {
    let answer = match call {
        Call::Loader(loader) => add_loader(front, loader),
        Call::Define(loader, name) => define(front, loader, &class_again(alloc, name)?),
        Call::Unload(loader) => unload(front, loader),
        Call::Tighten(loader) => tighten(front, loader),
    };
    Ok(answer.is_ok())
}

/// A cache accepts these commands, one after another.
pub fn accept_all(alloc: Global, front: &mut Front, calls: &[Call]) -> Result<(), Fail> {
    for call in calls {
        if !accept(alloc, front, *call)? {
            return Err("no command is refused".into());
        }
    }
    Ok(())
}

/// A cache of two roots of 1,024 words with nothing in it.
pub fn small_front(alloc: Global) -> Result<Front, Fail> {
    empty_of(alloc, small_geometry())
}

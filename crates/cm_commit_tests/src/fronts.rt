//! Accepted caches for tests. What a test does with one is in a function that borrows it. If an
//! allocation failed, a call is made once more: the cache is as it was, so the result is the one
//! that was due.

use crate::classes::class_of;
use cm_commands::{Command, Names, Prepared, Refusal};
use cm_front::Front;
use cm_pool::Geometry;
use cm_samples::padded_class_file;
use std::alloc::{AllocError, Global};
use std::test::Fail;

/// A cache of these sizes with nothing in it.
pub fn empty_of(alloc: Global, geometry: Geometry) -> Result<Front, Fail> {
    match Front::new(alloc, geometry) {
        Ok(front) => Ok(front),
        Err(_) => Ok(Front::new(alloc, geometry)?),
    }
}

/// A cache with this many roots of this order.
pub fn empty(alloc: Global, top: u32, roots: u32) -> Result<Front, Fail> {
    let geometry = Geometry::new(top, roots, 65_536).ok_or("sizes")?;
    empty_of(alloc, geometry)
}

/// The class of this name with this many bytes in its attribute: its record has 20 words and one
/// for each eight bytes.
pub fn class(alloc: Global, name: u8, count: u32) -> Result<Prepared, Fail> {
    let bytes = match padded_class_file(alloc, &[name], count) {
        Ok(bytes) => bytes,
        Err(_) => padded_class_file(alloc, &[name], count)?,
    };
    class_of(alloc, &bytes)
}

pub fn add_loader(front: &mut Front, name: &[u8]) -> Result<u64, Refusal> {
    match front.accept(Command::AddLoader(name)) {
        Err(Refusal::NoMemory) => front.accept(Command::AddLoader(name)),
        answer => answer,
    }
}

pub fn unload(front: &mut Front, name: &[u8]) -> Result<u64, Refusal> {
    match front.accept(Command::Unload(name)) {
        Err(Refusal::NoMemory) => front.accept(Command::Unload(name)),
        answer => answer,
    }
}

pub fn tighten(front: &mut Front, name: &[u8]) -> Result<u64, Refusal> {
    match front.accept(Command::Tighten(name)) {
        Err(Refusal::NoMemory) => front.accept(Command::Tighten(name)),
        answer => answer,
    }
}

pub fn unload_all(front: &mut Front, names: &[&[u8]]) -> Result<u64, Refusal> {
    match front.accept(Command::UnloadAll(Names::new(names))) {
        Err(Refusal::NoMemory) => front.accept(Command::UnloadAll(Names::new(names))),
        answer => answer,
    }
}

fn share(class: &Prepared) -> Result<Prepared, AllocError> {
    match class.share() {
        Ok(shared) => Ok(shared),
        Err(_) => class.share(),
    }
}

pub fn define(front: &mut Front, name: &[u8], class: &Prepared) -> Result<u64, Refusal> {
    match front.accept(Command::Define(name, share(class)?)) {
        Err(Refusal::NoMemory) => front.accept(Command::Define(name, share(class)?)),
        answer => answer,
    }
}

/// How many words the record of a class has, if it is found.
pub fn words(front: &Front, loader: &[u8], class: &[u8]) -> Option<u32> {
    let found = front.find(loader, class)?;
    Some(found.words())
}

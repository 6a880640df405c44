//! What a file holds.

use cm_disk::Disk;
use cm_verdict::{Damage, FileFault, HalfWalk, OpenFault, read_found};
use std::alloc::Global;

/// What is found in a file: how many live rows there are, the number of the last command, and the
/// slot where the groups end.
#[derive(Clone, Copy, Debug, PartialEq, Eq)]
pub struct Summary {
    pub rows: usize,
    pub number: u64,
    pub end: u32,
}

/// What a new file holds.
pub const NEW: Summary = Summary {
    rows: 0,
    number: 0,
    end: 1,
};

/// The empty cache.
pub const EMPTY: Result<Summary, OpenFault> = Ok(NEW);

/// What should be found, so that a test is a table of changes and what is then found.
pub enum Found<S> {
    Sound(S),
    NotACache,
    Damaged(Damage, u32),
}

impl<S: Copy> Found<S> {
    /// The result for bytes.
    pub fn in_bytes(&self) -> Result<S, FileFault> {
        match self {
            Found::Sound(summary) => Ok(*summary),
            Found::NotACache => Err(FileFault::NotACache),
            Found::Damaged(what, slot) => Err(FileFault::Damaged {
                what: *what,
                slot: *slot,
            }),
        }
    }

    /// The result for a disk.
    pub fn on_disk(&self) -> Result<S, OpenFault> {
        self.in_bytes().map_err(OpenFault::File)
    }
}

/// What the groups of a half contain.
pub fn tell_half(walk: HalfWalk) -> Summary {
    let (number, end) = (walk.number(), walk.end());
    Summary {
        rows: walk.into_book().len(),
        number,
        end,
    }
}

/// What is found in a file.
pub fn find_in<D: Disk>(alloc: Global, disk: &mut D) -> Result<Summary, OpenFault> {
    let file = read_found(alloc, disk)?;
    Ok(tell_half(file.walk))
}

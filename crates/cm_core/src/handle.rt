//! A handle for C.
ghost use Rattle.std.specs.Prelude.{◌≡◌, true, false, Bool, pos, if◌then◌else◌, is_some};
ghost use Rattle.cm_core.specs.Held.{held, freed};
ghost use Rattle.cm_core.specs.contracts.inner.Inner.{the_row as inner_row};

use crate::inner::Inner;
use crate::loose::Loose;
use crate::status::{NO_MEMORY, OK};
use std::alloc::Global;
use std::marker::Model;
use std::mem;
use std::ptr::null_mut;

/// Where a box is, or null. C may have no type with a box in it.
#[repr(C)]
#[derive(Drop)]
pub struct Piece {
    at: *mut u8,
    pub ghost full: { Bool },
}

impl Model for Piece {
    ghost also_owns = { λ p. held freed inner_row p.at p.full };
}

impl Piece {
    fn none() -> Piece
        ensures { result.full ≡ false }
    {
        Piece { at: null_mut() }
    }

    fn of(loose: Loose<Inner, Global>) -> Piece
        ensures { result.full ≡ true }
    {
        let Loose { at, alloc: _ } = loose;
        Piece { at: at as *mut u8 }
    }

    fn into_loose(self, alloc: Global) -> Loose<Inner, Global>
        requires { self.full ≡ true }
    {
        let Piece { at } = self;
        Loose {
            at: at as *mut Inner,
            alloc,
        }
    }
}

/// What C holds: empty, or the owner of an [`Inner`]. C copies none.
#[repr(C)]
#[derive(Drop)]
pub struct Handle {
    full: bool,
    piece: Piece,
    ghost tied: { full ≡ piece.full },
}

impl Handle {
    fn empty() -> Handle
        ensures { result.full ≡ false }
    {
        Handle {
            full: false,
            piece: Piece::none(),
        }
    }

    /// A handle that is full.
    pub(crate) fn of(inner: Box<Inner>) -> Handle
        ensures { result.full ≡ true }
    {
        Handle {
            full: true,
            piece: Piece::of(Loose::of(inner)),
        }
    }

    /// Takes out what it leads to, if it is full. It is empty then.
    pub(crate) fn take(&mut self, alloc: Global) -> Option<Box<Inner>>
        ensures full { is_some result ≡ self.old.full }
        ensures empty { self.new.full ≡ false }
    {
        let Handle { full, piece } = mem::replace(self, Handle::empty());
        if full {
            Some(piece.into_loose(alloc).into_box())
        } else {
            None
        }
    }

    /// Fills it. What it led to before is dropped. `NO_MEMORY` if the allocation fails: it is empty
    /// then.
    pub(crate) fn fill(&mut self, alloc: Global, inner: Inner) -> i32
        ensures { result ≡ (if self.new.full then pos 0 else pos 9) }
    {
        let _before = self.take(alloc);
        match Box::new(alloc, inner) {
            Ok(inner) => {
                *self = Handle::of(inner);
                OK
            }
            Err(_) => NO_MEMORY,
        }
    }
}

/// Empties a handle, and gives back its memory.
#[unsafe(no_mangle)]
pub extern "C" fn cmcore_release(alloc: Global, handle: &mut Handle) -> i32
    ensures { (result ≡ pos 0) × (handle.new.full ≡ false) }
{
    let _before = handle.take(alloc);
    OK
}

//! A loader of a view.

ghost use Rattle.std.specs.Prelude.{◌≡◌};
ghost use Rattle.cm_plain_view.specs.Loaders.{loader_name, loader_row};

use cm_layout::{LoaderRow, NAME_LIMIT};
use std::mem::size_of;

/// A live loader of a file. It borrows nothing.
#[repr(C)]
#[derive(Clone, Copy, Debug)]
pub struct ViewLoader {
    /// The number of the command that made it, by which the rows of its classes refer to it.
    pub number: u64,
    /// How many bytes its name has.
    pub len: u32,
    /// The bytes of its name; what follows them means nothing.
    pub name: [u8; NAME_LIMIT],
}

// Whoever keeps loaders elsewhere relies on this.
const _: () = prove!(size_of::<ViewLoader>() == 112);

impl ViewLoader {
    /// The loader of a row.
    pub fn of(row: &LoaderRow) -> ViewLoader
        ensures { loader_row result ≡ row.now }
    {
        let bytes = row.name.as_bytes();
        let mut name = [0; NAME_LIMIT];
        name[..bytes.len()].copy_from_slice(bytes);
        ViewLoader {
            number: row.number,
            len: bytes.len() as u32,
            name,
        }
    }

    /// The bytes of its name.
    pub fn name(&self) -> &[u8]
        ensures { result.now ≡ loader_name self.now }
    {
        &self.name[..NAME_LIMIT.min(self.len as usize)]
    }
}

//! The commands that change a cache.

use crate::names::Names;
use crate::prepared::Prepared;

/// One change of a cache, of the loader of a name or of the loaders of several.
#[derive(Debug, Drop)]
pub enum Command<'a> {
    /// A loader is created, without classes.
    AddLoader(&'a [u8]),
    /// A class is defined in a loader.
    Define(&'a [u8], Prepared),
    /// A loader is unloaded, with all its classes.
    Unload(&'a [u8]),
    /// The records on a loader's last chunk move to a smaller chunk, or to one that lies before it.
    /// The loaders and classes stay as they are.
    Tighten(&'a [u8]),
    /// Several loaders are unloaded at once, with all their classes: one to seven, none of them
    /// twice.
    UnloadAll(Names<'a>),
}

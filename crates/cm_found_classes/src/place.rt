//! Places of classes.

use std::alloc::{AllocError, Global};
use std::io;
use thiserror::Error;

/// A file that holds classes, by its path, and how many bytes it has.
#[derive(Debug, Drop)]
pub enum Place {
    /// One class.
    ClassFile(String, u64),
    /// A jar.
    Jar(String, u64),
}

/// Why a path isn't searched, or not all of it.
#[derive(Clone, Copy, Debug, Error)]
pub enum FindFault {
    /// The system doesn't find or read it, or a name in it isn't UTF-8.
    #[error("{0}")]
    Device(io::Error),
    /// It is neither a regular file nor a folder.
    #[error("neither a file nor a folder")]
    OtherKind,
}

/// A path that isn't searched, or not all of it, and why.
#[derive(Debug, Drop)]
pub struct Unsearched {
    pub path: String,
    pub fault: FindFault,
}

/// What was found under paths.
#[derive(Debug, Drop)]
pub struct Found {
    /// The files that hold classes.
    pub places: Vec<Place>,
    /// The paths that aren't searched.
    pub unsearched: Vec<Unsearched>,
}

impl Place {
    /// The path of its file.
    pub fn path(&self) -> &str {
        match self {
            Place::ClassFile(path, _) | Place::Jar(path, _) => path.as_str(),
        }
    }

    /// How many bytes its file had when it was found.
    pub fn len(&self) -> u64 {
        match self {
            Place::ClassFile(_, len) | Place::Jar(_, len) => *len,
        }
    }
}

impl Found {
    /// Nothing was found yet.
    pub fn new(alloc: Global) -> Found {
        Found {
            places: Vec::new(alloc),
            unsearched: Vec::new(alloc),
        }
    }

    pub(crate) fn add_place(&mut self, place: Place) -> Result<(), AllocError> {
        Ok(self.places.push(place)?)
    }

    pub(crate) fn add_unsearched(
        &mut self,
        path: String,
        fault: FindFault,
    ) -> Result<(), AllocError> {
        Ok(self.unsearched.push(Unsearched { path, fault })?)
    }
}

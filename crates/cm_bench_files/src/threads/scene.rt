//! What threads work on: classes, and loaders to define them in, or the lines of a script.

use anyhow::Result;
use cm_commands::{PrepareFault, Prepared, prepare};
use cm_stream::classes_in;
use std::alloc::{AllocError, Global};
use std::sync::atomic::{AtomicU64, Ordering};

/// A class that can be defined.
#[derive(Drop)]
pub struct Sample<'a> {
    pub bytes: &'a [u8],
    pub name: Vec<u8>,
    pub class: Prepared,
}

/// What all threads share beside the cache.
#[derive(Drop)]
pub struct Scene<'a> {
    pub samples: Vec<Sample<'a>>,
    /// The names of loaders.
    pub loaders: Vec<String>,
    /// The lines of a script.
    pub lines: Vec<&'a [u8]>,
    /// How many threads still define classes.
    defining: AtomicU64,
}

/// The class of these bytes; `None` if it can't be defined.
fn sample_of<'a>(alloc: Global, bytes: &'a [u8]) -> Result<Option<Sample<'a>>, AllocError> {
    match prepare(alloc, bytes) {
        Ok(class) => {
            let name = class.class_name(alloc)?;
            Ok(Some(Sample { bytes, name, class }))
        }
        Err(PrepareFault::NoMemory) => Err(AllocError),
        Err(_) => Ok(None),
    }
}

/// The classes of a stream that can be defined, in order.
fn samples<'a>(alloc: Global, classes: &[&'a [u8]]) -> Result<Vec<Sample<'a>>, AllocError> {
    let mut all = Vec::with_capacity(alloc, classes.len())?;
    for class in classes {
        if let Some(sample) = sample_of(alloc, class)? {
            all.push(sample)?;
        }
    }
    Ok(all)
}

fn loader_names(alloc: Global, count: u32) -> Result<Vec<String>, AllocError> {
    let mut names = Vec::new(alloc);
    for number in 0..count {
        names.push(format!(in alloc; "t{number}")?)?;
    }
    Ok(names)
}

impl<'a> Scene<'a> {
    /// The classes of a stream, and `loaders` loaders; `definers` threads define classes.
    pub fn new(alloc: Global, stream: &'a [u8], loaders: u32, definers: u32) -> Result<Scene<'a>> {
        let classes = classes_in(alloc, stream)?;
        Ok(Scene {
            samples: samples(alloc, &classes)?,
            loaders: loader_names(alloc, loaders)?,
            lines: Vec::new(alloc),
            defining: AtomicU64::new(u64::from(definers)),
        })
    }

    /// The lines of a script.
    pub fn of_lines(alloc: Global, lines: Vec<&'a [u8]>) -> Scene<'a> {
        Scene {
            samples: Vec::new(alloc),
            loaders: Vec::new(alloc),
            lines,
            defining: AtomicU64::new(0),
        }
    }

    /// Whether any thread still defines classes.
    pub fn is_going_on(&self) -> bool {
        self.defining.load(Ordering::SeqCst) != 0
    }

    /// Notes that a thread has defined all that it had to.
    pub fn end_one(&self) {
        self.defining.fetch_sub(1, Ordering::SeqCst);
    }

    /// The name of a loader; the empty name if there is none.
    pub fn loader(&self, at: usize) -> &str {
        match self.loaders.get(at) {
            Some(name) => name.as_str(),
            None => "",
        }
    }
}

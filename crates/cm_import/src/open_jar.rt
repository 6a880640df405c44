//! A jar that is being read.

ghost use Rattle.std.specs.Prelude.{◌≤◌, ◌<◌, ◌+◌, length, IfOk, Some};
ghost use Rattle.cm_import.specs.Left.{left_in};

use cm_found_classes::{class_entries, is_jar_name};
use cm_jar::{Entry, Jar, JarFault};
use std::alloc::{AllocError, Global};
use std::fs::{self, File, Files};
use std::io;
use thiserror::Error;

/// A jar of which the class files are read, some at a time.
#[derive(Drop)]
pub struct OpenJar {
    path: String,
    bytes: Vec<u8>,
    /// How many class files aren't read yet.
    left: u16,
    /// How many jars it has, which aren't read.
    jars: usize,
}

/// Why a jar can't be read, or not all of it.
#[derive(Clone, Copy, Debug, Error)]
pub enum UnreadJar {
    #[error("{0}")]
    File(io::Error),
    #[error("{0}")]
    Jar(JarFault),
    #[error("its entries overlap: so many bytes can't be packed into it")]
    Overlapping,
    #[error("jars in it aren't read: {0}")]
    Nested(usize),
}

impl From<JarFault> for UnreadJar {
    fn from(fault: JarFault) -> UnreadJar {
        UnreadJar::Jar(fault)
    }
}

impl From<AllocError> for UnreadJar {
    fn from(_error: AllocError) -> UnreadJar {
        UnreadJar::Jar(JarFault::NoMemory)
    }
}

/// How many bytes one packed byte makes at most: DEFLATE copies 258 bytes by no fewer than two bits
/// (RFC 1951, section 3.2.5), and a stored byte makes one.
const MOST_UNPACKED: u64 = 1032;

/// How many entries of a jar are class files, and how many are jars.
#[derive(Clone, Copy)]
struct Counted {
    classes: u16,
    jars: usize,
}

/// Whether entries that don't overlap may have as many bytes as these, in a file of this length.
fn may_hold(len: usize, entries: &[Entry<'_>]) -> bool {
    let mut bytes = 0u64;
    for entry in entries {
        bytes = bytes.saturating_add(u64::from(entry.size()));
    }
    bytes <= MOST_UNPACKED.saturating_mul(len as u64)
}

/// How many entries of each kind a jar has. Its directory declares at most 65,535 entries.
fn count_entries(alloc: Global, bytes: &[u8]) -> Result<Counted, UnreadJar> {
    let jar = Jar::read(alloc, bytes)?;
    let entries = class_entries(alloc, &jar)?;
    if !may_hold(bytes.len(), &entries) {
        return Err(UnreadJar::Overlapping);
    }
    let mut jars = 0usize;
    for entry in jar.entries() {
        if is_jar_name(entry.name()) {
            jars = jars.saturating_add(1);
        }
    }
    match u16::try_from(entries.len()) {
        Ok(classes) => Ok(Counted { classes, jars }),
        Err(_) => Err(UnreadJar::Jar(JarFault::OtherCount)),
    }
}

impl OpenJar {
    /// Reads the jar of a path.
    pub fn read<R>(rt: &R, path: String) -> Result<OpenJar, UnreadJar>
    where
        R: Files<File = File> + AllocGlobal,
        ensures { IfOk result (λ jar. jar.left ≤ 65535) }
    {
        let bytes = match fs::read(rt, path.as_str()) {
            Ok(bytes) => bytes,
            Err(cause) => return Err(UnreadJar::File(cause)),
        };
        let Counted { classes, jars } = count_entries(rt.alloc(), &bytes)?;
        Ok(OpenJar {
            path,
            bytes,
            left: classes,
            jars,
        })
    }

    /// The jars in it, as what isn't read of it, if there are any.
    pub fn nested(&self) -> Option<UnreadJar> {
        if self.jars == 0 {
            None
        } else {
            Some(UnreadJar::Nested(self.jars))
        }
    }

    /// Its path.
    pub fn path(&self) -> &str {
        self.path.as_str()
    }

    /// The class files that aren't read yet, in the jar's order.
    pub fn entries(&self, alloc: Global) -> Result<Vec<Entry<'_>>, JarFault>
        ensures { IfOk result (λ entries. length entries.items ≤ self.now.left) }
    {
        let jar = Jar::read(alloc, &self.bytes)?;
        let mut entries = class_entries(alloc, &jar)?;
        let read = entries.len().saturating_sub(usize::from(self.left));
        Ok(entries.split_off(read)?)
    }

    /// The jar once this many more class files are read; `None` if it has no more.
    pub fn without(self, count: usize) -> Option<OpenJar>
        requires { count ≤ self.left }
        ensures fewer { left_in result < left_in (Some self) }
        ensures others { left_in result + count ≤ left_in (Some self) }
    {
        let OpenJar {
            path,
            bytes,
            left,
            jars,
        } = self;
        let left = left - count as u16;
        if count == 0 || left == 0 {
            return None;
        }
        Some(OpenJar {
            path,
            bytes,
            left,
            jars,
        })
    }
}

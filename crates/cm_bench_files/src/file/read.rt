//! Finds classes in a file.

use anyhow::Result;
use cm_commands::Prepared;
use cm_commit::Committer;
use cm_file_disk::FileDisk;
use cm_front::Front;
use cm_layout::Row;
use cm_recover::{NotOpened, open};
use rand::seq::SliceRandom;
use rand_pcg::Pcg32;
use std::alloc::{AllocError, Global};

/// A class by its names.
#[derive(Drop)]
struct ClassName {
    loader: Vec<u8>,
    class: Vec<u8>,
}

/// A loader by its number.
#[derive(Drop)]
struct LoaderName {
    number: u64,
    name: Vec<u8>,
}

/// The cache that a disk holds, as it is accepted, and the committer of the disk.
pub fn open_disk(alloc: Global, disk: FileDisk) -> Result<(Front, Committer<FileDisk>)> {
    match open(alloc, disk) {
        Ok(opened) => Ok(opened),
        Err(NotOpened { fault, disk: _disk }) => Err(fault.into()),
    }
}

/// A copy of the name of the loader of a number; the empty name if there is none.
fn name_of(alloc: Global, loaders: &[LoaderName], number: u64) -> Result<Vec<u8>, AllocError> {
    for loader in loaders {
        if loader.number == number {
            return Vec::from_slice(alloc, &loader.name);
        }
    }
    Ok(Vec::new(alloc))
}

/// A copy of the name of a class, with that of its loader.
fn class_name_of(
    alloc: Global,
    loaders: &[LoaderName],
    number: u64,
    class: &Prepared,
) -> Result<ClassName> {
    let loader = name_of(alloc, loaders, number)?;
    let class = class.class_name(alloc)?;
    Ok(ClassName { loader, class })
}

/// The names of loaders and of classes whose rows were seen.
#[derive(Drop)]
struct Seen {
    loaders: Vec<LoaderName>,
    names: Vec<ClassName>,
}

/// Adds the name of a row; the loader of a class comes before it.
fn see(alloc: Global, seen: &mut Seen, row: &Row<Prepared>) -> Result<()> {
    match row {
        Row::Loader(row) => {
            let name = Vec::from_slice(alloc, row.name.as_bytes())?;
            seen.loaders.push(LoaderName {
                number: row.number,
                name,
            })?;
        }
        Row::Class(row, class) => {
            let name = class_name_of(alloc, &seen.loaders, row.loader, class)?;
            seen.names.push(name)?;
        }
    }
    Ok(())
}

/// The names of the rows of a cache, in their order.
fn see_all(alloc: Global, front: &Front) -> Result<Seen> {
    let mut seen = Seen {
        loaders: Vec::new(alloc),
        names: Vec::new(alloc),
    };
    let rows = front.rows();
    let mut walk = rows.walk();
    'rows: for _ in 0..rows.len() {
        let Some(row) = walk.next() else {
            break 'rows;
        };
        see(alloc, &mut seen, row)?;
    }
    Ok(seen)
}

/// Where a loader's name ends, and where the name of its class after it ends.
#[derive(Clone, Copy)]
struct Ends {
    loader: usize,
    class: usize,
}

/// The names of classes, one after another in the order in which they are looked up, so that
/// fetching them takes no time of its own.
#[derive(Drop)]
pub struct Asked {
    bytes: Vec<u8>,
    ends: Vec<Ends>,
}

impl Asked {
    /// How many classes are looked up.
    pub fn len(&self) -> usize {
        self.ends.len()
    }

    fn push(&mut self, name: &ClassName) -> Result<(), AllocError> {
        self.bytes.extend_from_slice(&name.loader)?;
        let loader = self.bytes.len();
        self.bytes.extend_from_slice(&name.class)?;
        let class = self.bytes.len();
        self.ends.push(Ends { loader, class })?;
        Ok(())
    }
}

/// These names, in their order.
fn ask_for(alloc: Global, names: &[ClassName]) -> Result<Asked, AllocError> {
    let mut asked = Asked {
        bytes: Vec::new(alloc),
        ends: Vec::new(alloc),
    };
    for name in names {
        asked.push(name)?;
    }
    Ok(asked)
}

/// The names of all classes, in a shuffled order.
pub fn shuffled_names(alloc: Global, front: &Front) -> Result<Asked> {
    let Seen { mut names, .. } = see_all(alloc, front)?;
    names.shuffle(&mut Pcg32::new(42, 54));
    Ok(ask_for(alloc, &names)?)
}

/// How many of the classes are found.
pub fn find_all(front: &Front, asked: &Asked) -> u64 {
    let mut found = 0u64;
    let mut from = 0;
    for ends in &asked.ends {
        let loader = asked.bytes.get(from..ends.loader).unwrap_or(&[]);
        let class = asked.bytes.get(ends.loader..ends.class).unwrap_or(&[]);
        if front.find(loader, class).is_some() {
            found = found.saturating_add(1);
        }
        from = ends.class;
    }
    found
}

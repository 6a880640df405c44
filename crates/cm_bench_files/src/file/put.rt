//! Stores classes.

use crate::file::counted::{CountedDisk, Counts};
use anyhow::Result;
use cm_commands::{Command, PrepareFault, Prepared, Refusal, prepare};
use cm_commit::Progress;
use cm_disk::Disk;
use cm_file_disk::FileDisk;
use cm_pool::Geometry;
use cm_recover::{NotOpened, format};
use cm_session::{Session, open};
use std::alloc::{AllocError, Global};
use std::fs::{File, Files};

/// The loader of all classes.
const LOADER: &[u8] = b"app";

/// What was stored.
#[derive(Clone, Copy, Debug)]
pub struct Stored {
    pub records: u64,
    /// The bytes of all records together.
    pub bytes: u64,
    pub commits: u64,
}

/// The classes that can be defined, in order. The others are left out.
pub fn prepare_all(alloc: Global, classes: &[&[u8]]) -> Result<Vec<Prepared>, AllocError> {
    let mut all = Vec::with_capacity(alloc, classes.len())?;
    for class in classes {
        match prepare(alloc, class) {
            Ok(class) => all.push(class)?,
            Err(PrepareFault::NoMemory) => return Err(AllocError),
            Err(_) => {}
        }
    }
    Ok(all)
}

/// A session of a disk that holds a cache.
fn session_of(alloc: Global, disk: FileDisk) -> Result<Session<CountedDisk<FileDisk>>> {
    match open(alloc, CountedDisk::new(disk)) {
        Ok(session) => Ok(session),
        Err(NotOpened { fault, disk: _disk }) => Err(fault.into()),
    }
}

/// Makes the device calls of what was accepted, up to the last.
fn commit<D: Disk>(session: &mut Session<D>) -> Result<()> {
    session.seal()?;
    'calls: for _ in 0..u32::MAX {
        if session.advance()? != Progress::Working {
            break 'calls;
        }
    }
    session.learn();
    Ok(())
}

fn add_loader<D: Disk>(session: &mut Session<D>) -> Result<()> {
    session.accept(Command::AddLoader(LOADER))?;
    commit(session)
}

/// Makes a file of these sizes.
pub fn make_file(
    rt: &(impl Files<File = File> + AllocGlobal),
    path: &str,
    geometry: Geometry,
) -> Result<()> {
    let mut disk = cm_file_disk::create(rt, rt.alloc(), path)?;
    format(rt.alloc(), &mut disk, geometry)?;
    Ok(())
}

/// Opens a file for storing. The calls of its disk are counted from here on, so they include the
/// sync of opening.
pub fn open_session(
    rt: &(impl Files<File = File> + AllocGlobal),
    path: &str,
) -> Result<Session<CountedDisk<FileDisk>>> {
    let disk = cm_region_file::open(rt, path)?;
    session_of(rt.alloc(), disk)
}

/// Makes a file of these sizes, with the loader in it. A disk that was written to isn't read again,
/// so the file is opened anew in between.
pub fn make_cache(
    rt: &(impl Files<File = File> + AllocGlobal),
    path: &str,
    geometry: Geometry,
) -> Result<()> {
    make_file(rt, path, geometry)?;
    let mut session = open_session(rt, path)?;
    let added = add_loader(&mut session);
    let _disk = session.into_disk(); // closes the file
    added
}

/// Accepts a class, and returns whether it is new: a stream may have a name twice.
fn accept<D: Disk>(session: &mut Session<D>, class: Prepared) -> Result<bool> {
    match session.accept(Command::Define(LOADER, class)) {
        Ok(_) => Ok(true),
        Err(Refusal::ClassExists) => Ok(false),
        Err(refusal) => Err(refusal.into()),
    }
}

/// Commits what was accepted, and counts that.
fn commit_group<D: Disk>(session: &mut Session<D>, stored: &mut Stored) -> Result<()> {
    commit(session)?;
    stored.commits = stored.commits.saturating_add(1);
    Ok(())
}

/// Accepts a class, and returns how many commands then wait for their commit.
fn take<D: Disk>(
    session: &mut Session<D>,
    class: Prepared,
    waiting: u32,
    stored: &mut Stored,
) -> Result<u32> {
    let bytes = 8 * u64::from(class.record().words());
    if !accept(session, class)? {
        return Ok(waiting);
    }
    stored.records = stored.records.saturating_add(1);
    stored.bytes = stored.bytes.saturating_add(bytes);
    Ok(waiting.saturating_add(1))
}

/// Defines classes in the loader, `group` of them per commit.
pub fn store_all<D: Disk>(
    session: &mut Session<D>,
    classes: Vec<Prepared>,
    group: u32,
) -> Result<Stored> {
    let mut stored = Stored {
        records: 0,
        bytes: 0,
        commits: 0,
    };
    let mut waiting = 0;
    for class in classes {
        waiting = take(session, class, waiting, &mut stored)?;
        if waiting == group {
            commit_group(session, &mut stored)?;
            waiting = 0;
        }
    }
    if waiting > 0 {
        commit_group(session, &mut stored)?;
    }
    Ok(stored)
}

/// The counts of the calls of a session's disk.
pub fn close<D: Disk + Drop>(session: Session<CountedDisk<D>>) -> Counts {
    session.into_disk().counts()
}

//! The file that is viewed, as a session leaves it.

use cm_commands::{Command, prepare};
use cm_disk::SimDisk;
use cm_recover::NotOpened;
use cm_samples::{bytes_of, class, new_disk, padded_class_file, small_geometry};
use cm_session::{Session, open};
use std::alloc::Global;
use std::test::Fail;

/// Where the roots begin, and how long each is.
pub const ROOTS_AT: usize = 36_864;

pub const ROOT: usize = 8_192;

/// Opens a file that holds a cache.
pub fn open_stored(alloc: Global, disk: SimDisk) -> Result<Session<SimDisk>, Fail> {
    match open(alloc, disk) {
        Ok(session) => Ok(session),
        Err(
            NotOpened {
                fault: _,
                disk: _disk,
            },
        ) => Err("the file holds a cache".into()),
    }
}

fn store_all(alloc: Global, session: &mut Session<SimDisk>) -> Result<bool, Fail> {
    let long = prepare(alloc, &padded_class_file(alloc, b"B", 5_000)?)?;
    Ok(
        session.store(Command::AddLoader(b"a")).is_ok()
            && session
                .store(Command::Define(b"a", class(alloc, b"A")?))
                .is_ok()
            && session.store(Command::Define(b"a", long)).is_ok()
            && session.store(Command::AddLoader(b"b")).is_ok()
            && session
                .store(Command::Define(b"b", class(alloc, b"A")?))
                .is_ok(),
    )
}

/// The bytes of a file of two roots. Loader `a` has class `A`, of 16 words, in the first, and class
/// `B`, of 645 words, in the second; loader `b` has a class `A` too. They are defined in slots 4, 6
/// and 10.
pub fn viewed_file(alloc: Global) -> Result<Vec<u8>, Fail> {
    let mut session = open_stored(alloc, new_disk(alloc, small_geometry())?)?;
    let stored = store_all(alloc, &mut session);
    let mut disk = session.into_disk();
    if stored? {
        bytes_of(alloc, &mut disk)
    } else {
        Err("no command is refused".into())
    }
}

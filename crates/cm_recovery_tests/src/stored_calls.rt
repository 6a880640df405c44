//! Commands as values, so that a test is a table of commands and what they leave, and disks on
//! which they are stored.

use cm_commands::{Command, Names};
use cm_disk::SimDisk;
use cm_recover::NotOpened;
use cm_samples::{class, new_disk, small_geometry};
use cm_session::{Session, open};
use std::alloc::Global;
use std::test::Fail;

/// A command. Loaders and classes have names of one letter; the record of a class has 16 words.
#[derive(Clone, Copy)]
pub enum Call {
    Loader(u8),
    Define(u8, u8),
    Unload(u8),
    Tighten(u8),
    UnloadAll(&'static [&'static [u8]]),
}

fn store(alloc: Global, session: &mut Session<SimDisk>, call: Call) -> Result<bool, Fail> {
    let answer = match call {
        Call::Loader(loader) => session.store(Command::AddLoader(&[loader])),
        Call::Define(loader, name) => {
            session.store(Command::Define(&[loader], class(alloc, &[name])?))
        }
        Call::Unload(loader) => session.store(Command::Unload(&[loader])),
        Call::Tighten(loader) => session.store(Command::Tighten(&[loader])),
        Call::UnloadAll(loaders) => session.store(Command::UnloadAll(Names::new(loaders))),
    };
    Ok(answer.is_ok())
}

fn store_all(alloc: Global, session: &mut Session<SimDisk>, calls: &[Call]) -> Result<(), Fail> {
    for call in calls {
        if !store(alloc, session, *call)? {
            return Err("no command is refused".into());
        }
    }
    Ok(())
}

fn open_stored(alloc: Global, disk: SimDisk) -> Result<Session<SimDisk>, Fail> {
    match open(alloc, disk) {
        Ok(session) => Ok(session),
        Err(
            NotOpened {
                fault: _,
                disk: _disk,
            },
        ) => Err("the file holds a cache".into()),
    }
}

/// A new file of small sizes on which these commands are stored, one after another.
pub fn disk_after(alloc: Global, calls: &[Call]) -> Result<SimDisk, Fail> {
    let mut session = open_stored(alloc, new_disk(alloc, small_geometry())?)?;
    let stored = store_all(alloc, &mut session, calls);
    let disk = session.into_disk();
    stored?;
    Ok(disk)
}

//! Files that are opened in threads: with any number of them what is opened is the same, and so is
//! the first damage.

use crate::file_samples::{ROOTS_AT, put};
use crate::stored_calls::Call::{Define, Loader};
use crate::stored_calls::{Call, disk_after};
use cm_recover::{NotOpened, open, open_in_threads};
use cm_samples::{bytes_of, disk_of};
use cm_verdict::{Damage, FileFault, OpenFault};
use std::alloc::Global;
use std::test::*;
use std::thread::Threads;

/// Eight classes of one loader: their records have 16 words each and lie one after another in one
/// chunk, and their entries stand in slots 4, 6 and so on.
const CALLS: [Call; 9] = [
    Loader(b'l'),
    Define(b'l', b'a'),
    Define(b'l', b'b'),
    Define(b'l', b'c'),
    Define(b'l', b'd'),
    Define(b'l', b'e'),
    Define(b'l', b'f'),
    Define(b'l', b'g'),
    Define(b'l', b'h'),
];

const NAMES: &[u8] = b"abcdefgh";

/// How many threads open a file.
const THREADS: [usize; 5] = [1, 2, 3, 4, 16];

/// The number of the last command, and how many of the eight classes are found.
type Told = Result<(u64, usize), OpenFault>;

const WHOLE: Told = Ok((9, 8));

fn damaged(slot: u32) -> Told {
    Err(OpenFault::File(FileFault::Damaged {
        what: Damage::Record,
        slot,
    }))
}

/// The records that are damaged, from 0, and what is then told.
const DAMAGES: [(&[usize], Option<u32>); 7] = [
    (&[], None),
    (&[0], Some(4)),
    (&[7], Some(18)),
    (&[3, 4], Some(10)),
    (&[7, 6, 5], Some(14)),
    (&[7, 2, 5], Some(8)),
    (&[0, 1, 2, 3, 4, 5, 6, 7], Some(4)),
];

fn told_of(slot: Option<u32>) -> Told {
    slot.map_or(WHOLE, damaged)
}

/// The file of the eight classes in which these records are damaged: each has a constant of an
/// unknown kind.
fn file_with(alloc: Global, records: &[usize]) -> Result<Vec<u8>, Fail> {
    let mut disk = disk_after(alloc, &CALLS)?;
    let mut bytes = bytes_of(alloc, &mut disk)?;
    for record in records {
        let at = record.wrapping_mul(128).wrapping_add(72);
        put(&mut bytes, ROOTS_AT.wrapping_add(at), 2);
    }
    Ok(bytes)
}

fn open_by(
    rt: &(impl Threads + Sync),
    alloc: Global,
    file: &[u8],
    threads: usize,
) -> Result<Told, Fail> {
    let disk = disk_of(alloc, file)?;
    let opened = if threads == 0 {
        open(alloc, disk)
    } else {
        open_in_threads(rt, alloc, disk, threads)
    };
    match opened {
        Ok((front, committer)) => {
            let found = NAMES
                .iter()
                .filter(|name| front.find(b"l", &[**name]).is_some());
            Ok(Ok((committer.number(), found.count())))
        }
        Err(NotOpened { fault, disk: _disk }) => Ok(Err(fault)),
    }
}

/// With how many threads something else is told first; none is opening with no other thread.
fn first_other(
    rt: &(impl Threads + Sync),
    alloc: Global,
    file: &[u8],
    told: Told,
) -> Result<Option<usize>, Fail> {
    if open_by(rt, alloc, file, 0)? != told {
        return Ok(Some(0));
    }
    for threads in THREADS {
        if open_by(rt, alloc, file, threads)? != told {
            return Ok(Some(threads));
        }
    }
    Ok(None)
}

#[test]
fn the_first_damage_is_told_with_any_number_of_threads(rt: HostRuntime) -> Result<(), Fail> {
    let alloc = rt.alloc();
    for (records, slot) in DAMAGES {
        let file = file_with(alloc, records)?;
        assert_eq!(rt; first_other(&rt, alloc, &file, told_of(slot))?, None);
    }
    Ok(())
}

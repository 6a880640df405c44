use crate::held::{fill, hold_record};
use cm_disk::{Choice, Disk, SimDisk};
use std::alloc::Global;
use std::test::Fail;

/// A length, the fill, and what is left.
struct Case {
    len: u64,
    fill: &'static [u8],
    left: &'static [u8],
}

/// Four letters were durable; four more were written over the end and past it.
const AFTER_A_WRITE: [Case; 5] = [
    Case {
        len: 0,
        fill: b"",
        left: b"abcdWX",
    },
    Case {
        len: 1 << 40,
        fill: b"",
        left: b"abcdWXYZ",
    },
    Case {
        len: 7,
        fill: b"12",
        left: b"abcd12Y",
    },
    Case {
        len: 8,
        fill: b"1234",
        left: b"abcd1234",
    },
    Case {
        len: 6,
        fill: b"12345",
        left: b"abcd12",
    },
];

/// Six letters were durable, and then were cut to three.
const AFTER_A_CUT: [Case; 3] = [
    Case {
        len: 0,
        fill: b"12",
        left: b"abc",
    },
    Case {
        len: 5,
        fill: b"1",
        left: b"abc1\0",
    },
    Case {
        len: 9,
        fill: b"123",
        left: b"abc123",
    },
];

fn write_bytes(alloc: Global) -> Result<SimDisk, Fail> {
    let mut disk = SimDisk::new(alloc);
    fill(&mut disk)?;
    disk.sync()?;
    disk.write_at(4, b"WXYZ")?;
    Ok(disk)
}

fn cut(alloc: Global) -> Result<SimDisk, Fail> {
    let mut disk = SimDisk::new(alloc);
    fill(&mut disk)?;
    disk.sync()?;
    disk.cut(3)?;
    Ok(disk)
}

/// What a crash leaves, and whether a crash of that leaves it too.
fn crash_and_read(alloc: Global, disk: SimDisk, case: &Case) -> Result<(Vec<u8>, bool), Fail> {
    let choice = Choice {
        len: case.len,
        fill: Vec::from_slice(alloc, case.fill)?,
    };
    let mut first = disk.crash(alloc, &choice)?;
    let bytes = hold_record(alloc, &mut first)?;
    let mut second = first.crash(alloc, &choice)?;
    let again = hold_record(alloc, &mut second)?;
    let stays = bytes.as_slice() == again.as_slice();
    Ok((bytes, stays))
}

#[test]
fn a_crash_after_a_write_takes_the_chosen_bytes(rt: HostRuntime) -> Result<(), Fail> {
    let alloc = rt.alloc();
    for case in &AFTER_A_WRITE {
        let (bytes, stays) = crash_and_read(alloc, write_bytes(alloc)?, case)?;
        assert_eq!(rt; bytes.as_slice(), case.left);
        assert!(rt; stays);
    }
    Ok(())
}

#[test]
fn a_crash_after_a_cut_takes_the_chosen_length(rt: HostRuntime) -> Result<(), Fail> {
    let alloc = rt.alloc();
    for case in &AFTER_A_CUT {
        let (bytes, stays) = crash_and_read(alloc, cut(alloc)?, case)?;
        assert_eq!(rt; bytes.as_slice(), case.left);
        assert!(rt; stays);
    }
    Ok(())
}

//! Taking words from a disk.

use cm_disk::{DeviceFault, Disk, SimDisk, WordRange};
use cm_file_disk::FileDisk;
use std::alloc::{AllocError, Global};
use std::fs;
use std::test::*;

/// Twenty-four bytes: the last word has the bytes 1 to 8.
const BYTES: [u8; 24] = *b"abcdefghABCDEFGH\x01\x02\x03\x04\x05\x06\x07\x08";

/// The second and the third word of three.
fn last_two<D: Disk>(
    alloc: Global,
    disk: &mut D,
) -> Result<Result<Option<[u64; 2]>, AllocError>, DeviceFault> {
    if disk.len()? != 24 {
        return Err(DeviceFault);
    }
    let range = WordRange { at: 8, count: 2 };
    match disk.take_words(alloc, range)? {
        Ok(words) => match words.as_slice() {
            [one, two] => Ok(Ok(Some([*one, *two]))),
            _ => Ok(Ok(None)),
        },
        Err(error) => Ok(Err(error)),
    }
}

const WORDS: [u64; 2] = [0x4847_4645_4443_4241, 0x0807_0605_0403_0201];

#[test]
fn words_have_the_lowest_byte_first(rt: HostRuntime) -> Result<(), Fail> {
    let mut disk = SimDisk::new(rt.alloc());
    assert_eq!(rt; disk.len(), Ok(0));
    disk.write_at(0, &BYTES)?;
    assert_eq!(rt; last_two(rt.alloc(), &mut disk)??, Some(WORDS));
    disk.arm(0);
    assert!(rt; last_two(rt.alloc(), &mut disk).is_err());
    Ok(())
}

#[test]
fn words_of_a_file_are_those_of_its_bytes(rt: HostRuntime) -> Result<(), Fail> {
    let path = "cm_file_disk_words.tmp";
    fs::write(&rt, path, BYTES.as_slice())?;
    let opened = cm_file_disk::open_read_only(&rt, rt.alloc(), path)?;
    let mut disk = FileDisk::of_opened(opened);
    for _ in 0..2 {
        assert_eq!(rt; last_two(rt.alloc(), &mut disk)??, Some(WORDS));
    }
    fs::remove_file(&rt, path)?;
    Ok(())
}

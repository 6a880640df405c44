//! Files that are opened with as much of them in memory as their caches need.

use crate::disks::replies;
use crate::scripts::expand;
use cm_disk::{Disk, WordRange};
use cm_file_disk::FileDisk;
use cm_pool::Geometry;
use cm_recover::format;
use cm_verdict::record_ranges;
use cm_words::WordBuf;
use std::alloc::Global;
use std::fs;
use std::test::*;

/// Two loaders with class A, of 16 words, of which the first is unloaded.
const SCRIPT: &[u8] = b"loader a\ndefine a @\nloader b\ndefine b @\nunload a\n";

/// The halves of a file with 256 slots in each end here, and the first record begins.
const ROOTS_AT: u64 = 36_864;

/// Makes a file with what the script leaves.
fn make_file(rt: &HostRuntime, path: &str) -> Result<(), Fail> {
    let _ = fs::remove_file(rt, path);
    let geometry = Geometry::new(8, 64, 256).ok_or("a geometry")?;
    let mut disk = cm_file_disk::create(rt, rt.alloc(), path)?;
    if format(rt.alloc(), &mut disk, geometry).is_err() {
        return Err("a new cache".into());
    }
    drop(disk);
    let script = expand(rt.alloc(), SCRIPT)?;
    let (told, _outcome, _disk) = replies(rt.alloc(), &script, cm_region_file::open(rt, path)?);
    if told.as_slice() != b"ok 1\nok 2 A\nok 3\nok 4 A\nok 5\n".as_slice() {
        return Err("the replies to the script".into());
    }
    Ok(())
}

/// Takes sixteen words from a place on; `None` if the file ends before.
fn take_sixteen(alloc: Global, disk: &mut FileDisk, at: u64) -> Result<Option<WordBuf>, Fail> {
    if at > 65_536 || disk.len()? < at + 128 {
        return Ok(None);
    }
    Ok(Some(disk.take_words(alloc, WordRange { at, count: 16 })??))
}

/// The sixteen words that a file's bytes have from a place on.
fn words_in(bytes: &[u8], at: u64) -> Option<[u64; 16]> {
    let mut rest = bytes.get(at as usize..)?;
    let mut words = [0; 16];
    for word in &mut words {
        let (eight, after) = rest.split_first_chunk::<8>()?;
        *word = u64::from_le_bytes(*eight);
        rest = after;
    }
    Some(words)
}

#[test]
fn a_file_is_opened_with_the_records_that_live(rt: HostRuntime) -> Result<(), Fail> {
    let path = "cm_region_file_records.tmp";
    make_file(&rt, path)?;
    let bytes = fs::read(&rt, path)?;
    let mut disk = cm_region_file::open_read_only(&rt, path)?;
    let ranges = record_ranges(rt.alloc(), &mut disk)?;
    let [range] = ranges.as_slice() else {
        return Err("one class lives".into());
    };
    assert_eq!(rt; range.count, 16);
    assert!(rt; range.at > ROOTS_AT);
    let words = take_sixteen(rt.alloc(), &mut disk, range.at)?.ok_or("the file has the record")?;
    let wanted = words_in(&bytes, range.at).ok_or("the bytes have the record")?;
    assert_eq!(rt; words.as_slice(), wanted.as_slice());
    fs::remove_file(&rt, path)?;
    Ok(())
}

#[test]
fn the_record_of_an_unloaded_class_is_not_read(rt: HostRuntime) -> Result<(), Fail> {
    let path = "cm_region_file_unloaded.tmp";
    make_file(&rt, path)?;
    let mut disk = cm_region_file::open_read_only(&rt, path)?;
    assert!(rt; disk.len()? > ROOTS_AT + 128);
    let taken = disk.take_words(
        rt.alloc(),
        WordRange {
            at: ROOTS_AT,
            count: 16,
        },
    );
    assert!(rt; taken.is_err());
    fs::remove_file(&rt, path)?;
    Ok(())
}

#[test]
fn what_no_cache_is_in_is_opened_too(rt: HostRuntime) -> Result<(), Fail> {
    let path = "cm_region_file_text.tmp";
    fs::write(&rt, path, b"no cache".as_slice())?;
    let (told, outcome, _disk) = replies(
        rt.alloc(),
        b"find a A\n",
        cm_region_file::open(&rt, path)?,
    );
    assert!(rt; told.is_empty());
    assert!(rt; outcome.is_err());
    fs::remove_file(&rt, path)?;
    Ok(())
}

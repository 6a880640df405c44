//! Reports on sound caches.

use crate::maintenance_disks::{Verb, cache_after, status_of, tell, tell_to_end};
use cm_disk::{DeviceFault, Disk, SimDisk};
use cm_maintenance::Status;
use std::alloc::Global;
use std::test::*;

/// A script, the line that a check reports about the cache after it, and the lines of its list.
type Case<'a> = (&'a [u8], &'a [u8], &'a [u8]);

const CASES: [Case<'_>; 7] = [
    (b"", b"ok loaders 0 classes 0 chunks 0 number 0\n", b""),
    (
        b"loader app\n",
        b"ok loaders 1 classes 0 chunks 0 number 1\n",
        b"loader app\n",
    ),
    (
        b"loader app\ndefine app <0141>\n",
        b"ok loaders 1 classes 1 chunks 1 number 2\n",
        b"loader app\nclass A words 16 root 0 at 0\n",
    ),
    // loaders and classes in an order other than that of their names, names of other bytes, and
    // chunks and records after others
    (
        b"loader b\nloader a\ndefine b <0141>\ndefine a <02c3a9>\ndefine a <0125>\n\
            define b <024142>\ndefine a <0141>\n",
        b"ok loaders 2 classes 5 chunks 2 number 7\n",
        b"loader a\n\
            class %25 words 16 root 0 at 144\n\
            class A words 16 root 0 at 160\n\
            class %C3%A9 words 16 root 0 at 128\n\
            loader b\n\
            class A words 16 root 0 at 0\n\
            class AB words 16 root 0 at 16\n",
    ),
    // a loader that is unloaded, and one whose name isn't escaped
    (
        b"loader a\ndefine a <0141>\nloader a%\nunload a\nloader ~\ndefine ~ <0141>\n",
        b"ok loaders 2 classes 1 chunks 1 number 6\n",
        b"loader a%\nloader ~\nclass A words 16 root 0 at 0\n",
    ),
    // names that take two slots, and differ in the second
    (
        b"loader mmmmmmmmmmmmmmmmmmmmmmmmmmmmmmmmmmmmmmmmmmmmmmmmmb\n\
            loader mmmmmmmmmmmmmmmmmmmmmmmmmmmmmmmmmmmmmmmmmmmmmmmmma\n\
            define mmmmmmmmmmmmmmmmmmmmmmmmmmmmmmmmmmmmmmmmmmmmmmmmmb <0141>\n\
            loader mmmmmmmmmmmmmmmmmmmmmmmmmmmmmmmmmmmmmmmmmmmmmmmm\
            mmmmmmmmmmmmmmmmmmmmmmmmmmmmmmmmmmmmmmmmmmmmmmmm\n",
        b"ok loaders 3 classes 1 chunks 1 number 4\n",
        b"loader mmmmmmmmmmmmmmmmmmmmmmmmmmmmmmmmmmmmmmmmmmmmmmmmma\n\
            loader mmmmmmmmmmmmmmmmmmmmmmmmmmmmmmmmmmmmmmmmmmmmmmmmmb\n\
            class A words 16 root 0 at 0\n\
            loader mmmmmmmmmmmmmmmmmmmmmmmmmmmmmmmmmmmmmmmmmmmmmmmm\
            mmmmmmmmmmmmmmmmmmmmmmmmmmmmmmmmmmmmmmmmmmmmmmmm\n",
    ),
    // eight classes fill a chunk; the ninth, in one of 256 words, moves to one of 128
    (
        b"loader a\ndefine a <0141>\ndefine a <0142>\ndefine a <0143>\ndefine a <0144>\n\
            define a <0145>\ndefine a <0146>\ndefine a <0147>\ndefine a <0148>\n\
            define a <0149>\ntighten a\n",
        b"ok loaders 1 classes 9 chunks 2 number 11\n",
        b"loader a\n\
            class A words 16 root 0 at 0\n\
            class B words 16 root 0 at 16\n\
            class C words 16 root 0 at 32\n\
            class D words 16 root 0 at 48\n\
            class E words 16 root 0 at 64\n\
            class F words 16 root 0 at 80\n\
            class G words 16 root 0 at 96\n\
            class H words 16 root 0 at 112\n\
            class I words 16 root 0 at 128\n",
    ),
];

/// Whether these lines are reported about a sound cache, and the disk.
fn is_told(
    alloc: Global,
    verb: Verb,
    disk: SimDisk,
    lines: &[u8],
) -> Result<(bool, SimDisk), Fail> {
    let (status, is_told, disk) = status_of(alloc, verb, disk, lines)?;
    Ok((status == Status::Done && is_told, disk))
}

/// Whether this is reported about a disk, listed, and reported again.
fn are_told(alloc: Global, disk: SimDisk, report: &[u8], list: &[u8]) -> Result<[bool; 3], Fail> {
    let (is_reported, disk) = is_told(alloc, Verb::Check, disk, report)?;
    let (is_listed, disk) = is_told(alloc, Verb::List, disk, list)?;
    let (is_reported_again, _disk) = is_told(alloc, Verb::Check, disk, report)?;
    Ok([is_reported, is_listed, is_reported_again])
}

#[test]
fn caches_are_checked_and_listed(rt: HostRuntime) -> Result<(), Fail> {
    let alloc = rt.alloc();
    for (script, report, list) in &CASES {
        let are_told = are_told(alloc, cache_after(alloc, script)?, report, list)?;
        assert_eq!(rt; are_told, [true; 3]);
    }
    Ok(())
}

/// How many syncs a disk had, has after a check, and after a list, and then its length.
fn count_syncs(alloc: Global, disk: SimDisk) -> Result<([u64; 3], Result<u64, DeviceFault>), Fail> {
    let before = disk.syncs();
    let (_, disk) = is_told(alloc, Verb::Check, disk, b"")?;
    let checked = disk.syncs();
    let (_, mut disk) = is_told(alloc, Verb::List, disk, b"")?;
    Ok(([before, checked, disk.syncs()], disk.len()))
}

#[test]
fn a_list_syncs_once_and_a_check_never(rt: HostRuntime) -> Result<(), Fail> {
    let disk = cache_after(rt.alloc(), b"loader app\ndefine app <0141>\n")?;
    let ([before, checked, listed], len) = count_syncs(rt.alloc(), disk)?;
    assert_eq!(rt; checked, before);
    assert_eq!(rt; listed, before.saturating_add(1));
    assert_eq!(rt; len, Ok(45_056));
    Ok(())
}

/// A list of a disk, and after it a report.
fn list_and_check(alloc: Global, told: &mut Vec<u8>, disk: SimDisk) -> Result<(), Fail> {
    let (_, disk) = tell_to_end(tell(alloc, Verb::List, told, disk))?;
    let (_, _disk) = tell_to_end(tell(alloc, Verb::Check, told, disk))?;
    Ok(())
}

#[test]
fn lines_go_behind_what_is_written(rt: HostRuntime) -> Result<(), Fail> {
    let alloc = rt.alloc();
    let mut told = Vec::from_slice(alloc, b"before\n")?;
    list_and_check(alloc, &mut told, cache_after(alloc, b"loader app\n")?)?;
    assert_eq!(rt;
        told.as_slice(),
        b"before\nloader app\nok loaders 1 classes 0 chunks 0 number 1\n".as_slice()
    );
    Ok(())
}

const NUMBERS: [(Status, u8); 3] = [(Status::Done, 0), (Status::Refused, 1), (Status::Failed, 3)];

#[test]
fn statuses_have_their_numbers(rt: HostRuntime) -> Result<(), Fail> {
    for (status, number) in &NUMBERS {
        assert_eq!(rt; status.number(), *number);
    }
    Ok(())
}

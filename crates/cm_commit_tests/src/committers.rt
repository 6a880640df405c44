//! Committers of new files in memory. What a test does with one is in a function that borrows it;
//! after that the committer ends and hands back its disk.

use crate::groups::{Sample, group_of};
use cm_commit::{Committer, Progress};
use cm_disk::SimDisk;
use cm_front::Front;
use cm_group::Group;
use cm_recover::{NotOpened, open};
use cm_samples::{new_disk, small_geometry};
use std::alloc::Global;
use std::test::Fail;

/// The cache of a file.
pub fn open_committer(alloc: Global, disk: SimDisk) -> Result<(Front, Committer<SimDisk>), Fail> {
    match open(alloc, disk) {
        Ok(cache) => Ok(cache),
        Err(
            NotOpened {
                fault: _,
                disk: _disk,
            },
        ) => Err("the file holds a cache".into()),
    }
}

/// A committer of a new file.
pub fn new_committer(alloc: Global) -> Result<Committer<SimDisk>, Fail> {
    match open_committer(alloc, new_disk(alloc, small_geometry())?) {
        Ok((_front, committer)) => Ok(committer),
        Err(fail) => Err(fail),
    }
}

fn is_whole(group: &Group, first: u64, count: usize) -> bool {
    group.first() == first && group.count() == count
}

/// Offers a group. Returns how many device calls it takes or, if it is refused, whether it was
/// handed back.
pub fn offer(
    alloc: Global,
    committer: &mut Committer<SimDisk>,
    first: u64,
    samples: &[Sample],
) -> Result<Result<u64, bool>, Fail> {
    let group = group_of(alloc, first, samples)?;
    match committer.offer(group) {
        Ok(()) => Ok(Ok(committer.steps_left())),
        Err(mismatch) => Ok(Err(is_whole(&mismatch.group, first, samples.len()))),
    }
}

/// Makes all device calls of the group that is under way, and returns the number that is then
/// stored.
pub fn store(committer: &mut Committer<SimDisk>) -> Option<u64> {
    for _call in 0..committer.steps_left() {
        match committer.advance() {
            Ok(Progress::Working) => {}
            Ok(Progress::Done(receipt)) => return Some(receipt.number),
            Ok(Progress::Idle | Progress::Trimmed(_)) | Err(_) => return None,
        }
    }
    None
}

//! Imports that nothing disturbs, and those that can't begin.

use crate::classes::{many_classes, two_of_a_name};
use crate::groups::{Groups, Told};
use cm_commands::Refusal;
use cm_disk::{Disk, SimDisk};
use cm_importing::{ImportFault, import};
use cm_pool::Geometry;
use cm_verdict::{FileFault, OpenFault};
use std::alloc::Global;
use std::test::*;
use std::thread::Threads;

/// A disk in memory that holds the empty cache of the least sizes.
pub fn new_disk(alloc: Global) -> Result<SimDisk, Fail> {
    let geometry = Geometry::new(3, 64, 256).ok_or("sizes")?;
    Ok(cm_samples::new_disk(alloc, geometry)?)
}

/// Imports groups of classes of these names into the loader `app`: the result, what the feed was
/// told, and the disk.
pub fn import_groups<R: Threads + Sync + AllocGlobal, D: Disk + Drop>(
    rt: &R,
    names: &[&[u8]],
    disk: D,
) -> Result<(Result<u64, ImportFault>, Told, D), Fail> {
    let mut groups = Groups::new(rt.alloc(), names)?;
    let (result, disk) = import(rt, rt.alloc(), b"app", &mut groups, disk, 2);
    Ok((result, groups.told(), disk))
}

/// Whether the loader `app` of the cache on a disk has a class of each of these names.
fn has_all(alloc: Global, disk: SimDisk, names: &[u8]) -> bool {
    let Ok(session) = cm_session::open(alloc, disk) else {
        return false;
    };
    let mut has_all = true;
    for name in names {
        has_all = has_all && session.find(b"app", &[*name]).is_some();
    }
    let _disk = session.into_disk();
    has_all
}

/// What is told of classes of which this many are stored, and this many are there already.
fn told(stored: u64, there: u64) -> Told {
    Told {
        stored,
        there,
        changed: 0,
        refused: 0,
    }
}

#[test]
fn groups_are_imported(rt: HostRuntime) -> Result<(), Fail> {
    let alloc = rt.alloc();
    let disk = new_disk(alloc)?;
    let (result, first, disk) = import_groups(&rt, &[b"AB", b"", b"BC"], disk)?;
    assert_eq!(rt; (result, first), (Ok(4), told(3, 1)));
    let (result, again, disk) = import_groups(&rt, &[b"ABC", b"D"], disk)?;
    assert_eq!(rt; (result, again), (Ok(5), told(1, 3)));
    assert!(rt; has_all(alloc, disk, b"ABCD"));
    Ok(())
}

#[test]
fn a_loader_is_added_without_classes(rt: HostRuntime) -> Result<(), Fail> {
    let alloc = rt.alloc();
    let (result, first, disk) = import_groups(&rt, &[], new_disk(alloc)?)?;
    assert_eq!(rt; (result, first), (Ok(1), told(0, 0)));
    let (result, again, disk) = import_groups(&rt, &[], disk)?;
    assert_eq!(rt; (result, again), (Ok(1), told(0, 0)));
    assert!(rt; has_all(alloc, disk, b""));
    Ok(())
}

/// How many groups a feed still has that was to be imported into a loader, and why it wasn't.
fn left_by<R: Threads + Sync + AllocGlobal>(
    rt: &R,
    loader: &[u8],
    disk: SimDisk,
) -> Result<(Result<u64, ImportFault>, usize), Fail> {
    let mut groups = Groups::new(rt.alloc(), &[b"A", b"B"])?;
    let (result, _disk) = import(rt, rt.alloc(), loader, &mut groups, disk, 2);
    Ok((result, groups.left()))
}

#[test]
fn an_import_that_cannot_begin_asks_for_no_class(rt: HostRuntime) -> Result<(), Fail> {
    let alloc = rt.alloc();
    let refused = left_by(&rt, b"a b", new_disk(alloc)?)?;
    assert_eq!(rt; refused, (Err(ImportFault::Loader(Refusal::BadName)), 2));
    let unopened = left_by(&rt, b"app", SimDisk::new(alloc))?;
    assert_eq!(rt;
        unopened,
        (
            Err(ImportFault::Open(OpenFault::File(FileFault::NotACache))),
            2
        )
    );
    Ok(())
}

/// The class A with an attribute in place of class A, and class A once more.
#[test]
fn a_class_that_changed_stays_as_it_was(rt: HostRuntime) -> Result<(), Fail> {
    let alloc = rt.alloc();
    let (result, first, disk) = import_groups(&rt, &[b"AB"], new_disk(alloc)?)?;
    assert_eq!(rt; (result, first), (Ok(3), told(2, 0)));
    let mut left = Vec::new(alloc);
    left.push(two_of_a_name(alloc)?)?;
    let mut groups = Groups::of(left);
    let (result, _disk) = import(&rt, alloc, b"app", &mut groups, disk, 2);
    let wanted = Told {
        stored: 0,
        there: 1,
        changed: 1,
        refused: 0,
    };
    assert_eq!(rt; (result, groups.told()), (Ok(3), wanted));
    Ok(())
}

/// Half of 256 slots may be live: those of the loader and of 127 classes.
#[test]
fn classes_for_which_there_is_no_room_are_refused(rt: HostRuntime) -> Result<(), Fail> {
    let alloc = rt.alloc();
    let mut left = Vec::new(alloc);
    left.push(many_classes(alloc, 140)?)?;
    let mut groups = Groups::of(left);
    let (result, _disk) = import(&rt, alloc, b"app", &mut groups, new_disk(alloc)?, 2);
    let wanted = Told {
        stored: 127,
        there: 0,
        changed: 0,
        refused: 13,
    };
    assert_eq!(rt; (result, groups.told()), (Ok(128), wanted));
    Ok(())
}

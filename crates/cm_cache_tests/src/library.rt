//! Caches that aren't opened, and caches in files.

use crate::running::{formatted, ready};
use cm_library::{
    Cache, Counts, CreateError, FileFault, Finished, Geometry, Naming, NotOpened, OpenError,
    OpenFault, Pass, SimDisk, Work, create_file, format, open, open_file,
};
use cm_samples::class;
use std::alloc::Global;
use std::fs;
use std::sync::Wait;
use std::test::*;

/// Class `A`, defined in a loader of this name, if there is none yet, and looked up. The result is
/// whether it was there before, and how many words its record has.
#[derive(Drop)]
struct Class(u8);

impl<R: Wait> Work<R> for Class {
    type Output = Result<(bool, u32), Fail>;

    ghost may_run = { λ _. Unit {0} };

    ghost keeps = { λ _ _ _. Unit {0} };

    fn run<K: Naming>(
        self,
        rt: &R,
        alloc: Global,
        cache: &Cache<K>,
        pass: &mut Pass<K>,
    ) -> Result<(bool, u32), Fail> {
        let Class(loader) = self;
        let was_there = cache.find(rt, &[loader], b"A")?.is_some();
        if !was_there {
            let _first = cache.add_loader(rt, pass, &[loader])?;
            let _second = cache.define(rt, pass, &[loader], class(alloc, b"A")?)?;
        }
        let found = cache.find(rt, &[loader], b"A")?.ok_or("not found")?;
        Ok((was_there, found.words()))
    }
}

#[test]
fn a_disk_without_a_cache_is_handed_back(rt: HostRuntime) -> Result<(), Fail> {
    let alloc = rt.alloc();
    match open(&rt, alloc, SimDisk::new(alloc), 1) {
        Ok(_) => Err("opened".into()),
        Err(NotOpened { fault, disk }) => {
            assert_eq!(rt;
                (fault, disk.syncs()),
                (OpenFault::File(FileFault::NotACache), 1)
            );
            Ok(())
        }
    }
}

#[test]
fn a_closed_cache_is_opened_again(rt: HostRuntime) -> Result<(), Fail> {
    let alloc = rt.alloc();
    let mut disk = formatted(alloc)?;
    for was_there in [false, true] {
        let finished = ready(&rt, alloc, disk)?.run(&rt, alloc, Class(b'x'))?;
        disk = finished.disk;
        let stored = if was_there { 0 } else { 2 };
        assert_eq!(rt; finished.output?, (was_there, 16));
        assert_eq!(rt;
            (finished.counts, finished.counts.unsure()),
            (
                Counts {
                    handed: stored,
                    committed: stored,
                    of_passes: stored,
                    missing: 0,
                },
                0
            )
        );
    }
    Ok(())
}

#[test]
fn a_file_is_opened_again_with_what_was_stored(rt: HostRuntime) -> Result<(), Fail> {
    let alloc = rt.alloc();
    let path = "cm_library_again.tmp";
    let sizes = Geometry::new(8, 64, 4_096).ok_or("sizes")?;
    format(alloc, &mut create_file(&rt, alloc, path)?, sizes)?;
    for was_there in [false, true] {
        let disk = open_file(&rt, path)?;
        let Finished {
            output,
            counts,
            disk: _,
        } = ready(&rt, alloc, disk)?.run(&rt, alloc, Class(b'y'))?;
        assert_eq!(rt; output?, (was_there, 16));
        assert_eq!(rt; counts.unsure(), 0);
    }
    let again = create_file(&rt, alloc, path);
    assert!(rt; matches!(again, Err(CreateError::Exists)));
    fs::remove_file(&rt, path)?;
    let gone = open_file(&rt, path);
    assert!(rt; matches!(gone, Err(OpenError::Device(_))));
    Ok(())
}

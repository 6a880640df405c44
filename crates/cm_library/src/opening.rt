//! Opens the cache on a disk.

ghost use Rattle.std.specs.Prelude.{◌<◌, IfOk, IfErr};
ghost use Rattle.cm_library.specs.Running.{IsOpened, IsNotOpened};

use cm_cache::{NewStorage, opened_may_start};
use cm_disk::Disk;
use cm_front::Front;
use cm_recover::{NotOpened, open_in_threads};
use std::alloc::Global;
use std::marker::Model;
use std::thread::Threads;

/// A cache that was opened and doesn't run yet. It is run by [`Opened::run`] or
/// [`Opened::run_in_threads`]; nothing is written to the disk before.
///
/// Contracts describe it by the committer that opening returned.
#[derive(Drop)]
pub struct Opened<D: Disk> {
    pub(crate) front: Front,
    pub(crate) storage: NewStorage<D>,
}

impl<D: Disk> Model for Opened<D> {
    ghost use Rattle.cm_commit.specs.States.{CommitterState};
    ghost use Rattle.cm_cache.specs.Starting.{MayStart, base_of};

    ghost Value = { CommitterState D };

    ghost view = { λ o. o.storage };

    ghost invariant = { λ o. MayStart (base_of o.storage)
        (D.view.failures o.storage.disk) D.view.failures o.front o.storage };
}

/// Opens the cache on a disk. This many threads check the records on the disk.
///
/// # Errors
/// The fault and the disk, as of [`open`](cm_recover::open).
pub fn open<R, D>(rt: &R, alloc: Global, disk: D, threads: usize) -> Result<Opened<D>, NotOpened<D>>
where
    R: Threads + Sync,
    D: Disk,
    requires { 0 < threads }
    ensures opened { IfOk result (IsOpened D.view disk) }
    ensures fault { IfErr result (λ e. IsNotOpened D.view disk e.disk e.fault) }
{
    match open_in_threads(rt, alloc, disk, threads) {
        Ok((front, committer)) => {
            opened_may_start(&front, &committer);
            Ok(Opened {
                front,
                storage: NewStorage::new(committer),
            })
        }
        Err(not_opened) => Err(not_opened),
    }
}

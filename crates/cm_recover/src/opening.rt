//! Opens a file.

ghost use Rattle.std.specs.Prelude.{◌≡◌, ◌<◌, Err, IfOk, IfErr, OnOk};
ghost use Rattle.std.specs.Thread.{IsSync};
ghost use Rattle.cm_disk.specs.Disk.{IsDurable};
ghost use Rattle.cm_verdict.specs.Verdict.{verdict};
ghost use Rattle.cm_verdict.specs.declared.fault.OpenFault.TheVariants as open_fault;
ghost use Rattle.cm_verdict.specs.Judging.{Judges};
ghost use Rattle.cm_verdict.specs.Standing.{FollowsVerdict};
ghost use Rattle.cm_recover.specs.Standing.{IsStanding};
ghost use Rattle.cm_recover.specs.Opened.{OpensFile, SyncsAndReads};

use crate::standing::{StandingFile, read_standing_by};
use crate::upgrading::upgrade;
use cm_commit::{Committer, NotMade, others_are_told};
use cm_disk::Disk;
use cm_front::{Front, arenas_are_of_rows};
use cm_record::words_tell_name;
use cm_verdict::{
    OpenFault, RowRecord, found_is_framed, found_is_live, judge, judge_in_threads, verdict_is_exact,
};
use std::alloc::Global;
use std::fmt::Debug;
use std::thread::Threads;
use thiserror::Error;

/// Why a file wasn't opened, and its disk.
#[derive(Debug, Drop, Error)]
#[error("{fault}")]
#[error_bound(D: Debug + Drop)]
pub struct NotOpened<D> {
    pub fault: OpenFault,
    /// What a crash may leave of it either might have been left before, or stands for the same
    /// cache.
    pub disk: D,
}

// Syncs all that the disk holds, and reads what it stands for.
fn read_synced<J, D>(judge: J, alloc: Global, disk: &mut D) -> Result<StandingFile, OpenFault>
where
    J: FnOnce(Vec<RowRecord>) -> Vec<RowRecord>,
    D: Disk,
    requires callable { J.IsAlwaysCallable judge }
    requires judges { Judges (J.post judge) }
    ensures standing { FollowsVerdict (IsStanding (D.view.contents disk.old)) result
        (verdict (D.view.contents disk.old)) }
    ensures stored { OnOk result (IsDurable (D.view.contents disk.new) (D.view.unsynced disk.new)) }
    ensures run { SyncsAndReads D.view disk.old
        disk.new (result ≡ Err open_fault.Device) }
{
    disk.sync()?;
    read_standing_by(judge, alloc, disk)
}

/// Opens the cache of a file. It returns the accepted cache and the committer of its disk, both
/// with the rows that the file stands for and the number of its last command; each loader's arena
/// has exactly the chunks that the file stands for. Opening begins with a sync, so that a crash
/// leaves exactly what was opened; reads follow. A file whose half that counts is of version 1 is
/// then upgraded: six device calls write the other half anew, as in a checkpoint, and at each
/// moment a crash leaves contents that stand for the same cache.
///
/// It returns `NotACache` and `Damaged` exactly if that is the verdict on the file's bytes,
/// `Device` if the device failed, and `NoMemory` if an allocation failed. The disk is then handed
/// back, and each image that a crash may leave is one that it might have left before the call, or
/// stands for the same cache.
pub fn open<D: Disk>(alloc: Global, disk: D) -> Result<(Front, Committer<D>), NotOpened<D>>
    ensures { OpensFile D.view disk result }
{
    open_by(|records| judge(alloc, records), alloc, disk)
}

/// Opens the cache of a file, as [`open`] does, in this many threads: one reads the rows and their
/// records, and then each judges a part of the records. What is opened, and the first damage in the
/// order of the rows, don't depend on their number.
pub fn open_in_threads<R: Threads + Sync, D: Disk>(
    rt: &R,
    alloc: Global,
    disk: D,
    threads: usize,
) -> Result<(Front, Committer<D>), NotOpened<D>>
    requires { 0 < threads }
    ensures { OpensFile D.view disk result }
{
    let judge = |records|
        requires { IsSync R.row × (0 < threads) }
    { judge_in_threads(rt, alloc, records, threads) };
    open_by(judge, alloc, disk)
}

// Opens the cache of a file, with what judges its records.
fn open_by<J, D>(
    judge: J,
    alloc: Global,
    mut disk: D,
) -> Result<(Front, Committer<D>), NotOpened<D>>
where
    J: FnOnce(Vec<RowRecord>) -> Vec<RowRecord>,
    D: Disk,
    requires callable { J.IsAlwaysCallable judge }
    requires judges { Judges (J.post judge) }
    ensures { OpensFile D.view disk result }
{
    found_is_live();
    found_is_framed();
    verdict_is_exact();
    words_tell_name();
    arenas_are_of_rows();
    others_are_told();
    let file = match read_synced(judge, alloc, &mut disk) {
        Ok(file) => file,
        Err(fault) => return Err(NotOpened { fault, disk }),
    };
    let journal = match upgrade(alloc, &mut disk, &file) {
        Ok(journal) => journal,
        Err(fault) => return Err(NotOpened { fault, disk }),
    };
    let found = file.journal;
    let Ok(front) = Front::restore(alloc, found.geometry, file.rows, found.number) else {
        return Err(NotOpened {
            fault: OpenFault::NoMemory,
            disk,
        });
    };
    front.invariant_holds();
    match Committer::new(alloc, disk, journal, file.committed, file.roots) {
        Ok(committer) => {
            committer.images();
            committer.versions();
            Ok((front, committer))
        }
        Err(NotMade { disk }) => Err(NotOpened {
            fault: OpenFault::NoMemory,
            disk,
        }),
    }
}

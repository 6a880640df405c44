//! Opens a file for a session.

ghost use Rattle.std.specs.Prelude.{◌≡◌, ◌<◌, []};
ghost use Rattle.cm_recover.specs.Opened.{OpensFile};
ghost use Rattle.cm_session.specs.Opening.{OpensSession};

use crate::laws::held_cache_begins_machine;
use crate::queue::Queue;
use crate::session::Session;
use cm_commit::Committer;
use cm_disk::Disk;
use cm_front::Front;
use cm_handover::{committed_rows_are_the_machines, opened_is_ahead};
use cm_record::words_tell_name;
use cm_recover::NotOpened;
use cm_state::contents_determine_cache;
use cm_verdict::{OpenFault, found_is_framed, found_is_live, verdict_is_exact};
use std::alloc::Global;
use std::thread::Threads;

/// Opens the cache of a file, as [`cm_recover::open`] does, for use by one thread.
///
/// The session matches the machine that begins with the cache that the file stands for. More
/// generally, if the file stands for some of a machine's commands, the session continues from
/// these, and the file isn't opened only if the device or an allocation failed. The place of a
/// group that waits is reserved before the file is read.
pub fn open<D: Disk>(alloc: Global, disk: D) -> Result<Session<D>, NotOpened<D>>
    ensures { OpensSession D.view disk result }
{
    match Queue::new(alloc) {
        Ok(queue) => session_of(queue, cm_recover::open(alloc, disk)),
        Err(_) => out_of_memory(disk),
    }
}

/// Opens the cache of a file, as [`open`] does, with this many threads that judge its records, as
/// [`cm_recover::open_in_threads`] has them.
pub fn open_in_threads<R: Threads + Sync, D: Disk>(
    rt: &R,
    alloc: Global,
    disk: D,
    threads: usize,
) -> Result<Session<D>, NotOpened<D>>
    requires { 0 < threads }
    ensures { OpensSession D.view disk result }
{
    match Queue::new(alloc) {
        Ok(queue) => session_of(queue, cm_recover::open_in_threads(rt, alloc, disk, threads)),
        Err(_) => out_of_memory(disk),
    }
}

/// Nothing was opened, and the disk is as it was.
fn out_of_memory<D: Disk>(disk: D) -> Result<Session<D>, NotOpened<D>>
    ensures { OpensSession D.view disk result }
{
    Err(NotOpened {
        fault: OpenFault::NoMemory,
        disk,
    })
}

/// A session with no group that waits, if the file was opened.
fn session_of<D: Disk>(
    queue: Queue,
    opened: Result<(Front, Committer<D>), NotOpened<D>>,
) -> Result<Session<D>, NotOpened<D>>
    requires { queue.groups.items ≡ [] }
    ensures { (disk : D) → OpensFile D.view disk opened → OpensSession D.view disk result }
{
    opened_is_ahead();
    committed_rows_are_the_machines();
    contents_determine_cache();
    found_is_live();
    found_is_framed();
    verdict_is_exact();
    words_tell_name();
    held_cache_begins_machine();
    let (front, committer) = match opened {
        Ok(opened) => opened,
        Err(not_opened) => return Err(not_opened),
    };
    front.invariant_holds();
    let sealed = committer.number();
    Ok(Session {
        front,
        committer,
        queue,
        sealed,
        has_failed: false,
    })
}

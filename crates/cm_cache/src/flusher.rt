//! The flusher's thread.

ghost use Rattle.std.specs.Prelude.{◌≡◌, true};

use crate::board::Board;
use crate::flushing::{Ended, Flushing};
use crate::naming::Naming;
use cm_disk::Disk;
use std::alloc::AllocError;
use std::sync::{Arc, Wait};
use std::thread;
use std::thread::{Promise, PromisedHandle, Threads};

/// What the thread promises: that it ends after it has received the End.
#[derive(Drop)]
pub struct Over;

impl<K: Naming, D: Disk> Promise<Ended<K, D>> for Over {
    ghost use Rattle.std.specs.Prelude.{◌≡◌, true};

    ghost kept_by = { λ _ ended. ended.over ≡ true };
}

/// The thread that stores what is sent. It ends once the End is received, and only
/// [`Cache::close`](crate::Cache::close) takes it, so it is waited for.
pub struct Flusher<K: Naming, D: Disk> {
    handle: PromisedHandle<Ended<K, D>, Over>,
}

impl<K, D> Flusher<K, D>
where
    K: Naming + Send + Sync + 'static,
    D: Disk + Drop + Send + 'static,
{
    /// Starts the thread. `Err` if it can't be started: whatever it was to use is then dropped.
    pub(crate) fn spawn<R>(
        rt: &R,
        flushing: Flushing<K, D>,
        board: Arc<Board<K>>,
    ) -> Result<Flusher<K, D>, AllocError>
    where
        R: Threads + Wait + Copy + Send + 'static,
    {
        let theirs = *rt;
        let spawned = thread::spawn_with(
            rt,
            Over,
            move || -> Ended<K, D>
                ensures { result.over ≡ true }
            { flushing.run(&theirs, &board) },
        );
        match spawned {
            Ok(handle) => Ok(Flusher { handle }),
            Err(_) => Err(AllocError),
        }
    }

    /// Waits for the thread to end.
    pub(crate) fn join<R: Threads>(self, rt: &R) -> Ended<K, D>
        ensures { result.over ≡ true }
    {
        let Flusher { handle } = self;
        handle.join(rt)
    }
}

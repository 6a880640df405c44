//! A cache that many threads use at once.

ghost use Rattle.std.specs.Prelude.{◌≡◌, ◌+◌, ◌≤◌, false, length, IfOk, IfSome};
ghost use Rattle.std.specs.List.{All, sum_by};
ghost use Rattle.std.specs.Arc.{arc_value};
ghost use Rattle.cm_record.specs.Names.{class_name_in};
ghost use Rattle.cm_group.specs.Groups.{IsRightRecord};
ghost use Rattle.cm_state.specs.Step.{AddLoader, Define, Unload, Tighten, UnloadAll};
ghost use Rattle.cm_commands.specs.Commands.{change_asked};
ghost use Rattle.cm_cache.specs.Shared.{AreNewPasses, PassState, ReportsChange, most_passes};
ghost use Rattle.cm_cache.specs.Starting.{Belongs, MayStart};
ghost use Rattle.cm_cache.specs.Closing.{LeavesBeginning, HoldsChanges};

use crate::board::Board;
use crate::flusher::Flusher;
use crate::flushing::Flushing;
use crate::handing::Handing;
use crate::naming::Naming;
use crate::new_cache::NewCache;
use crate::shared::{Pass, Shared};
use crate::storage::NewStorage;
use cm_commands::{Command, Names, Prepared, Refusal};
use cm_disk::Disk;
use cm_front::Front;
use cm_record::Record;
use cm_state::rows_tell_state;
use std::alloc::{AllocError, Global};
use std::sync::{Arc, Mutex, MutexGuard, Wait};
use std::thread::{self, Threads};

/// How often a look-up tries to take the lock, letting other threads run in between, before it
/// sleeps until the lock is free.
const LOOK_TRIES: u32 = 8;

/// A running cache, whose commands another thread stores, its [`Flusher`]. Many threads use it at
/// once.
#[derive(Drop)]
pub struct Cache<K: Naming> {
    shared: Mutex<Shared<K>>,
    board: Arc<Board<K>>,
    opened: u64,
    passes: u64,
    ghost opened_is: { opened ≡ K.base.number },
    ghost passes_are: { passes ≡ K.passes },
}

/// What a cache that ran leaves.
#[derive(Debug)]
pub struct Closed<D> {
    /// How many commands were accepted and handed over to the flusher.
    pub handed: u64,
    /// How many of these are committed, the oldest ones.
    pub committed: u64,
    /// How many were accepted through the passes that came back.
    pub of_passes: u64,
    /// How many passes didn't come back.
    pub missing: u64,
    /// The disk, as it is now.
    pub disk: D,
}

// Starts the flusher's thread, which writes on the Board. An `Err` drops both.
fn start_flusher<R, K, D>(
    rt: &R,
    alloc: Global,
    flushing: Flushing<K, D>,
    board: Board<K>,
) -> Result<(Arc<Board<K>>, Flusher<K, D>), AllocError>
where
    R: Threads + Wait + Copy + Send + 'static,
    K: Naming + Send + Sync + 'static,
    D: Disk + Drop + Send + 'static,
{
    let (board, theirs) = share_board(alloc, board)?;
    let flusher = Flusher::spawn(rt, flushing, theirs)?;
    Ok((board, flusher))
}

// The Board for two threads.
fn share_board<K: Naming>(
    alloc: Global,
    board: Board<K>,
) -> Result<(Arc<Board<K>>, Arc<Board<K>>), AllocError> {
    let board = Arc::new(alloc, board)?;
    let theirs = Arc::try_clone(&board)?;
    Ok((board, theirs))
}

impl<K: Naming> Cache<K> {
    /// Starts a cache that was just opened: its flusher, in a thread of its own, takes the
    /// storage. Returns all passes, through each of which a thread changes the cache. An `Err`
    /// drops front and storage; the file can be opened again.
    pub fn start<R, D>(
        rt: &R,
        alloc: Global,
        new: NewCache,
        front: Front,
        storage: NewStorage<D>,
    ) -> Result<(Cache<K>, Flusher<K, D>, Vec<Pass<K>>), AllocError>
    where
        R: Threads + Wait + Copy + Send + 'static,
        K: Send + Sync + 'static,
        D: Disk + Drop + Send + 'static,
        requires new { Belongs K.base K.channel K.board K.name K.parts K.passes new }
        requires opened { MayStart K.base K.failed D.view.failures front storage }
        ensures { IfOk result (λ r. AreNewPasses K.passes r.2.items) }
    {
        let NewCache {
            channel,
            board,
            ledger,
            passes: count,
        } = new;
        let opened = board.number;
        let (outgoing, incoming) = channel.named::<K>();
        let (board, poster) = board.named::<K>();
        let handing = Handing::new(front, outgoing);
        let (shared, passes) = Shared::new(alloc, handing, ledger, &board, count)?;
        let flushing = Flushing::new(storage.named::<K>(), incoming, poster);
        let (board, flusher) = start_flusher(rt, alloc, flushing, board)?;
        let cache = Cache {
            shared: Mutex::new(shared),
            board,
            opened,
            passes: count,
        };
        Ok((cache, flusher, passes))
    }

    /// Makes a loader of this name, without classes.
    ///
    /// Each changing call waits for the lock, and then, without it, until its command is stored; it
    /// returns the command's number. `Unsure` if the device failed first: the command may be there
    /// once the file is opened again. Any other refusal is one of [`Front::accept`].
    pub fn add_loader<R: Wait>(
        &self,
        rt: &R,
        pass: &mut Pass<K>,
        name: &[u8],
    ) -> Result<u64, Refusal>
        ensures { ReportsChange pass.old (AddLoader name.now) result pass.new }
    {
        self.change(rt, pass, Command::AddLoader(name))
    }

    /// Defines a class, which was prepared before, in the loader of this name.
    pub fn define<R: Wait>(
        &self,
        rt: &R,
        pass: &mut Pass<K>,
        loader: &[u8],
        class: Prepared,
    ) -> Result<u64, Refusal>
        ensures { ReportsChange pass.old (Define loader.now class) result pass.new }
    {
        self.change(rt, pass, Command::Define(loader, class))
    }

    /// Unloads the loader of this name, with all its classes.
    pub fn unload<R: Wait>(&self, rt: &R, pass: &mut Pass<K>, name: &[u8]) -> Result<u64, Refusal>
        ensures { ReportsChange pass.old (Unload name.now) result pass.new }
    {
        self.change(rt, pass, Command::Unload(name))
    }

    /// Moves the records on the last chunk of the loader of this name to a smaller chunk, or to one
    /// that lies before it; what [`Cache::find`] returns stays the same. `NoMove` if there is no
    /// such chunk.
    pub fn tighten<R: Wait>(&self, rt: &R, pass: &mut Pass<K>, name: &[u8]) -> Result<u64, Refusal>
        ensures { ReportsChange pass.old (Tighten name.now) result pass.new }
    {
        self.change(rt, pass, Command::Tighten(name))
    }

    /// Unloads the loaders of these names at once, with all their classes: all of them or none,
    /// under one number. `BadList` if there is no name, there are more than seven, or one appears
    /// twice.
    pub fn unload_all<R: Wait>(
        &self,
        rt: &R,
        pass: &mut Pass<K>,
        names: Names<'_>,
    ) -> Result<u64, Refusal>
        ensures { ReportsChange pass.old (UnloadAll names.entry) result pass.new }
    {
        self.change(rt, pass, Command::UnloadAll(names))
    }

    fn change<R: Wait>(
        &self,
        rt: &R,
        pass: &mut Pass<K>,
        command: Command<'_>,
    ) -> Result<u64, Refusal>
        ensures { ReportsChange pass.old (change_asked command.entry) result pass.new }
    {
        let seen = pass.look(&self.board);
        let held = self.shared.lock(rt).hold(rt, pass, seen, command);
        match held {
            Ok(number) => match pass.wait_for(rt, &self.board, number) {
                Ok(()) => Ok(number),
                Err(unsure) => Err(unsure),
            },
            Err(refusal) => Err(refusal),
        }
    }

    /// The record of the class of a name in the loader of a name, as accepted, whether or not it is
    /// durable; also once the cache is stopped, or the device failed. `Err` if an allocation
    /// failed. Waits only for the lock.
    pub fn find<R: Wait>(
        &self,
        rt: &R,
        loader: &[u8],
        class: &[u8],
    ) -> Result<Option<Arc<Record, Global>>, AllocError>
        ensures right { IfOk result (λ found. IfSome found (λ r. IsRightRecord (arc_value r))) }
        ensures named { IfOk result
            (λ found. IfSome found (λ r. class_name_in (arc_value r) ≡ class.now)) }
    {
        rows_tell_state();
        self.lock_to_look(rt).find(loader, class)
    }

    // Takes the lock for a look-up. To sleep and be woken takes far longer than a look-up holds the
    // lock, so other threads run a few times first.
    fn lock_to_look<R: Wait>(&self, rt: &R) -> MutexGuard<'_, Shared<K>> {
        for _ in 0..LOOK_TRIES {
            if let Some(shared) = self.shared.try_lock() {
                return shared;
            }
            thread::yield_now();
        }
        self.shared.lock(rt)
    }

    /// From now on each changing call is refused with `Closed`. Waits for the lock.
    pub fn stop<R: Wait>(&self, rt: &R) {
        self.shared.lock(rt).stop();
    }

    /// Stores all that was handed over, unless the device fails; ends the flusher, and returns the
    /// disk. Takes the passes back, and counts what was accepted through them. Waits for the
    /// flusher.
    pub fn close<R, D>(self, rt: &R, flusher: Flusher<K, D>, passes: Vec<Pass<K>>) -> Closed<D>
    where
        R: Threads + Wait,
        K: Send + Sync + 'static,
        D: Disk + Drop + Send + 'static,
        requires parts { K.parts ≡ most_passes }
        ensures order { result.committed ≤ result.handed }
        ensures shares { result.of_passes ≡ sum_by (λ (p : PassState). p.share) passes.items }
        ensures missing { result.missing + length passes.items ≡ K.passes }
        ensures passes { result.missing ≡ 0 → result.of_passes ≡ result.handed }
        ensures counted { result.of_passes ≤ result.handed }
        ensures receipts { All (λ (p : PassState).
            p.seen.receipt.number ≤ K.base.number + result.committed) passes.items }
        ensures images { LeavesBeginning K.base result.handed result.committed
            (D.view.contents result.disk) (D.view.unsynced result.disk) }
        ensures changes { HoldsChanges K.base result.handed result.committed result.missing
            passes.items (D.view.contents result.disk) (D.view.unsynced result.disk) }
        ensures whole { D.view.failures result.disk ≡ K.failed
            → (result.committed ≡ result.handed)
            × All (λ (p : PassState). p.marked ≡ false) passes.items }
    {
        let Cache {
            shared,
            board,
            opened,
            passes: count,
        } = self;
        let (outgoing, mut tally) = shared.into_inner().finish(rt, opened, count);
        let (number, mut poster, mut settled, disk) = flusher.join(rt).leave(outgoing);
        tally.take_all(&mut poster, &board, &mut settled, passes);
        let (handed, missing, of_passes) = tally.count();
        Closed {
            handed,
            committed: number - opened,
            of_passes,
            missing,
            disk,
        }
    }
}

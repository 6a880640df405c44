//! What keeps the commands of a running cache: its committer, reached by calls that end.
//!
//! A call that may wait can't be shown to return, and what it ensures holds only if it does. So a
//! function that may wait has no committer of its own, and no disk: it has a `Storage`, each call
//! of which ends and says what a crash leaves at each moment of it.

ghost use Rattle.std.specs.Prelude.{◌≡◌, ◌<◌, ◌≤◌, [], IfSome, IfNone};
ghost use Rattle.cm_guards.specs.Calls.{LeavesOnly};
ghost use Rattle.cm_commit.specs.States.{TakesGroup};
ghost use Rattle.cm_cache.specs.Storing.{IsCommittedGroup, IsLeftBroken, ShowsEither};

use crate::ends::Settled;
use crate::naming::Naming;
use crate::storing::store_group;
use cm_commit::Committer;
use cm_disk::Disk;
use cm_group::{Group, Receipt};
use std::marker::{Model, PhantomData};

/// The committer of what was opened, which belongs to no cache yet. Contracts describe it by the
/// committer.
#[derive(Drop)]
pub struct NewStorage<D: Disk> {
    committer: Committer<D>,
}

impl<D: Disk> Model for NewStorage<D> {
    ghost use Rattle.cm_commit.specs.States.{CommitterState};

    ghost Value = { CommitterState D };

    ghost view = { λ s. s.committer };
}

impl<D: Disk> NewStorage<D> {
    /// Of this committer.
    pub fn new(committer: Committer<D>) -> NewStorage<D>
        ensures { result ≡ committer }
    {
        NewStorage { committer }
    }

    /// The number of the last command that is committed.
    pub fn number(&self) -> u64
        ensures { result ≡ self.now.number }
    {
        self.committer.number()
    }

    /// The storage of the cache that K names.
    pub(crate) fn named<K: Naming>(self) -> Storage<K, D>
        ensures { result ≡ self }
    {
        let NewStorage { committer } = self;
        Storage {
            committer,
            of: PhantomData,
        }
    }
}

/// The committer of a running cache. Contracts describe it by the committer.
#[derive(Drop)]
pub struct Storage<K: Naming, D: Disk> {
    committer: Committer<D>,
    of: PhantomData<K>,
}

impl<K: Naming, D: Disk> Model for Storage<K, D> {
    ghost use Rattle.cm_commit.specs.States.{CommitterState};

    ghost Value = { CommitterState D };

    ghost view = { λ s. s.committer };
}

impl<K: Naming, D: Disk> Storage<K, D> {
    /// Stores a group that may come next. `None` if the device failed: then it is broken.
    ///
    /// At each moment of the call a crash leaves what was committed before, or that with the whole
    /// group.
    pub fn store_next(&mut self, group: Group) -> Option<Receipt>
        requires { TakesGroup self.old group }
        ensures stored { IfSome result
            (λ r. IsCommittedGroup self.old group r.number self.new) }
        ensures left { IfNone result (IsLeftBroken self.old group self.new) }
        ensures any_moment { LeavesOnly D.view self.old.disk self.new.disk
            (ShowsEither self.old group) }
        ensures later { D.view.failures self.old.disk ≤ D.view.failures self.new.disk }
        ensures cause { IfNone result (D.view.failures self.old.disk < D.view.failures
            self.new.disk) }
    {
        store_group(&mut self.committer, group)
    }

    /// The committer, as it is now.
    pub fn committer(&self) -> &Committer<D>
        ensures { result.now ≡ self.now }
    {
        &self.committer
    }

    /// The disk, as it is now, once both ends of the cache's channel are in one thread: only
    /// [`Cache::close`](crate::Cache::close) brings them together.
    pub fn into_disk(self, _settled: &Settled<K>) -> D
        ensures { result ≡ self.disk }
    {
        let Storage { committer, .. } = self;
        committer.into_disk()
    }
}

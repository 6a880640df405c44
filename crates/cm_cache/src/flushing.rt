//! Stores what is received, group by group.

ghost use Rattle.std.specs.Prelude.{◌≡◌, ◌-◌, ◌≤◌, ◌++◌, [], true, false, None, List, IfErr};
ghost use Rattle.cm_guards.specs.Guards.{EachImage};
ghost use Rattle.cm_guards.specs.Calls.{LeavesOnly};
ghost use Rattle.cm_cache.specs.Channel.{entries_of, number_sent};
ghost use Rattle.cm_cache.specs.Flushing.{HasCommitted, IsEnded, OnlyReceives};
ghost use Rattle.cm_cache.specs.Flushing.{disk_after, posted_after, received_after};
ghost use Rattle.cm_cache.specs.Closing.{ShowsBeginning, ShowsPosted};
ghost use Rattle.cm_handover.specs.Ahead.{AllFollow};

use crate::board::{Board, Poster};
use crate::channel::Message;
use crate::ends::{Incoming, Outgoing, Settled};
use crate::naming::Naming;
use crate::storage::Storage;
use cm_disk::Disk;
use cm_group::Group;
use cm_handover::groups_may_follow;
use std::marker::Model;
use std::sync::Wait;
use std::thread;

/// How often the flusher lets others run before it joins what they sent.
const YIELDS: u32 = 3;

/// Stores what it receives, in order, and writes on the Board how far it has come.
///
/// Contracts describe it by its committer, what was received, what the Board says, and the groups
/// that wait.
#[derive(Drop)]
pub struct Flushing<K: Naming, D: Disk> {
    storage: Storage<K, D>,
    incoming: Incoming<K>,
    poster: Poster<K>,
    // the group that is stored next, and one that came after it and couldn't join it
    next: Option<Group>,
    behind: Option<Group>,
    over: bool,
    // whether the group that was stored last had several commands, whose threads may send more
    several: bool,
}

impl<K: Naming, D: Disk> Model for Flushing<K, D> {
    ghost use Rattle.cm_cache.specs.Flushing.{FlushingState, IsFlushing, flushing_of};

    ghost Value = { FlushingState D };

    ghost view = { λ f. flushing_of f.storage f.incoming f.poster f.next f.behind f.over };

    ghost invariant = { λ f. IsFlushing K.base K.failed D.view.failures
        (flushing_of f.storage f.incoming f.poster f.next f.behind f.over) };
}

/// What is left once nothing more is stored: the End was received, or the device failed.
///
/// Contracts describe it by the committer, what was received, and what the Board says.
#[derive(Drop)]
pub struct Ended<K: Naming, D: Disk> {
    storage: Storage<K, D>,
    incoming: Incoming<K>,
    poster: Poster<K>,
    over: bool,
}

impl<K: Naming, D: Disk> Model for Ended<K, D> {
    ghost use Rattle.cm_cache.specs.Flushing.{EndedState, IsEnded, ended_of};

    ghost Value = { EndedState D };

    ghost view = { λ e. ended_of e.storage e.incoming e.poster e.over };

    ghost invariant = { λ e. IsEnded K.base K.failed D.view.failures
        (ended_of e.storage e.incoming e.poster e.over) };
}

impl<K: Naming, D: Disk> Flushing<K, D> {
    /// The flusher for the storage of what was opened, a channel over which nothing was received,
    /// and a Board that says so.
    pub fn new(storage: Storage<K, D>, incoming: Incoming<K>, poster: Poster<K>) -> Flushing<K, D>
        requires at { HasCommitted K.base [] storage }
        requires sound { storage.broken ≡ false }
        requires idle { storage.underway ≡ None }
        requires received { incoming ≡ [] }
        requires says { poster
            ≡ record { receipt = record { number = storage.number }; broken = false } }
        requires later { K.failed ≤ D.view.failures storage.disk }
        ensures { (result.committer ≡ storage) × (result.over ≡ false) }
    {
        Flushing {
            storage,
            incoming,
            poster,
            next: None,
            behind: None,
            over: false,
            several: false,
        }
    }

    /// Takes the next group to be stored. Waits for one, unless the End came.
    fn fetch<R: Wait>(&mut self, rt: &R)
        ensures { OnlyReceives self.old self.new }
    {
        if self.next.is_some() {
            return;
        }
        if self.behind.is_some() {
            self.next = self.behind.take();
            return;
        }
        if self.over {
            return;
        }
        match self.incoming.receive(rt) {
            Message::Group(group) => self.next = Some(group),
            Message::End => self.over = true,
        }
    }

    /// Joins what was received since to the group that is stored next, as far as it continues and
    /// has room. Waits for nobody, but lets those send first whose commands were just stored, if
    /// there are several: then one group takes more of them.
    fn join<R: Wait>(&mut self, rt: &R)
        ensures { OnlyReceives self.old self.new }
    {
        if self.several {
            let_others_run();
        }
        for _ in rt.forever() {
            if !self.join_one(rt) {
                return;
            }
        }
    }

    /// The same with one group. Returns `false` if none was joined.
    fn join_one<R: Wait>(&mut self, rt: &R) -> bool
        ensures { OnlyReceives self.old self.new }
    {
        groups_may_follow();
        if self.over || self.behind.is_some() {
            return false;
        }
        let Some(mut next) = self.next.take() else {
            return false;
        };
        match self.incoming.receive_now(rt) {
            None => {
                self.next = Some(next);
                false
            }
            Some(Message::End) => {
                self.next = Some(next);
                self.over = true;
                false
            }
            Some(Message::Group(group)) => match next.add(group) {
                Ok(()) => {
                    self.next = Some(next);
                    true
                }
                Err(back) => {
                    self.next = Some(next);
                    self.behind = Some(back);
                    false
                }
            },
        }
    }

    /// Stores the next group, and writes its receipt on the Board. If the device fails, that is
    /// written, and nothing more is stored.
    ///
    /// At each moment of the call a crash leaves what was opened with a beginning of what was
    /// received, with all commands that the Board says are durable. [`Flushing::images`] says so of
    /// the moments between two calls.
    pub fn store<R: Wait>(self, rt: &R, board: &Board<K>) -> Result<Flushing<K, D>, Ended<K, D>>
        ensures broken { IfErr result (λ e. e.committer.broken ≡ true) }
        ensures received { received_after result ≡ self.received }
        ensures later { self.posted.receipt.number ≤ posted_after result }
        ensures any_moment { LeavesOnly D.view self.committer.disk (disk_after result)
            (ShowsPosted K.base self.received self.posted) }
    {
        groups_may_follow();
        self.images();
        let Flushing {
            mut storage,
            incoming,
            mut poster,
            next,
            behind,
            over,
            several,
        } = self;
        let Some(group) = next else {
            return Ok(Flushing {
                storage,
                incoming,
                poster,
                next: None,
                behind,
                over,
                several,
            });
        };
        let several = group.count() > 1;
        match storage.store_next(group) {
            Some(_) => {
                poster.post(rt, board, storage.committer());
                Ok(Flushing {
                    storage,
                    incoming,
                    poster,
                    next: None,
                    behind,
                    over,
                    several,
                })
            }
            None => {
                poster.post_broken(rt, board);
                drop(behind);
                Err(Ended {
                    storage,
                    incoming,
                    poster,
                    over,
                })
            }
        }
    }

    /// Does nothing: its clause says what a crash leaves now. That is what was opened with a
    /// beginning of what was received, with all commands that the Board says are durable.
    pub fn images(&self)
        ensures { EachImage (D.view.contents self.now.committer.disk)
            (D.view.unsynced self.now.committer.disk)
            (ShowsPosted K.base self.now.received self.now.posted) }
    {
        self.storage.committer().images();
    }

    /// Whether the End came and all that was received is durable.
    fn is_done(&self) -> bool
        ensures { result ≡ true
            → (self.now.over ≡ true) × (self.now.next ≡ None) × (self.now.behind ≡ None) }
    {
        self.over && self.next.is_none() && self.behind.is_none()
    }

    /// Ends the storing, once all is durable.
    fn end(self) -> Ended<K, D>
        requires over { self.over ≡ true }
        requires none { (self.next ≡ None) × (self.behind ≡ None) }
        ensures over { result.over ≡ true }
        ensures committer { result.committer ≡ self.committer }
        ensures received { result.received ≡ self.received }
    {
        let Flushing {
            storage,
            incoming,
            poster,
            next,
            behind,
            over,
            ..
        } = self;
        drop(next);
        drop(behind);
        Ended {
            storage,
            incoming,
            poster,
            over,
        }
    }

    /// Stores all that is received, until the End is received; after a failure of the device it
    /// only receives. Waits for what is sent.
    ///
    /// At each moment of the call a crash leaves what was opened with a beginning of what is
    /// received by its end, with all commands that the Board said are durable when it began. For
    /// each group that it stores, [`Flushing::store`] says so of what the Board says then.
    pub fn run<R: Wait>(self, rt: &R, board: &Board<K>) -> Ended<K, D>
        ensures over { result.over ≡ true }
        ensures any_moment { LeavesOnly D.view self.committer.disk result.committer.disk
            (ShowsPosted K.base result.received self.posted) }
    {
        let mut flushing = self;
        flushing.images();
        for _ in rt.forever() {
            flushing.fetch(rt);
            if flushing.is_done() {
                return flushing.end();
            }
            flushing.join(rt);
            match flushing.store(rt, board) {
                Ok(stored) => flushing = stored,
                Err(mut ended) => {
                    ended.drain(rt);
                    return ended;
                }
            }
        }
        unreachable!()
    }
}

fn let_others_run() {
    for _ in 0..YIELDS {
        thread::yield_now();
    }
}

impl<K: Naming, D: Disk> Ended<K, D> {
    /// Receives and drops, until the End is received.
    fn drain<R: Wait>(&mut self, rt: &R)
        requires { self.old.committer.broken ≡ true }
        ensures over { self.new.over ≡ true }
        ensures committer { self.new.committer ≡ self.old.committer }
        ensures received { (more : List Message)
            × (self.new.received ≡ self.old.received ++ more) }
    {
        for _ in rt.forever() {
            if self.is_over() {
                return;
            }
            self.drop_one(rt);
        }
        unreachable!()
    }

    fn is_over(&self) -> bool
        ensures { result ≡ self.now.over }
    {
        self.over
    }

    fn drop_one<R: Wait>(&mut self, rt: &R)
        requires broken { self.old.committer.broken ≡ true }
        requires going { self.old.over ≡ false }
        ensures committer { self.new.committer ≡ self.old.committer }
        ensures received { (more : List Message)
            × (self.new.received ≡ self.old.received ++ more) }
    {
        match self.incoming.receive(rt) {
            Message::Group(group) => drop(group),
            Message::End => self.over = true,
        }
    }

    /// Returns the disk, once both ends of the channel are in one thread: with the number of the
    /// last command that is committed, the poster of the Board, and what stays of the channel.
    /// Whatever a crash leaves of the disk holds a beginning of what was sent.
    pub(crate) fn leave(self, outgoing: Outgoing<K>) -> (u64, Poster<K>, Settled<K>, D)
        requires over { self.over ≡ true }
        ensures least { K.base.number ≤ result.0 }
        ensures most { result.0 ≤ number_sent K.base outgoing.sent }
        ensures follow { AllFollow K.base.sizes K.base.rows K.base.number
            (entries_of outgoing.sent) }
        ensures settled { result.2 ≡ record { sent = outgoing.sent; owned = [] } }
        ensures images { EachImage (D.view.contents result.3) (D.view.unsynced result.3)
            (ShowsBeginning K.base (entries_of outgoing.sent) (result.0 - K.base.number)) }
        ensures says { result.1.receipt.number ≡ result.0 }
        ensures whole { D.view.failures result.3 ≡ K.failed
            → (result.0 ≡ number_sent K.base outgoing.sent) × (result.1.broken ≡ false) }
    {
        let Ended {
            storage,
            incoming,
            poster,
            ..
        } = self;
        let settled = outgoing.settle(incoming);
        let committer = storage.committer();
        committer.images();
        let number = committer.number();
        let disk = storage.into_disk(&settled);
        (number, poster, settled, disk)
    }

    /// Does nothing: its clause says what a crash leaves now, as [`Flushing::images`] does.
    pub fn images(&self)
        ensures { EachImage (D.view.contents self.now.committer.disk)
            (D.view.unsynced self.now.committer.disk)
            (ShowsPosted K.base self.now.received self.now.posted) }
    {
        self.storage.committer().images();
    }

    /// Does nothing: its clauses say what was received and stored.
    pub fn state(&self)
        ensures ended { IsEnded K.base K.failed D.view.failures self.now }
    {
        let _over = self.over;
    }
}

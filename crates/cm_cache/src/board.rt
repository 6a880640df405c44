//! The Board, on which the flusher writes how far commands are durable.

ghost use Rattle.std.specs.Prelude.{◌≡◌, ◌≤◌, ◌⊎◌, ◌++◌, ◌∷◌, [], true, false, List, IfOk};
ghost use Rattle.cm_group.specs.Groups.{Carried};
ghost use Rattle.cm_guards.specs.Guards.{EachImage};
ghost use Rattle.cm_cache.specs.declared.board_view.Load.TheVariants as load;
ghost use Rattle.cm_cache.specs.Board.{poster as poster_view, ShowsFrom, looked_at};
ghost use Rattle.cm_cache.specs.Board.{HasLookedSince};
ghost use Rattle.cm_cache.specs.Flushing.{HasCommitted};

use crate::board_rule::{
    BoardRule, Compares, Enters, Hears, PostsBroken, PostsNumber, SeesBroken, SeesNumber,
};
use crate::board_view::{BoardView, Seen};
use crate::lanes::Lanes;
use crate::naming::Naming;
use atomic_table::{Seat, Table};
use cm_commit::Committer;
use cm_disk::Disk;
use cm_group::Receipt;
use std::alloc::{AllocError, Global};
use std::marker::{Model, PhantomData};
use std::sync::Wait;

/// The word with the number of the newest receipt.
const NUMBER: usize = 0;

/// The word that says whether the device failed.
const BROKEN: usize = 1;

/// A new Board, which belongs to no cache yet.
#[derive(Drop)]
pub struct NewBoard {
    pub(crate) number: u64,
    table: Table<(), BoardView, u64, BoardRule, Global>,
    seat: Seat<(), BoardView>,
    lanes: Lanes,
    ghost has_words: { table.shared.table_id.words ≡ 2 },
    ghost has_seat: { seat.table_id ≡ table.shared.table_id },
    ghost is_new: { seat.me ≡ (poster_view number, []) },
}

impl NewBoard {
    /// A Board that says that all commands up to this number are durable, and that nothing failed.
    pub fn new(alloc: Global, number: u64) -> Result<NewBoard, AllocError>
        ensures { IfOk result (λ b. b.number ≡ number) }
    {
        let (table, seat) = Table::of_words(alloc, &[number, 0], &number)?;
        Ok(NewBoard {
            number,
            table,
            seat,
            lanes: Lanes::new(alloc)?,
        })
    }

    /// The Board of the cache that K names, and the right to write on it.
    pub fn named<K: Naming>(self) -> (Board<K>, Poster<K>)
        requires { self.table.shared.table_id ≡ K.board }
        ensures { result.1 ≡ record { receipt = record { number = self.number }; broken = false } }
    {
        let NewBoard {
            number,
            table,
            seat,
            lanes,
        } = self;
        let board = Board {
            table,
            lanes,
            of: PhantomData,
        };
        let poster = Poster {
            seat,
            number,
            of: PhantomData,
        };
        (board, poster)
    }
}

/// Says up to which number commands are durable, and whether the device failed. What it says never
/// goes back.
#[derive(Drop)]
pub struct Board<K: Naming> {
    table: Table<(), BoardView, u64, BoardRule, Global>,
    lanes: Lanes,
    of: PhantomData<K>,
    ghost is_named: { table.shared.table_id ≡ K.board },
    ghost has_words: { table.shared.table_id.words ≡ 2 },
}

impl<K: Naming> Board<K> {
    /// A new reader of the Board.
    pub fn reader(&self) -> Reader<K>
        ensures { result.seen.broken ≡ false }
    {
        let (_, seat) = self.table.shared.load_new_seat::<Enters>(NUMBER);
        Reader {
            seat,
            of: PhantomData,
        }
    }
}

/// The right to write on the Board. Contracts describe it by what the Board says.
#[derive(Drop)]
pub struct Poster<K: Naming> {
    seat: Seat<(), BoardView>,
    // what the Board says
    number: u64,
    of: PhantomData<K>,
}

impl<K: Naming> Model for Poster<K> {
    ghost use Rattle.std.specs.Prelude.{◌≡◌, [], true};
    ghost use Rattle.cm_cache.specs.declared.board_view.Seen.{Seen};
    ghost use Rattle.cm_cache.specs.Board.{seen_by};

    ghost Value = { Seen };

    ghost view = { λ p. seen_by p.seat.me.0 };

    ghost invariant = { λ p.
        (p.seat.table_id ≡ K.board) × (p.seat.me.0.posts ≡ true) × (p.seat.me.1 ≡ [])
        × (p.seat.me.0.number ≡ p.number) };
}

impl<K: Naming> Poster<K> {
    /// Writes that all commands up to the committer's number are durable, and wakes the readers
    /// that wait for them. These are commands of this cache, and whatever a crash leaves of the
    /// committer's disk from then on has them.
    pub fn post<R: Wait, D: Disk>(&mut self, rt: &R, board: &Board<K>, committer: &Committer<D>)
        requires later { self.old.receipt.number ≤ committer.now.number }
        requires has { (done : List Carried) × HasCommitted K.base done committer.now }
        ensures says { self.new ≡ record {
          receipt = record { number = committer.now.number };
          broken = self.old.broken;
        } }
        ensures stored { EachImage (D.view.contents committer.now.disk)
            (D.view.unsynced committer.now.disk)
            (ShowsFrom committer.now.sizes self.new.receipt.number) }
    {
        committer.images();
        let (old, new) = (self.number, committer.number());
        self.write_number(board, new);
        board.lanes.wake(rt, old, new);
    }

    /// Writes that the device failed, and wakes the readers.
    pub fn post_broken<R: Wait>(&mut self, rt: &R, board: &Board<K>)
        ensures { self.new ≡ record { receipt = self.old.receipt; broken = true } }
    {
        self.write_broken(board);
        board.lanes.wake_all(rt);
    }

    fn write_number(&mut self, board: &Board<K>, number: u64)
        requires { self.old.receipt.number ≤ number }
        ensures { self.new ≡ record {
          receipt = record { number = number };
          broken = self.old.broken;
        } }
    {
        let shared = &board.table.shared;
        shared.store::<PostsNumber>(&mut self.seat, NUMBER, number);
        self.number = number;
    }

    fn write_broken(&mut self, board: &Board<K>)
        ensures { self.new ≡ record { receipt = self.old.receipt; broken = true } }
    {
        let shared = &board.table.shared;
        shared.store::<PostsBroken>(&mut self.seat, BROKEN, 1);
    }

    /// Shows that a reader has seen no more than what was written.
    pub fn compare(&mut self, board: &Board<K>, reader: Reader<K>)
        ensures same { self.new ≡ self.old }
        ensures number { reader.seen.receipt.number ≤ self.old.receipt.number }
        ensures broken { reader.seen.broken ≡ true → self.old.broken ≡ true }
    {
        let Reader { seat, .. } = reader;
        let shared = &board.table.shared;
        shared.join_seat::<Hears>(&mut self.seat, seat);
        shared.load::<Compares>(&mut self.seat, NUMBER);
    }
}

/// A reader of the Board. Contracts describe it by what it has seen, which the Board says or said,
/// and by all that it loaded: only a load changes these.
#[derive(Drop)]
pub struct Reader<K: Naming> {
    seat: Seat<(), BoardView>,
    of: PhantomData<K>,
}

impl<K: Naming> Model for Reader<K> {
    ghost use Rattle.std.specs.Prelude.{◌≡◌, [], false};
    ghost use Rattle.cm_cache.specs.Board.{ReaderState, reader_of};

    ghost Value = { ReaderState };

    ghost view = { λ r. reader_of r.seat.me.0 };

    ghost invariant = { λ r.
        (r.seat.table_id ≡ K.board) × (r.seat.me.0.posts ≡ false) × (r.seat.me.1 ≡ []) };
}

impl<K: Naming> Reader<K> {
    /// Reads the Board: the flag first, and then the number. Waits for nobody.
    pub fn look(&mut self, board: &Board<K>) -> Seen
        ensures seen { self.new ≡ looked_at self.old result }
        ensures number { self.old.seen.receipt.number ≤ result.receipt.number }
        ensures broken { self.old.seen.broken ≡ true → result.broken ≡ true }
    {
        // Once the flag is set, the number that is read next is the last one.
        let broken = self.read_broken(board);
        let number = self.read_number(board);
        Seen {
            receipt: Receipt { number },
            broken,
        }
    }

    fn read_number(&mut self, board: &Board<K>) -> u64
        ensures seen { self.new ≡ record {
          seen = record { receipt = record { number = result }; broken = self.old.seen.broken };
          loads = self.old.loads ++ load.Number result ∷ [];
        } }
        ensures number { self.old.seen.receipt.number ≤ result }
    {
        let shared = &board.table.shared;
        shared.load::<SeesNumber>(&mut self.seat, NUMBER)
    }

    fn read_broken(&mut self, board: &Board<K>) -> bool
        ensures seen { self.new ≡ record {
          seen = record { receipt = self.old.seen.receipt; broken = result };
          loads = self.old.loads ++ load.Broken result ∷ [];
        } }
        ensures broken { self.old.seen.broken ≡ true → result ≡ true }
    {
        let shared = &board.table.shared;
        shared.load::<SeesBroken>(&mut self.seat, BROKEN) != 0
    }

    /// Waits until the Board says that all commands up to this number are durable, or that the
    /// device failed. Takes a lock of the Board's own, and no other.
    pub fn wait_for<R: Wait>(&mut self, rt: &R, board: &Board<K>, number: u64) -> Seen
        ensures seen { self.new.seen ≡ result }
        ensures looked { HasLookedSince self.old.loads result self.new.loads }
        ensures later { self.old.seen.receipt.number ≤ result.receipt.number }
        ensures broken { self.old.seen.broken ≡ true → result.broken ≡ true }
        ensures news { (number ≤ result.receipt.number) ⊎ (result.broken ≡ true) }
    {
        let lane = board.lanes.lane(number);
        let mut guard = lane.waiting.lock(rt);
        for _ in rt.forever() {
            let seen = self.look(board);
            if seen.receipt.number >= number || seen.broken {
                return seen;
            }
            guard = lane.posted.wait(rt, guard);
        }
        unreachable!()
    }
}

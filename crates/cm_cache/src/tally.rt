//! Counts what was accepted, as the passes come back.

ghost use Rattle.std.specs.Prelude.{◌≡◌, ◌+◌, ◌≤◌, ◌++◌, true, length};
ghost use Rattle.cm_cache.specs.Shared.{most_passes, numbers_of};
ghost use Rattle.cm_cache.specs.Channel.{entries_of, AreApart};
ghost use Rattle.cm_cache.specs.Handing.{AreHanded};
ghost use Rattle.cm_cache.specs.Closing.{AreTaken};

use crate::board::{Board, Poster};
use crate::ends::Settled;
use crate::naming::Naming;
use crate::shared::Pass;
use std::marker::Model;
use std::sync::ledger::{Book, Share};

/// The book of a cache that is closed, with the shares of the passes that came back. Contracts
/// describe it by how many commands were handed over, how many passes are missing, and how many
/// commands were accepted through the others.
#[derive(Drop)]
pub struct Tally<K: Naming> {
    book: Book<K>,
    all: Share<K>,
    handed: u64,
    missing: u64,
    of_passes: u64,
}

impl<K: Naming> Model for Tally<K> {
    ghost use Rattle.std.specs.Prelude.{◌≡◌, ◌+◌};
    ghost use Rattle.cm_cache.specs.Closing.{TallyState};
    ghost use Rattle.cm_cache.specs.Shared.{most_passes};

    ghost Value = { TallyState };

    ghost view = { λ t.
        record { handed = t.handed; missing = t.missing; of_passes = t.of_passes } };

    ghost invariant = { λ t.
        (t.book.total ≡ t.handed) × (t.all.parts + t.missing ≡ most_passes)
        × (t.all.amount ≡ t.of_passes) };
}

impl<K: Naming> Tally<K> {
    /// The tally of this book, with the share that no pass took.
    pub(crate) fn new(book: Book<K>, rest: Share<K>, handed: u64, made: u64) -> Tally<K>
        requires handed { book.total ≡ handed }
        requires made { rest.parts + made ≡ most_passes }
        requires rest { rest.amount ≡ 0 }
        ensures { result ≡ record { handed = handed; missing = made; of_passes = 0 } }
    {
        Tally {
            book,
            all: rest,
            handed,
            missing: made,
            of_passes: 0,
        }
    }

    /// Counts the commands of a pass that comes back, and shows that it has seen no more than what
    /// the Board says, that all its changes were sent, and that their numbers are no other pass's.
    fn take(
        &mut self,
        poster: &mut Poster<K>,
        board: &Board<K>,
        settled: &mut Settled<K>,
        pass: Pass<K>,
    )
        requires parts { K.parts ≡ most_passes }
        ensures handed { self.new.handed ≡ self.old.handed }
        ensures missing { self.new.missing + 1 ≡ self.old.missing }
        ensures of_passes { self.new.of_passes ≡ self.old.of_passes + pass.share }
        ensures poster { poster.new ≡ poster.old }
        ensures seen { pass.seen.receipt.number ≤ poster.old.receipt.number }
        ensures marked { pass.marked ≡ true → poster.old.broken ≡ true }
        ensures settled { settled.new ≡ record {
          sent = settled.old.sent;
          owned = settled.old.owned ++ numbers_of pass.changes;
        } }
        ensures apart { AreApart settled.new.owned }
        ensures counted { length pass.changes ≡ pass.share }
        ensures changes { AreHanded K.base (entries_of settled.old.sent) pass.changes }
    {
        let (share, count, reader, witness) = pass.into_parts();
        self.add(share, count);
        poster.compare(board, reader);
        settled.hear(witness);
    }

    fn add(&mut self, share: Share<K>, count: u64)
        requires parts { K.parts ≡ most_passes }
        requires one { share.parts ≡ 1 }
        requires count { share.amount ≡ count }
        ensures handed { self.new.handed ≡ self.old.handed }
        ensures missing { self.new.missing + 1 ≡ self.old.missing }
        ensures of_passes { self.new.of_passes ≡ self.old.of_passes + count }
    {
        self.all.merge(share);
        self.book.audit(&mut self.all); // so no more is counted than was handed over
        self.missing -= 1;
        self.of_passes += count;
    }

    /// The same with all passes.
    pub(crate) fn take_all(
        &mut self,
        poster: &mut Poster<K>,
        board: &Board<K>,
        settled: &mut Settled<K>,
        passes: Vec<Pass<K>>,
    )
        requires parts { K.parts ≡ most_passes }
        ensures { AreTaken K.base self.old poster.old settled.old passes.items
            self.new poster.new settled.new }
    {
        for pass in passes {
            self.take(poster, board, settled, pass);
        }
    }

    /// How many commands were handed over, how many passes are missing, and how many commands were
    /// accepted through the others: all, if none is missing.
    pub(crate) fn count(mut self) -> (u64, u64, u64)
        requires parts { K.parts ≡ most_passes }
        ensures handed { result.0 ≡ self.handed }
        ensures missing { result.1 ≡ self.missing }
        ensures of_passes { result.2 ≡ self.of_passes }
        ensures most { self.of_passes ≤ self.handed }
        ensures all { self.missing ≡ 0 → self.of_passes ≡ self.handed }
    {
        self.book.audit(&mut self.all);
        (self.handed, self.missing, self.of_passes)
    }
}

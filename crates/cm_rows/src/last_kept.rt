//! What is kept of the classes on a loader's last chunk.

ghost use Rattle.std.specs.Prelude.{◌≡◌, ◌<◌, ◌++◌, ◌∷◌, [], MatchOption, IfSome, length};
ghost use Rattle.cm_layout.specs.Rows.{kept_on};
ghost use Rattle.cm_rows.specs.Links.{is_on, rows_to, ComesBack, LinksBack, AreLinked};

use crate::live_loader::LastChunk;
use cm_index::BookSlot;
use cm_layout::Row;
use cm_pool::Chunk;
use std::marker::Model;

/// What is kept of the classes on a loader's last chunk, from the newest back to the oldest.
/// Contracts see the list of what is left, in the order of the rows.
///
/// The rows are found by their links, and only as many as make up the words in use on the chunk: no
/// other row of the loader is read.
#[derive(Drop)]
pub struct LastKept<'a, P> {
    slots: &'a [BookSlot<Row<P>>],
    before: &'a [Option<u32>],
    next: Option<u32>,
    left: LastChunk,
}

impl<'a, P> Model for LastKept<'a, P> {
    ghost use Rattle.std.specs.Prelude.{List};
    ghost use Rattle.cm_layout.specs.Rows.{kept_on};
    ghost use Rattle.cm_rows.specs.Links.{rows_to, LinksBack};

    ghost Value = { List P };

    ghost view = { λ k. kept_on k.left.chunk (rows_to k.next k.slots.now) };

    ghost invariant = { λ k. LinksBack k.slots.now k.before.now k.left.chunk k.next k.left.used };
}

impl<'a, P> LastKept<'a, P> {
    /// All that is kept there, given where the loader's newest row is.
    pub(crate) fn from_newest(
        slots: &'a [BookSlot<Row<P>>],
        before: &'a [Option<u32>],
        newest: Option<u32>,
        last: LastChunk,
    ) -> LastKept<'a, P>
        requires { LinksBack slots.now before.now last.chunk newest last.used }
        ensures { result ≡ kept_on last.chunk (rows_to newest slots.now) }
    {
        LastKept {
            slots,
            before,
            next: newest,
            left: last,
        }
    }

    /// What is kept of the newest class that is left, or `None` if none is left.
    pub fn next(&mut self) -> Option<&'a P>
        ensures { MatchOption result (self.old ≡ [])
            (λ kept. self.old ≡ self.new ++ kept.now ∷ []) }
    {
        if self.left.used == 0 {
            return None;
        }
        let at = newest_on(self.slots, self.before, self.next, self.left)?;
        let Row::Class(row, kept) = &self.slots[at].item else {
            return None;
        };
        self.next = self.before[at];
        self.left.used -= row.place.words;
        Some(kept)
    }
}

// Whether a row is that of a class on a chunk.
fn is_on<P>(row: &Row<P>, chunk: &Chunk) -> bool
    ensures { result ≡ is_on chunk.now row.now }
{
    match row {
        Row::Loader(_) => false,
        Row::Class(row, _) => row.place.chunk == *chunk,
    }
}

// Where the newest row on a chunk is, from a row of its loader backwards.
fn newest_on<P>(
    slots: &[BookSlot<Row<P>>],
    before: &[Option<u32>],
    from: Option<u32>,
    last: LastChunk,
) -> Option<usize>
    requires { LinksBack slots.now before.now last.chunk from last.used }
    ensures found { MatchOption result (kept_on last.chunk (rows_to from slots.now) ≡ [])
        (ComesBack last.chunk slots.now from) }
    ensures within { IfSome result (λ at. at < length slots.now) }
    ensures beside { IfSome result (λ at. at < length before.now) }
{
    let mut next = from;
    while let Some(place) = next {
        let at = place as usize;
        if is_on(&slots[at].item, &last.chunk) {
            return Some(at);
        }
        next = before[at];
    }
    None
}

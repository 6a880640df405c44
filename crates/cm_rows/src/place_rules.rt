//! The rules on the place of a class's record that concern no other row, or only one.

ghost use Rattle.std.specs.Prelude.{◌≡◌, ◌+◌, ◌&&◌, ◌↔◌, IsTrue, Some, MatchBool, nat_le};
ghost use Rattle.cm_pool.specs.Chunks.{chunk_size, same_chunk};
ghost use Rattle.cm_pool.specs.FreeSpace.{IsFreeChunk};
ghost use Rattle.cm_layout.specs.Rules.{is_chunk};
ghost use Rattle.cm_rows.specs.Held.{TakesPlace, HasNoPlace};

use crate::live_loader::LastChunk;
use cm_layout::Move;
use cm_pool::{Chunk, Geometry, Place, Pool, giving_back_restores, held_chunks_come_and_go};

/// Whether a region of these sizes can have the chunk.
pub fn is_chunk(geometry: Geometry, chunk: &Chunk) -> bool
    ensures { result ≡ is_chunk geometry chunk.now }
{
    chunk.is_within(geometry)
}

/// Whether the words are inside a chunk that the region can have, and at least one.
pub fn is_inside(geometry: Geometry, place: &Place) -> bool
    ensures { result ≡ (is_chunk geometry place.now.chunk && nat_le 1 place.now.words
        && nat_le (place.now.offset + place.now.words) (chunk_size place.now.chunk.order)) }
{
    is_chunk(geometry, &place.chunk) && place.is_inside()
}

/// Takes the place of a class's record: after the last record on its loader's last chunk, or at the
/// front of a free chunk. Returns false, and changes nothing, if it is neither.
pub fn take_place(last: Option<LastChunk>, place: &Place, pool: &mut Pool) -> bool
    ensures { MatchBool result (TakesPlace last place.now pool.old pool.new)
        (HasNoPlace last place.now pool.old pool.new) }
{
    if is_on_top(last, place) {
        return true;
    }
    place.offset == 0 && pool.take(&place.chunk)
}

/// Whether the pool has a chunk, with all of its words free.
pub fn is_free(pool: &mut Pool, chunk: &Chunk) -> bool
    ensures free { IsTrue result ↔ IsFreeChunk pool.old chunk.now }
    ensures same { pool.new ≡ pool.old }
{
    let is_free = pool.take(chunk);
    if is_free {
        held_chunks_come_and_go();
        giving_back_restores();
        pool.give(*chunk);
    }
    is_free
}

// Whether the place is the next one on a loader's last chunk.
fn is_on_top(last: Option<LastChunk>, place: &Place) -> bool
    ensures { IsTrue result
        ↔ (last ≡ Some (record { chunk = place.now.chunk; used = place.now.offset })) }
{
    match last {
        Some(last) => last.chunk == place.chunk && last.used == place.offset,
        None => false,
    }
}

/// Whether the records on a loader's last chunk are those of a move, and have room on its new
/// chunk.
pub fn has_room(geometry: Geometry, last: LastChunk, entry: &Move) -> bool
    ensures { result ≡ (same_chunk last.chunk entry.now.from && is_chunk geometry entry.now.to
        && nat_le last.used (chunk_size entry.now.to.order)) }
{
    last.chunk == entry.from && is_chunk(geometry, &entry.to) && last.used <= entry.to.size()
}

//! The blocks of an index. Only `empty_blocks` allocates: entries come and go without.

ghost use Rattle.std.specs.Prelude.{◌≡◌, ◌+◌, ◌-◌, ◌*◌, ◌<◌, ◌≤◌, length, vec_capacity, vec_len};
ghost use Rattle.std.specs.Prelude.{[], get_or};
ghost use Rattle.std.specs.Prelude.{IfOk};
ghost use Rattle.std.specs.List.{insert, AllByRecursion};
ghost use Rattle.cm_index.specs.Blocks.{block_size, half_size, joined, place_of, room_of};
ghost use Rattle.cm_index.specs.Blocks.{with_entry, halved, AreBlocks, IsTaken, BlockIsBetween};

use crate::block::{HALF, IndexBlock};
use crate::index::IndexEntry;
use crate::search::BlockPlace;
use std::alloc::{AllocError, Global};

/// How many blocks are needed for `count` entries, if each is half full.
pub fn blocks_for(count: usize) -> usize
    ensures some { 0 < result }
    ensures room { count ≤ half_size * result }
{
    count.div_ceil(HALF).max(1)
}

/// Blocks with no entries.
pub fn empty_blocks(alloc: Global, used: usize, room: usize) -> Result<Vec<IndexBlock>, AllocError>
    requires { used ≤ room }
    ensures empty { IfOk result (λ blocks. AllByRecursion (λ b. length b ≡ 0) blocks.items) }
    ensures count { IfOk result (λ blocks. length blocks.items ≡ used) }
    ensures room { IfOk result (λ blocks. room ≤ vec_capacity blocks) }
{
    let mut blocks = Vec::with_capacity(alloc, room)?;
    for _ in 0..used {
        blocks.push(IndexBlock::new(alloc)?).unwrap();
    }
    Ok(blocks)
}

/// The entry at a spot.
pub fn entry_at(blocks: &[IndexBlock], spot: &BlockPlace) -> IndexEntry
    requires { IsTaken blocks.now spot.now }
    ensures { (d : IndexEntry)
        → result ≡ get_or (joined blocks.now) (place_of blocks.now spot.now) d }
{
    blocks[spot.block].at(spot.place)
}

/// Puts an entry in the place of another.
pub fn set_entry(blocks: &mut Vec<IndexBlock>, spot: &BlockPlace, entry: IndexEntry)
    requires { IsTaken blocks.old.items spot.now }
    ensures items { blocks.new.items ≡ with_entry blocks.old.items spot.now entry }
    ensures capacity { vec_capacity blocks.new ≡ vec_capacity blocks.old }
{
    blocks[spot.block].set(spot.place, entry);
}

/// Puts an entry at a spot, before those from there on.
pub fn put_entry(
    blocks: &mut Vec<IndexBlock>,
    spare: &mut Vec<IndexBlock>,
    spot: BlockPlace,
    entry: IndexEntry,
)
    requires blocks { AreBlocks 0 blocks.old.items spare.old.items (vec_capacity blocks.old)
        (vec_capacity spare.old) }
    requires between { BlockIsBetween blocks.old.items spot }
    requires room { length (joined blocks.old.items) < room_of blocks.old.items spare.old.items }
    ensures items { joined blocks.new.items
        ≡ insert (joined blocks.old.items) (place_of blocks.old.items spot) entry }
    ensures room { room_of blocks.new.items spare.new.items
        ≡ room_of blocks.old.items spare.old.items }
    ensures blocks { AreBlocks 0 blocks.new.items spare.new.items (vec_capacity blocks.new)
        (vec_capacity spare.new) }
{
    let spot = open(blocks, spare, spot);
    blocks[spot.block].insert(spot.place, entry);
}

/// Makes room for another entry in the block of a spot, and returns where the spot is then.
fn open(blocks: &mut Vec<IndexBlock>, spare: &mut Vec<IndexBlock>, spot: BlockPlace) -> BlockPlace
    requires blocks { AreBlocks 0 blocks.old.items spare.old.items (vec_capacity blocks.old)
        (vec_capacity spare.old) }
    requires between { BlockIsBetween blocks.old.items spot }
    requires room { length (joined blocks.old.items) < room_of blocks.old.items spare.old.items }
    ensures items { joined blocks.new.items ≡ joined blocks.old.items }
    ensures place { place_of blocks.new.items result ≡ place_of blocks.old.items spot }
    ensures between { BlockIsBetween blocks.new.items result }
    ensures open { length (get_or blocks.new.items result.block []) < block_size }
    ensures room { room_of blocks.new.items spare.new.items
        ≡ room_of blocks.old.items spare.old.items }
    ensures blocks { AreBlocks 0 blocks.new.items spare.new.items (vec_capacity blocks.new)
        (vec_capacity spare.new) }
{
    if !blocks[spot.block].is_full() {
        return spot;
    }
    split(blocks, spare, spot.block);
    if spot.place <= HALF {
        return spot;
    }
    BlockPlace {
        block: spot.block + 1,
        place: spot.place - HALF,
    }
}

/// Moves the upper half of a full block to a spare one, which is inserted after it.
fn split(blocks: &mut Vec<IndexBlock>, spare: &mut Vec<IndexBlock>, at: usize)
    requires blocks { AreBlocks 0 blocks.old.items spare.old.items (vec_capacity blocks.old)
        (vec_capacity spare.old) }
    requires within { at < length blocks.old.items }
    requires full { length (get_or blocks.old.items at []) ≡ block_size }
    requires spare { 0 < length spare.old.items }
    ensures items { blocks.new.items ≡ halved blocks.old.items at }
    ensures room { room_of blocks.new.items spare.new.items
        ≡ room_of blocks.old.items spare.old.items }
    ensures blocks { AreBlocks 0 blocks.new.items spare.new.items (vec_capacity blocks.new)
        (vec_capacity spare.new) }
{
    let mut upper = spare.pop().unwrap();
    blocks[at].halve(&mut upper);
    blocks.insert(at + 1, upper).unwrap();
}

/// Moves entries to the next block, so that all blocks but the first are at least half full. Blocks
/// without entries become spare.
pub fn pack(blocks: &mut Vec<IndexBlock>, spare: &mut Vec<IndexBlock>)
    requires { AreBlocks (vec_len blocks.old - 1) blocks.old.items spare.old.items
        (vec_capacity blocks.old) (vec_capacity spare.old) }
    ensures items { joined blocks.new.items ≡ joined blocks.old.items }
    ensures room { room_of blocks.new.items spare.new.items
        ≡ room_of blocks.old.items spare.old.items }
    ensures blocks { AreBlocks 0 blocks.new.items spare.new.items (vec_capacity blocks.new)
        (vec_capacity spare.new) }
{
    let mut at = blocks.len() - 1;
    while at > 0 {
        at -= 1;
        pack_one(blocks, spare, at);
    }
}

/// Moves entries of one block to the next one, as many as that has room for.
fn pack_one(blocks: &mut Vec<IndexBlock>, spare: &mut Vec<IndexBlock>, at: usize)
    requires { AreBlocks (at + 1) blocks.old.items spare.old.items (vec_capacity blocks.old)
        (vec_capacity spare.old) }
    ensures items { joined blocks.new.items ≡ joined blocks.old.items }
    ensures room { room_of blocks.new.items spare.new.items
        ≡ room_of blocks.old.items spare.old.items }
    ensures blocks { AreBlocks at blocks.new.items spare.new.items (vec_capacity blocks.new)
        (vec_capacity spare.new) }
{
    let mut before = blocks.remove(at);
    blocks[at].fill(&mut before);
    if before.is_empty() {
        spare.push(before).unwrap();
    } else {
        blocks.insert(at, before).unwrap();
    }
}

/// Leaves no entry.
pub fn clear(blocks: &mut Vec<IndexBlock>, spare: &mut Vec<IndexBlock>)
    requires { AreBlocks 0 blocks.old.items spare.old.items (vec_capacity blocks.old)
        (vec_capacity spare.old) }
    ensures items { joined blocks.new.items ≡ [] }
    ensures room { room_of blocks.new.items spare.new.items
        ≡ room_of blocks.old.items spare.old.items }
    ensures blocks { AreBlocks 0 blocks.new.items spare.new.items (vec_capacity blocks.new)
        (vec_capacity spare.new) }
{
    clear_each(blocks);
    pack(blocks, spare);
}

/// Leaves no entry in any block.
fn clear_each(blocks: &mut Vec<IndexBlock>)
    ensures items { joined blocks.new.items ≡ [] }
    ensures count { length blocks.new.items ≡ length blocks.old.items }
    ensures capacity { vec_capacity blocks.new ≡ vec_capacity blocks.old }
{
    for at in 0..blocks.len() {
        blocks[at].clear();
    }
}

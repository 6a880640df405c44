//! Where the name of an owner is in an index.

ghost use Rattle.std.specs.Prelude.{◌≡◌, ◌+◌, ◌<◌, ◌≤◌, IfOk, IfErr, take, drop, length, []};
ghost use Rattle.std.specs.List.{AllByRecursion};
ghost use Rattle.std.specs.Ordering.{nat_cmp};
ghost use Rattle.std.specs.Cmp.Lexicographic.{slice_cmp};
ghost use Rattle.cm_index.specs.Index.{owner_of as owner_in, rank, name_in, key_at, keys_at};
ghost use Rattle.cm_index.specs.Index.{IsIndex, IsKeyAt, SplitsKeys, Rise, Below, Above};
ghost use Rattle.cm_index.specs.Sought.{name_sought, key_sought};
ghost use Rattle.cm_index.specs.Blocks.{half_size, joined, place_of, IsTaken, BlockIsBetween};

use crate::block::IndexBlock;
use crate::index::IndexEntry;
use crate::kept::Kept;
use crate::slot::BookSlot;
use crate::sought::{Name, Sought};
use cm_layout::Row;
use std::cmp::Ordering;

/// A place in one of an index's blocks.
#[derive(Clone, Copy, Debug)]
pub struct BlockPlace {
    pub block: usize,
    pub place: usize,
}

/// The owner of a row: a class's loader.
fn owner_of<P>(row: &Row<P>) -> Option<u64>
    ensures { result ≡ owner_in row.now }
{
    match row {
        Row::Loader(_) => None,
        Row::Class(row, _) => Some(row.loader),
    }
}

/// The order of two owners: no owner comes before all loaders.
fn cmp_owners(one: Option<u64>, other: Option<u64>) -> Ordering
    ensures { result ≡ nat_cmp (rank one) (rank other) }
{
    match (one, other) {
        (Some(one), Some(other)) => one.cmp(&other),
        (Some(_), None) => Ordering::Greater,
        (None, Some(_)) => Ordering::Less,
        (None, None) => Ordering::Equal,
    }
}

/// The order of a row's name and of another.
fn cmp_names<P: Kept>(row: &Row<P>, name: &Name<P>) -> Ordering
    ensures { result ≡ slice_cmp nat_cmp (name_in P.name row.now) (name_sought P.name name.now) }
{
    match (row, name) {
        (Row::Loader(row), Name::Bytes(bytes)) => row.name.as_bytes().cmp(bytes),
        (Row::Loader(row), Name::Of(class)) => class.cmp_name_to(row.name.as_bytes()).reverse(),
        (Row::Class(_, kept), Name::Bytes(bytes)) => kept.cmp_name_to(bytes),
        (Row::Class(_, kept), Name::Of(class)) => kept.cmp_name(class),
    }
}

/// The order of the key of an entry and of what is searched for; the row is read only if the
/// fingerprints are the same.
fn cmp_keys<P: Kept>(entry: &IndexEntry, slots: &[BookSlot<Row<P>>], sought: &Sought<P>) -> Ordering
    requires { entry.now.at < length slots.now }
    ensures { result
        ≡ slice_cmp nat_cmp (key_at P.name slots.now entry.now) (key_sought P.name sought.now) }
{
    if entry.fingerprint != sought.fingerprint {
        return entry.fingerprint.cmp(&sought.fingerprint);
    }
    let row = &slots[entry.at as usize].item;
    let owners = cmp_owners(owner_of(row), sought.owner);
    if owners.is_ne() {
        return owners;
    }
    cmp_names(row, &sought.name)
}

/// Where the entry with this key is, or would be, among those of one block.
fn place_in<P: Kept>(
    index: &[IndexEntry],
    slots: &[BookSlot<Row<P>>],
    sought: &Sought<P>,
) -> Result<usize, usize>
    requires within { AllByRecursion (λ e. e.at < length slots.now) index.now }
    requires rises { Rise (keys_at P.name slots.now index.now) }
    ensures found { IfOk result
        (λ i. IsKeyAt P.name slots.now index.now i (key_sought P.name sought.now)) }
    ensures absent { IfErr result
        (λ i. SplitsKeys (keys_at P.name slots.now index.now) i (key_sought P.name sought.now)) }
{
    let mut low = 0;
    let mut high = index.len();
    while low < high {
        let middle = low + (high - low) / 2;
        match cmp_keys(&index[middle], slots, sought) {
            Ordering::Less => low = middle + 1,
            Ordering::Equal => return Ok(middle),
            Ordering::Greater => high = middle,
        }
    }
    Err(low)
}

/// The block that the entry of this key is in, or would be in: the last whose first key isn't above
/// it, or the first of all. So only one key of each other block is compared.
fn block_of<P: Kept>(blocks: &[IndexBlock], slots: &[BookSlot<Row<P>>], sought: &Sought<P>) -> usize
    requires index { IsIndex P.mark P.name slots.now (joined blocks.now) }
    requires some { 0 < length blocks.now }
    requires half { AllByRecursion (λ b. half_size ≤ length b) (drop 1 blocks.now) }
    ensures within { result < length blocks.now }
    ensures below { AllByRecursion (Below (key_sought P.name sought.now))
        (keys_at P.name slots.now (joined (take result blocks.now))) }
    ensures above { AllByRecursion (Above (key_sought P.name sought.now))
        (keys_at P.name slots.now (joined (drop (result + 1) blocks.now))) }
{
    let mut at = 0;
    let mut above = blocks.len();
    while above - at > 1 {
        let middle = at + (above - at) / 2;
        let first = blocks[middle].at(0);
        match cmp_keys(&first, slots, sought) {
            Ordering::Greater => above = middle,
            _ => at = middle,
        }
    }
    at
}

/// Where the entry with this key is, or would be.
pub fn search<P: Kept>(
    blocks: &[IndexBlock],
    slots: &[BookSlot<Row<P>>],
    sought: &Sought<P>,
) -> Result<BlockPlace, BlockPlace>
    requires index { IsIndex P.mark P.name slots.now (joined blocks.now) }
    requires some { 0 < length blocks.now }
    requires half { AllByRecursion (λ b. half_size ≤ length b) (drop 1 blocks.now) }
    ensures taken { IfOk result (λ s. IsTaken blocks.now s) }
    ensures found { IfOk result (λ s. IsKeyAt P.name slots.now (joined blocks.now)
        (place_of blocks.now s) (key_sought P.name sought.now)) }
    ensures between { IfErr result (λ s. BlockIsBetween blocks.now s) }
    ensures absent { IfErr result (λ s. SplitsKeys (keys_at P.name slots.now (joined blocks.now))
        (place_of blocks.now s) (key_sought P.name sought.now)) }
{
    let block = block_of(blocks, slots, sought);
    match place_in(blocks[block].entries(), slots, sought) {
        Ok(place) => Ok(BlockPlace { block, place }),
        Err(place) => Err(BlockPlace { block, place }),
    }
}

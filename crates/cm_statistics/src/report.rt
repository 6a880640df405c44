//! What is reported of a file.

use crate::by_loader::LoaderUse;
use crate::chunks::OwnedChunk;
use crate::usage::Usage;
use cm_layout::Half;
use cm_pool::Geometry;

/// What the half of the journal that counts holds.
#[derive(Clone, Copy, Debug)]
pub struct JournalUse {
    pub half: Half,
    pub epoch: u64,
    /// The version of its entries.
    pub version: u16,
    /// How many of its slots are used.
    pub used: u32,
    /// How many are left before the next checkpoint.
    pub left: u32,
    /// How many slots the live rows take, in a half that is written anew.
    pub live: usize,
    /// How many they may take.
    pub live_limit: usize,
}

/// How much of its file a cache takes. Sizes are in bytes.
#[derive(Drop)]
pub struct Statistics {
    pub geometry: Geometry,
    /// The number of the last command.
    pub number: u64,
    pub journal: JournalUse,
    /// The length of the file.
    pub bytes: u64,
    /// Its length after a trim.
    pub trimmed: u64,
    /// How many whole roots the file holds.
    pub roots: u32,
    /// How many roots records use: one more than the last.
    pub used_roots: u32,
    /// The order of the largest chunk that is free; `None` if there is none.
    pub largest_free: Option<u32>,
    /// What all classes take.
    pub usage: Usage,
    /// What the classes on chunks of each order take, from order 0 on.
    pub orders: Vec<Usage>,
    /// What the classes of each live loader take, in the order in which the loaders were added.
    pub loaders: Vec<LoaderUse>,
    /// The chunks that loaders own, in the order in which they were taken.
    pub chunks: Vec<OwnedChunk>,
}

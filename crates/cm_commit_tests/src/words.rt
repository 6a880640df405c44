//! A plain model of the words of a region: which are free, which belong to which loader, and which
//! wait.
ghost use Rattle.std.specs.Prelude.{◌<◌, IfSome};

use cm_commands::Refusal;
use cm_pool::{Chunk, Place};

/// The order of a root, and how many there can be.
pub const TOP: u32 = 5;

pub const ROOTS: u32 = 4;

/// How many blocks of 128 words a root has, and all roots. No chunk is smaller than a block.
const ROOT_BLOCKS: usize = 32;

const BLOCKS: usize = 128;

/// What the words of a block are; those of one block are all alike.
#[derive(Clone, Copy, PartialEq, Eq)]
enum Words {
    /// Their root isn't present.
    Absent,
    Free,
    /// In a chunk of the loader of this number.
    Owned(u64),
    /// Left by the command of this number, which isn't known to be durable.
    Waiting(u64),
}

/// A loader's last chunk with its used words, how many records lie on it, and how many chunks the
/// loader has.
#[derive(Clone, Copy)]
pub struct Chain {
    chunks: u32,
    last: Option<(Chunk, u32)>,
    records: usize,
}

/// What a command writes: no record, a class's, or this many that move from the first chunk to the
/// second.
#[derive(Clone, Copy, PartialEq, Eq)]
pub enum Written {
    Nothing,
    Class(Place),
    Moved(Chunk, Chunk, usize),
}

impl Chain {
    pub const EMPTY: Chain = Chain {
        chunks: 0,
        last: None,
        records: 0,
    };

    // The place on top of the last chunk, if that has room.
    fn on_top(&self, words: u32) -> Option<Place> {
        let (chunk, offset) = self.last?;
        if offset.wrapping_add(words) > 128 << chunk.order.min(TOP) {
            return None;
        }
        Some(Place {
            chunk,
            offset,
            words,
        })
    }

    fn put(&mut self, place: Place) {
        if place.offset == 0 {
            self.chunks = self.chunks.wrapping_add(1);
            self.records = 0;
        }
        self.records = self.records.wrapping_add(1);
        self.last = Some((place.chunk, place.offset.wrapping_add(place.words)));
    }
}

/// The words of a region.
#[derive(Drop)]
pub struct Region {
    blocks: [Words; BLOCKS],
    /// For how many records there was no place.
    pub full: u32,
    /// How often a loader's last chunk was moved.
    pub moved: u32,
}

// The least order whose chunks hold this many words.
fn order_for(words: u32) -> u32 {
    let mut order = 0;
    for smaller in 0..TOP {
        if 128 << smaller < words {
            order = smaller + 1;
        }
    }
    order
}

// Whether a chunk is smaller than another, or lies before it.
fn is_better(new: Chunk, old: Chunk) -> bool {
    new.order < old.order || new.root < old.root || new.root == old.root && new.at < old.at
}

fn chunk_at(block: usize, order: u32) -> Chunk
    requires { block < 128 }
{
    let (root, within) = (block / ROOT_BLOCKS, block % ROOT_BLOCKS);
    Chunk {
        root: root as u32,
        order,
        at: within as u32 * 128,
    }
}

impl Region {
    /// No root is present.
    pub fn new() -> Region {
        Region {
            blocks: [Words::Absent; BLOCKS],
            full: 0,
            moved: 0,
        }
    }

    // Makes the next root present, if there is one.
    fn add_root(&mut self) -> bool {
        let mut added = 0;
        for words in &mut self.blocks {
            if *words == Words::Absent && added < ROOT_BLOCKS {
                *words = Words::Free;
                added += 1;
            }
        }
        added > 0
    }

    // The block where the first chunk of an order begins whose words are all free.
    fn first_free(&self, order: u32) -> Option<usize>
        ensures { IfSome result (λ block. block < 128) }
    {
        let size = 1 << order.min(TOP);
        for block in 0..BLOCKS {
            let chunk = self.blocks.get(block..block + size).unwrap_or(&[]);
            if block % size == 0 && chunk.len() == size && chunk.iter().all(|w| *w == Words::Free) {
                return Some(block);
            }
        }
        None
    }

    // A loader gets the first free chunk of an order, if there is one.
    fn take(&mut self, loader: u64, order: u32) -> Option<Chunk> {
        let chunk = chunk_at(self.first_free(order)?, order);
        self.mark(chunk, Words::Owned(loader));
        Some(chunk)
    }

    // Marks the words of a chunk as these.
    fn mark(&mut self, chunk: Chunk, becomes: Words) {
        let first = chunk.root as usize * ROOT_BLOCKS + chunk.at as usize / 128;
        let size = 1 << chunk.order.min(TOP);
        for words in self.blocks.get_mut(first..first + size).unwrap_or(&mut []) {
            *words = becomes;
        }
    }

    // A chunk of the wanted order, or else of the needed one, or else from a new root.
    fn fetch(&mut self, loader: u64, wanted: u32, need: u32) -> Option<Chunk> {
        if let Some(chunk) = self.take(loader, wanted) {
            return Some(chunk);
        }
        if let Some(chunk) = self.take(loader, need) {
            return Some(chunk);
        }
        if !self.add_root() {
            self.full = self.full.wrapping_add(1);
            return None;
        }
        self.take(loader, wanted)
    }

    /// The place of a record of a loader, which gets another chunk if its last one has no room.
    pub fn place(&mut self, loader: u64, chain: &mut Chain, words: u32) -> Result<Place, Refusal> {
        let place = match chain.on_top(words) {
            Some(place) => place,
            None => {
                let need = order_for(words);
                let wanted = need.max(chain.chunks.min(4));
                let chunk = self.fetch(loader, wanted, need).ok_or(Refusal::RegionFull)?;
                Place {
                    chunk,
                    offset: 0,
                    words,
                }
            }
        };
        chain.put(place);
        Ok(place)
    }

    /// The records on a loader's last chunk move to the first free chunk of the least order that
    /// holds them, if that is better. The chunk that they leave waits for the number.
    pub fn tighten(
        &mut self,
        loader: u64,
        chain: &mut Chain,
        number: u64,
    ) -> Result<Written, Refusal> {
        let (old, used) = chain.last.ok_or(Refusal::NoMove)?;
        let order = order_for(used);
        let Some(block) = self.first_free(order) else {
            return Err(Refusal::NoMove);
        };
        let new = chunk_at(block, order);
        if !is_better(new, old) {
            return Err(Refusal::NoMove);
        }
        self.mark(old, Words::Waiting(number));
        self.mark(new, Words::Owned(loader));
        chain.last = Some((new, used));
        self.moved = self.moved.wrapping_add(1);
        Ok(Written::Moved(old, new, chain.records))
    }

    /// The words of a loader wait for a number.
    pub fn leave(&mut self, loader: u64, number: u64) {
        for words in &mut self.blocks {
            if *words == Words::Owned(loader) {
                *words = Words::Waiting(number);
            }
        }
    }

    /// The words that wait for at most this number are freed.
    pub fn learn(&mut self, known: u64) {
        for words in &mut self.blocks {
            if matches!(*words, Words::Waiting(number) if number <= known) {
                *words = Words::Free;
            }
        }
    }
}

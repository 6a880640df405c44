//! A plain model: the rows in a list, in which each query goes through all of them.
use crate::samples::{CHUNKS, ROWS};
use cm_layout::{ClassRow, Entry, EntryRule, LoaderRow, Move, Row};
use cm_pool::{Chunk, Place};
use cm_rows::LastChunk;
use std::alloc::{AllocError, Global};

#[derive(Clone, Copy)]
pub struct PlainRow {
    pub loader: u64,
    /// How many slots it takes: two for a loader whose name has more than 48 bytes.
    pub slots: usize,
    /// The place of a class's record; `None` for the loader's own row.
    pub place: Option<Place>,
}

/// The rows of a region with two roots of 1,024 words.
#[derive(Drop)]
pub struct Plain {
    pub rows: Vec<PlainRow>,
}

const LIMIT: usize = 128;

fn end_of(chunk: &Chunk) -> u64 {
    u64::from(chunk.at).wrapping_add(128 << chunk.order.min(8))
}

fn share_a_word(a: &Chunk, b: &Chunk) -> bool {
    a.root == b.root && u64::from(a.at) < end_of(b) && u64::from(b.at) < end_of(a)
}

fn is_in_region(chunk: &Chunk) -> bool {
    let size = 128 << chunk.order.min(8);
    chunk.order <= 3 && chunk.root < 2 && chunk.at % size == 0 && end_of(chunk) <= 1024
}

impl PlainRow {
    fn is_on(&self, chunk: &Chunk) -> bool {
        self.place.is_some_and(|place| place.chunk == *chunk)
    }

    fn meets(&self, chunk: &Chunk) -> bool {
        self.place
            .is_some_and(|place| share_a_word(&place.chunk, chunk))
    }
}

// How many slots a loader of this name takes.
fn slots_of(row: &LoaderRow) -> usize {
    if row.name.as_bytes().len() > 48 { 2 } else { 1 }
}

impl Plain {
    pub fn new(alloc: Global) -> Plain {
        Plain {
            rows: Vec::new(alloc),
        }
    }

    /// How many slots all rows take.
    pub fn taken(&self) -> usize {
        let mut taken = 0usize;
        for row in &self.rows {
            taken = taken.wrapping_add(row.slots);
        }
        taken
    }

    fn has_room(&self, slots: usize) -> bool {
        self.taken().wrapping_add(slots) <= LIMIT
    }

    fn lives(&self, loader: u64) -> bool {
        self.rows
            .iter()
            .any(|row| row.loader == loader && row.place.is_none())
    }

    fn is_unused(&self, chunk: &Chunk) -> bool {
        !self.rows.iter().any(|row| row.meets(chunk))
    }

    fn used_words(&self, chunk: &Chunk) -> u32 {
        let mut used = 0u32;
        for row in &self.rows {
            if row.is_on(chunk) {
                used = used.wrapping_add(row.place.map_or(0, |place| place.words));
            }
        }
        used
    }

    pub fn last(&self, loader: u64) -> Option<LastChunk> {
        let mut last = None;
        for row in &self.rows {
            if row.loader == loader && row.place.is_some() {
                last = row.place;
            }
        }
        let chunk = last?.chunk;
        Some(LastChunk {
            chunk,
            used: self.used_words(&chunk),
        })
    }

    fn define_rule(&self, row: &ClassRow) -> Option<EntryRule> {
        if !self.lives(row.loader) || !self.has_room(1) {
            return ROWS;
        }
        let place = row.place;
        let size = 128 << place.chunk.order.min(8);
        let end = place.offset.wrapping_add(place.words);
        if !is_in_region(&place.chunk) || place.words < 1 || end > size {
            return CHUNKS;
        }
        let top = LastChunk {
            chunk: place.chunk,
            used: place.offset,
        };
        if self.last(row.loader) == Some(top) {
            return None;
        }
        if place.offset == 0 && self.is_unused(&place.chunk) {
            None
        } else {
            CHUNKS
        }
    }

    fn move_rule(&self, entry: &Move) -> Option<EntryRule> {
        let Some(last) = self.last(entry.loader) else {
            return CHUNKS;
        };
        let size = end_of(&entry.to).wrapping_sub(u64::from(entry.to.at));
        let fits = last.chunk == entry.from
            && is_in_region(&entry.to)
            && self.is_unused(&entry.to)
            && u64::from(last.used) <= size;
        if fits { None } else { CHUNKS }
    }

    fn unload_all_rule(&self, loaders: &[u64]) -> Option<EntryRule> {
        for (at, loader) in loaders.iter().enumerate() {
            if !self.lives(*loader) || loaders[..at].contains(loader) {
                return ROWS;
            }
        }
        None
    }

    fn rule(&self, entry: &Entry<()>) -> Option<EntryRule> {
        match entry {
            Entry::Live(Row::Loader(row)) if !self.has_room(slots_of(row)) => ROWS,
            Entry::Live(Row::Loader(_)) => None,
            Entry::Live(Row::Class(row, _)) => self.define_rule(row),
            Entry::Unload(entry) if !self.lives(entry.loader) => ROWS,
            Entry::Unload(_) => None,
            Entry::Move(entry) => self.move_rule(entry),
            Entry::UnloadAll(entry) => self.unload_all_rule(entry.loaders.as_slice()),
        }
    }

    fn apply_move(&mut self, entry: &Move) {
        for row in self.rows.iter_mut() {
            if row.is_on(&entry.from) {
                row.place = row.place.map(|place| Place {
                    chunk: entry.to,
                    ..place
                });
            }
        }
    }

    /// The rule that an entry breaks; if it breaks none, the rows are those after it.
    pub fn apply(&mut self, entry: &Entry<()>) -> Result<Option<EntryRule>, AllocError> {
        let rule = self.rule(entry);
        if rule.is_some() {
            return Ok(rule);
        }
        match entry {
            Entry::Live(Row::Loader(row)) => self.rows.push(PlainRow {
                loader: row.number,
                slots: slots_of(row),
                place: None,
            })?,
            Entry::Live(Row::Class(row, _)) => self.rows.push(PlainRow {
                loader: row.loader,
                slots: 1,
                place: Some(row.place),
            })?,
            Entry::Unload(entry) => self.rows.retain(|row| row.loader != entry.loader),
            Entry::Move(entry) => self.apply_move(entry),
            Entry::UnloadAll(entry) => {
                let loaders = entry.loaders.as_slice();
                self.rows.retain(|row| !loaders.contains(&row.loader));
            }
        }
        Ok(None)
    }
}

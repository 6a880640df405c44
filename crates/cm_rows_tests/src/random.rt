//! Random entries, most of which break no rule.
use crate::plain::Plain;
use crate::samples::{chunk, class, loader, move_of, unload, unload_all};
use cm_layout::Entry;
use cm_pool::Chunk;
use cm_rows::LastChunk;
use std::test::Fail;

#[derive(Drop)]
pub struct Random(pub u64);

impl Random {
    fn below(&mut self, n: u32) -> u32 {
        self.0 = self
            .0
            .wrapping_mul(6_364_136_223_846_793_005)
            .wrapping_add(1_442_695_040_888_963_407);
        let high = (self.0 >> 33) as u32;
        high % n.max(1)
    }

    fn chunk(&mut self) -> Chunk {
        let (root, order, at) = (self.below(2), self.below(3), self.below(8));
        Chunk {
            root,
            order,
            at: at.wrapping_mul(128),
        }
    }

    // The loader of a random row.
    fn loader(&mut self, rows: &Plain, number: u64) -> u64 {
        let at = self.below(128) as usize % rows.rows.len().max(1);
        rows.rows.get(at).map_or(number, |row| row.loader)
    }

    // A loader whose name may take two slots.
    fn loader_entry(&mut self, number: u64) -> Result<Entry<()>, Fail> {
        let at = self.below(LENGTHS.len() as u32) as usize;
        let long = LENGTHS.get(at).map_or(3, |long| *long);
        let name = long_name_of(number);
        loader(number, name.get(..long).ok_or("no name is longer")?)
    }

    /// An entry of this number, mostly on a loader of the last few.
    pub fn entry(&mut self, rows: &Plain, number: u64) -> Result<Entry<()>, Fail> {
        let owner = self.loader(rows, number);
        let last = rows.last(owner).unwrap_or(LastChunk {
            chunk: chunk(0, 0),
            used: 0,
        });
        Ok(match self.below(16) {
            0 | 1 => self.loader_entry(number)?,
            2 if self.below(2) == 0 => unload(owner),
            2 => unload_all(&[owner, self.loader(rows, number)])?,
            3 | 4 => move_of(owner, last.chunk, self.chunk()),
            5..=8 => class(owner, self.chunk(), 0, self.below(140)),
            _ => class(owner, last.chunk, last.used, self.below(40)),
        })
    }
}

/// How many bytes names have: around what a slot has room for, and the most.
const LENGTHS: [usize; 6] = [3, 47, 48, 49, 95, 96];

/// A name of 96 visible characters, of which the first three are those of the short name.
pub fn long_name_of(number: u64) -> [u8; 96] {
    let [first, second, third] = name_of(number);
    let mut name = [b'~'; 96];
    name[0] = first;
    name[1] = second;
    name[2] = third;
    name
}

/// A name of three visible characters.
pub fn name_of(number: u64) -> [u8; 3] {
    let digits = [number % 64, number / 64 % 64, number / 4096 % 64];
    [
        33 + digits[0] as u8,
        33 + digits[1] as u8,
        33 + digits[2] as u8,
    ]
}

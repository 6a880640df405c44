// A row of bits, with a summary above it.
ghost use Rattle.std.specs.Prelude.{◌≡◌, ℕ, ◌*◌, ◌<◌, ◌≤◌, List, false, length, replicate, IfOk};
ghost use Rattle.std.specs.Prelude.{IfSome, IfNone};
ghost use Rattle.cm_pool.specs.Bits.{bit, with_bit, without_bit, IsFirstBit};

use crate::bit_words::{clear_bit, first_word, has_bit, lowest_bit, set_bit};
use std::alloc::{AllocError, Global};
use std::marker::Model;

/// Bits in a row, each set or not, in up to 16,384 words of 64.
///
/// Contracts see a row as its words. Above them it keeps a bit for each word that has a bit set,
/// and above those the same again: so the first bit that is set is found by reading three words,
/// and a few more if the row is longer than 4,096 words.
#[derive(Drop)]
pub struct BitRow {
    words: Vec<u64>,
    groups: Vec<u64>,
    heads: Vec<u64>,
}

impl Model for BitRow {
    ghost use Rattle.std.specs.Prelude.{ℕ, List};
    ghost use Rattle.cm_pool.specs.Bits.{IsRow};

    ghost Value = { List ℕ };

    ghost view = { λ r. r.words.items };

    ghost invariant = { λ r. IsRow r.words.items r.groups.items r.heads.items };
}

impl BitRow {
    /// A row of `words` words, with no bit set.
    pub fn new(alloc: Global, words: usize) -> Result<BitRow, AllocError>
        requires { words ≤ 16384 }
        ensures { IfOk result (λ row. row ≡ replicate words 0) }
    {
        let groups = words.div_ceil(64);
        Ok(BitRow {
            words: Vec::from_elem(alloc, 0, words)?,
            groups: Vec::from_elem(alloc, 0, groups)?,
            heads: Vec::from_elem(alloc, 0, groups.div_ceil(64))?,
        })
    }

    /// Whether a bit is set. After the last word none is.
    pub fn has(&self, at: u32) -> bool
        ensures { result ≡ bit self.now at }
    {
        has_bit(&self.words, at)
    }

    /// Sets a bit.
    pub fn insert(&mut self, at: u32)
        requires { at < 64 * length self.old }
        ensures { self.new ≡ with_bit self.old at }
    {
        set_bit(&mut self.words, at);
        set_bit(&mut self.groups, at / 64);
        set_bit(&mut self.heads, at / 64 / 64);
    }

    /// Clears a bit.
    pub fn remove(&mut self, at: u32)
        requires { at < 64 * length self.old }
        ensures { self.new ≡ without_bit self.old at }
    {
        if clear_bit(&mut self.words, at) && clear_bit(&mut self.groups, at / 64) {
            let _none_left = clear_bit(&mut self.heads, at / 64 / 64); // there is no row above
        }
    }

    /// The first bit that is set.
    pub fn first(&self) -> Option<u32>
        ensures some { IfSome result (IsFirstBit self.now) }
        ensures none { IfNone result ((at : ℕ) → bit self.now at ≡ false) }
    {
        let head = first_word(&self.heads)?;
        let group = lowest_bit(&self.heads, head);
        let word = lowest_bit(&self.groups, group);
        Some(lowest_bit(&self.words, word))
    }
}

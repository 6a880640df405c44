//! The buffer and its calls. Nothing here holds a pointer.
ghost use Rattle.std.specs.Prelude.{◌≡◌, ◌≤◌, ◌<◌, ◌+◌, ◌-◌, ◌*◌, ◌/◌, ◌%◌, [], ◌∷◌, ◌++◌, length};
ghost use Rattle.std.specs.Prelude.{slice_index, slice_set, slice_range, IfOk};

use crate::block::{Base, Cells, Deed, allocate, deallocate};
use crate::bytes::write_words;
use std::alloc::{AllocError, Global};
use std::fmt;
use std::fmt::{Debug, Formatter, Write};
use std::marker::Model;

/// A list of 64-bit words with room for a fixed number of them, in one block of memory. It may move
/// to another thread, and several threads may read it.
pub struct WordBuf {
    base: Base<u64>,
    cells: Cells<u64>,
    deed: Deed<u64, Global>,
    alloc: Global,
    len: usize,
    capacity: usize,
}

impl Model for WordBuf {
    ghost use Rattle.cm_words.specs.Words.{Words, words_of, words_code};
    ghost use Rattle.cm_words.specs.Places.{somes};
    ghost use Rattle.cm_words.specs.Buffer.{IsBuffer};

    ghost Value = { Words };

    ghost coded = { words_code };

    ghost view = { λ b. words_of (somes b.cells.slots) b.capacity };

    ghost invariant = { λ b. IsBuffer b.base b.cells b.deed b.alloc b.len b.capacity };
}

impl WordBuf {
    ghost use Rattle.cm_words.specs.Words.{words_of};
    ghost use Rattle.cm_words.specs.Bytes.{word_bytes, packed_into};

    /// An empty buffer with room for `capacity` words. It never allocates more memory than that.
    pub fn with_capacity(alloc: Global, capacity: usize) -> Result<WordBuf, AllocError>
        ensures { IfOk result (λ b. b ≡ words_of [] capacity) }
    {
        // No block has more than 2^63 bytes.
        if capacity >= 1 << 60 {
            return Err(AllocError);
        }
        let (base, cells, deed) = allocate(&alloc, capacity)?;
        Ok(WordBuf {
            base,
            cells,
            deed,
            alloc,
            len: 0,
            capacity,
        })
    }

    /// A buffer of these words, with room for no more.
    pub fn from_slice(alloc: Global, words: &[u64]) -> Result<WordBuf, AllocError>
        ensures { IfOk result (λ b. b ≡ words_of words.now (length words.now)) }
    {
        let mut copy = WordBuf::with_capacity(alloc, words.len())?;
        copy.extend_from_slice(words);
        Ok(copy)
    }

    /// The words of these bytes, eight bytes a word with the lowest first, in a buffer of exactly
    /// their size.
    pub fn from_bytes(alloc: Global, bytes: &[u8]) -> Result<WordBuf, AllocError>
        requires whole { length bytes.now % 8 ≡ 0 }
        ensures { IfOk result (λ b. b
            ≡ words_of (packed_into (length bytes.now / 8) bytes.now) (length bytes.now / 8)) }
    {
        let mut words = WordBuf::with_capacity(alloc, bytes.len() / 8)?;
        words.extend_from_bytes(bytes);
        Ok(words)
    }

    /// How many words there are.
    pub fn len(&self) -> usize
        ensures { result ≡ length self.now.words }
    {
        self.len
    }

    /// How many more words there is room for.
    pub fn room(&self) -> usize
        ensures { result ≡ self.now.capacity - length self.now.words }
    {
        self.capacity - self.len
    }

    /// Adds a word after the others.
    pub fn push(&mut self, word: u64)
        requires { length self.old.words < self.old.capacity }
        ensures { self.new ≡ words_of (self.old.words ++ word ∷ []) self.old.capacity }
    {
        self.cells.write(self.base, self.len, word);
        self.len += 1;
    }

    /// Adds words after the others, all at once.
    pub fn extend_from_slice(&mut self, words: &[u64])
        requires { length self.old.words + length words.now ≤ self.old.capacity }
        ensures { self.new ≡ words_of (self.old.words ++ words.now) self.old.capacity }
    {
        self.cells.write_all(self.base, self.len, words);
        self.len += words.len();
    }

    /// Appends the words of these bytes, eight bytes a word with the lowest first.
    pub fn extend_from_bytes(&mut self, bytes: &[u8])
        requires whole { length bytes.now % 8 ≡ 0 }
        requires room { length self.old.words + length bytes.now / 8 ≤ self.old.capacity }
        ensures { self.new
            ≡ words_of (self.old.words ++ packed_into (length bytes.now / 8) bytes.now)
            self.old.capacity }
    {
        let mut rest = bytes;
        while let Some((eight, after)) = rest.split_first_chunk::<8>() {
            self.push(u64::from_le_bytes(*eight));
            rest = after;
        }
    }

    /// Replaces a word by another.
    pub fn set(&mut self, at: usize, word: u64)
        requires { at < length self.old.words }
        ensures { self.new ≡ words_of (slice_set self.old.words at word) self.old.capacity }
    {
        self.cells.write(self.base, at, word);
    }

    /// The word at a place.
    pub fn get(&self, at: usize) -> u64
        requires { at < length self.now.words }
        ensures { result ≡ slice_index self.now.words at }
    {
        self.as_slice()[at]
    }

    /// The words, to read.
    pub fn as_slice(&self) -> &[u64]
        ensures { result.now ≡ self.now.words }
    {
        self.cells.slice(self.base, 0, self.len)
    }

    /// The words from `from` on as bytes, as many as `out` has room for: each as eight bytes, the
    /// lowest first.
    pub fn bytes_into(&self, from: usize, out: &mut [u8])
        requires whole { length out.old % 8 ≡ 0 }
        requires within { from + length out.old / 8 ≤ length self.now.words }
        ensures { out.new ≡ word_bytes
            (slice_range self.now.words from (from + length out.old / 8)) }
    {
        let words = &self.as_slice()[from..from + out.len() / 8];
        write_words(words, out);
    }
}

impl Drop for WordBuf {
    fn drop(self) {
        let WordBuf {
            base,
            cells,
            deed,
            alloc,
            len: _,
            capacity,
        } = self;
        deallocate(&alloc, base, capacity, cells, deed);
    }
}

impl Debug for WordBuf {
    fn fmt<W: Write>(&self, f: &mut Formatter<W>) -> fmt::Result {
        f.debug_list().entries(self.as_slice()).finish()
    }
}

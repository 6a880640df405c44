//! The sections of a record, which grow side by side while a class file is read once.
ghost use Rattle.std.specs.Prelude.{◌≡◌, ◌∷◌, [], ◌++◌, IfSome};
ghost use Rattle.cm_record_layout.specs.Packing.{packed};

use crate::runs::push_run;
use cm_record_layout::{DIRECTORY_AT, HEAD_ATTRIBUTES_AT, HEAD_RUNS_AT, HEAD_TOTAL, run_words};
use cm_words::WordBuf;
use std::alloc::Global;

/// An empty buffer with room for this many words.
fn room_for(alloc: Global, count: u64) -> Option<WordBuf>
    ensures { IfSome result (λ words. words.words ≡ []) }
{
    WordBuf::with_capacity(alloc, count as usize).ok()
}

/// Adds words after the others, if there is room.
fn append(words: &mut WordBuf, more: &[u64]) -> Option<()>
    ensures { IfSome result (λ _. words.new.words ≡ words.old.words ++ more.now) }
{
    // No words are always added.
    if more.is_empty() {
        return Some(());
    }
    if words.room() < more.len() {
        return None;
    }
    words.extend_from_slice(more);
    Some(())
}

/// The words of a record: those up to the members, those of the attributes, and the runs. The two
/// offsets are where the last two will begin.
#[derive(Drop)]
pub(crate) struct Sections {
    pub words: WordBuf,
    pub attributes: WordBuf,
    pub runs: WordBuf,
    pub attributes_at: u64,
    pub runs_at: u64,
}

impl Sections {
    ghost use Rattle.std.specs.Prelude.{◌≡◌, ◌∷◌, [], ◌++◌, get_or, IfSome};
    ghost use Rattle.cm_record_layout.specs.Packing.{packed};
    ghost use Rattle.cm_record_laying.specs.Laying.{Adds, next_run, next_attribute};

    /// The sections of a record with this head, which says how long they are. The first one begins
    /// with the head.
    pub(crate) fn with_head(alloc: Global, head: &[u64; DIRECTORY_AT]) -> Option<Sections>
        ensures words { IfSome result (λ s. s.words.words ≡ head.now) }
        ensures attributes { IfSome result (λ s. s.attributes.words ≡ []) }
        ensures runs { IfSome result (λ s. s.runs.words ≡ []) }
        ensures attributes_at { IfSome result (λ s. s.attributes_at ≡ get_or head.now 6 0) }
        ensures runs_at { IfSome result (λ s. s.runs_at ≡ get_or head.now 7 0) }
    {
        let (total, attributes_at, runs_at) = (
            head[HEAD_TOTAL],
            head[HEAD_ATTRIBUTES_AT],
            head[HEAD_RUNS_AT],
        );
        let mut words = room_for(alloc, total)?;
        append(&mut words, head)?;
        Some(Sections {
            words,
            attributes: room_for(alloc, runs_at.saturating_sub(attributes_at))?,
            runs: room_for(alloc, total.saturating_sub(runs_at))?,
            attributes_at,
            runs_at,
        })
    }

    /// The words of all sections, one after another, if there is room.
    pub(crate) fn join(self) -> Option<WordBuf>
        ensures { IfSome result (λ w. w.words
            ≡ self.words.words ++ self.attributes.words ++ self.runs.words) }
    {
        let Sections {
            mut words,
            attributes,
            runs,
            ..
        } = self;
        append(&mut words, attributes.as_slice())?;
        append(&mut words, runs.as_slice())?;
        Some(words)
    }

    /// Where the run that is added next begins.
    pub(crate) fn next_run(&self) -> Option<u32>
        ensures { IfSome result (λ at. at ≡ next_run self.now) }
    {
        let at = self.runs_at.checked_add(self.runs.len() as u64)?;
        u32::try_from(at).ok()
    }

    /// Where the attribute that is added next begins.
    pub(crate) fn next_attribute(&self) -> Option<u64>
        ensures { IfSome result (λ at. at ≡ next_attribute self.now) }
    {
        self.attributes_at.checked_add(self.attributes.len() as u64)
    }

    /// Adds a word to the first section, if there is room.
    pub(crate) fn push_word(&mut self, word: u64) -> Option<()>
        ensures { IfSome result (λ _. Adds self.old self.new (word ∷ []) [] []) }
    {
        if self.words.room() == 0 {
            return None;
        }
        self.words.push(word);
        Some(())
    }

    /// Adds the two words of an attribute, if there is room.
    pub(crate) fn push_attribute(&mut self, word: u64, at: u64) -> Option<()>
        ensures { IfSome result (λ _. Adds self.old self.new [] (word ∷ at ∷ []) []) }
    {
        if self.attributes.room() < 2 {
            return None;
        }
        self.attributes.push(word);
        self.attributes.push(at);
        Some(())
    }

    /// Adds the run of these bytes, if there is room.
    pub(crate) fn push_run(&mut self, bytes: &[u8]) -> Option<()>
        ensures { IfSome result (λ _. Adds self.old self.new [] [] (packed bytes.now)) }
    {
        // An empty run takes no word.
        if bytes.is_empty() {
            return Some(());
        }
        if (self.runs.room() as u64) < run_words(bytes.len()) {
            return None;
        }
        push_run(&mut self.runs, bytes);
        Some(())
    }
}

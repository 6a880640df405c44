//! What is known about the record of a row while a file is opened.

ghost use Rattle.std.specs.Prelude.{Option, List, ℕ, Some};
ghost use Rattle.cm_verdict.specs.Judging.{IsTaken, IsJudged};

use crate::record::read_record;
use crate::words::{KeptRecord, TakenWords};
use std::alloc::Global;
use std::mem;

/// What is known about a row's record.
#[derive(Drop)]
pub enum RowRecord {
    /// The row is a loader's, or the place of its class isn't in a whole root.
    Absent,
    /// Its words, which aren't judged yet.
    Taken(TakenWords),
    /// The words are the record of a class that keeps the class rules.
    Kept(KeptRecord),
    /// The words are no such record.
    Broken,
    /// An allocation failed while they were judged.
    NoMemory,
}

impl TakenWords {
    // Spells the class in the buffer if a look at the words doesn't show that it keeps the rules.
    fn judged(self, alloc: Global, buffer: &mut Vec<u8>) -> RowRecord
        ensures { IsJudged (Some self.words.words) result }
    {
        match read_record(alloc, buffer, self.into_words()) {
            Ok(Some(record)) => RowRecord::Kept(KeptRecord::new(record)),
            Ok(None) => RowRecord::Broken,
            Err(_) => RowRecord::NoMemory,
        }
    }
}

impl RowRecord {
    /// Judges its words, if there are any. The contents of the buffer are overwritten: one serves
    /// for any number of records.
    pub(crate) fn judge(&mut self, alloc: Global, buffer: &mut Vec<u8>)
        ensures { (words : Option (List ℕ)) → IsTaken words self.old → IsJudged words self.new }
    {
        *self = match mem::replace(self, RowRecord::Absent) {
            RowRecord::Taken(words) => words.judged(alloc, buffer),
            known => known,
        };
    }
}

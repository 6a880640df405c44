//! Which indexes of a record's pool lead to given bytes, found in one pass over the pool.
ghost use Rattle.std.specs.Prelude.{◌≡◌, get_or, false};
ghost use Rattle.cm_record_layout.specs.Layout.{IsRecord};
ghost use Rattle.cm_record.specs.Members.{AreMarksOf};

use crate::constant::{constant_at, is_next_second};
use crate::utf8::is_utf8;
use cm_record_layout::{DIRECTORY_AT, HEAD_COUNTS, first};

/// How many indexes a pool may have.
const INDEXES: usize = 65_536;

/// For each index, whether it has a Utf8 of some bytes.
#[derive(Drop)]
pub(crate) struct Marks {
    leads: [bool; INDEXES],
}

impl Marks {
    /// The marks of these bytes. Each Utf8 of as many bytes is compared once.
    pub(crate) fn of(words: &[u64], bytes: &[u8]) -> Marks
        requires { IsRecord words.now }
        ensures { AreMarksOf words.now bytes.now result.leads }
    {
        let mut leads = [false; INDEXES];
        let mut is_second = false; // at index 1, since word 8 is 0
        for index in 1..first(words[HEAD_COUNTS]) {
            leads[index as usize] = is_utf8(words, constant_at(words, index, is_second), bytes);
            is_second = is_next_second(words[DIRECTORY_AT + index as usize], is_second);
        }
        Marks { leads }
    }

    /// Whether the index has a Utf8 of the bytes.
    pub(crate) fn has(&self, index: u16) -> bool
        ensures { result ≡ get_or self.now.leads index false }
    {
        self.leads[index as usize]
    }
}

//! The words of a record, before and after they are judged.

ghost use Rattle.std.specs.Prelude.{◌≡◌, ◌≤◌, length, is_some, true};
ghost use Rattle.cm_record_layout.specs.Layout.{limit};
ghost use Rattle.cm_verdict.specs.Verdict.{class_kept};

use cm_record::Record;
use cm_words::WordBuf;

/// The words at the place of a record: at most as many as a record may have.
#[derive(Drop)]
pub struct TakenWords {
    words: WordBuf,
    ghost short: { length words.words ≤ limit },
}

/// The record of a class that keeps the class rules.
#[derive(Drop)]
pub struct KeptRecord {
    content: Record,
    ghost kept: { is_some (class_kept content) ≡ true },
}

impl TakenWords {
    pub(crate) fn new(words: WordBuf) -> TakenWords
        requires { length words.words ≤ limit }
        ensures { result.words ≡ words }
    {
        TakenWords { words }
    }

    pub(crate) fn into_words(self) -> WordBuf
        ensures same { result ≡ self.words }
        ensures short { length result.words ≤ limit }
    {
        self.words
    }
}

impl KeptRecord {
    pub(crate) fn new(content: Record) -> KeptRecord
        requires { is_some (class_kept content) ≡ true }
        ensures { result.content ≡ content }
    {
        KeptRecord { content }
    }

    pub(crate) fn into_record(self) -> Record
        ensures same { result ≡ self.content }
        ensures kept { is_some (class_kept result) ≡ true }
    {
        self.content
    }
}

//! The records of classes that keep the class rules.

ghost use Rattle.std.specs.Prelude.{◌≡◌, ◌≤◌, length, IfOk, is_some, is_none};
ghost use Rattle.cm_record_layout.specs.Layout.{limit};
ghost use Rattle.cm_rules.specs.Fault.{fault};
ghost use Rattle.cm_verdict.specs.Verdict.{class_kept};
ghost use Rattle.cm_verdict.specs.Kept.{IsKeptRecord};

use cm_class::{Class, class_of_spelling};
use cm_record::{Record, RecordFault};
use cm_record_reading::{is_record, spell_class};
use cm_record_rules::judge_words;
use cm_rules::first_fault;
use cm_words::WordBuf;
use std::alloc::{AllocError, Global};

// Whether a class keeps the class rules.
fn keeps_rules(alloc: Global, class: &Class) -> Result<bool, AllocError>
    ensures { IfOk result (λ kept. kept ≡ is_none (fault class.now)) }
{
    let broken = first_fault(alloc, class)?;
    Ok(broken.is_none())
}

// Whether these words are the record of a class that keeps the class rules. The class is judged
// over the words; only if they don't show that it keeps the rules is it spelled in the buffer.
fn are_kept(alloc: Global, buffer: &mut Vec<u8>, words: &[u64]) -> Result<bool, AllocError>
    requires { length words.now ≤ limit }
    ensures { IfOk result (λ kept. kept ≡ is_some (class_kept words.now)) }
{
    if !is_record(words) {
        return Ok(false);
    }
    // Nearly every class keeps the rules, which the words alone show.
    if judge_words(alloc, buffer, words) {
        return Ok(true);
    }
    match spell_class(words, buffer) {
        Ok(()) => {
            let class = class_of_spelling(alloc, buffer)?;
            keeps_rules(alloc, &class)
        }
        Err(RecordFault::NotARecord) => Ok(false),
        Err(RecordFault::NoMemory) => Err(AllocError),
    }
}

/// The record of these words, if they are that of a class that keeps the class rules; it keeps
/// their buffer. Its class is spelled in `buffer`, whose contents aren't used afterwards: one
/// serves for any number of records.
pub fn read_record(
    alloc: Global,
    buffer: &mut Vec<u8>,
    words: WordBuf,
) -> Result<Option<Record>, AllocError>
    requires { length words.words ≤ limit }
    ensures { IfOk result (IsKeptRecord words.words) }
{
    if !are_kept(alloc, buffer, words.as_slice())? {
        return Ok(None);
    }
    Ok(Some(Record::of_words(words)))
}

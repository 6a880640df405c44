//! Prepares a class's bytes to be defined.

ghost use Rattle.std.specs.Prelude.{◌≡◌, IfOk, IfErr, IfSome, true, None};
ghost use Rattle.cm_class.specs.declared.class_file.ClassFile.{ClassFile};
ghost use Rattle.cm_record.specs.Layout.{lay, IsRecord, IsRecordOf};
ghost use Rattle.cm_rules.specs.Answer.{SpellsRightClass};
ghost use Rattle.cm_rules.specs.Fault.{fault};
ghost use Rattle.cm_commands.specs.Prepare.{IsUnbuilt, IsUnprepared};

use crate::fault::PrepareFault;
use crate::prepared::Prepared;
use cm_class::Class;
use cm_record::{Record, RecordRefusal, build};
use cm_record_laying::lay_file;
use cm_record_rules::judge_words;
use cm_rules::read_class;
use std::alloc::Global;

/// Builds the record of a class that was read.
fn build_record(alloc: Global, class: &Class) -> Result<Record, PrepareFault>
    ensures ok { IfOk result (λ words. words ≡ lay class.now) }
    ensures refused { IfErr result (IsUnbuilt class.now) }
{
    match build(alloc, class) {
        Ok(record) => Ok(record),
        Err(RecordRefusal::TooLong) => Err(PrepareFault::RecordTooLong),
        Err(RecordRefusal::NoMemory) => Err(PrepareFault::NoMemory),
    }
}

/// Whether the class of a record is found to keep the rules by the record's words alone. `false`
/// says nothing.
fn is_judged_right(alloc: Global, words: &[u64]) -> bool
    requires { IsRecord words.now }
    ensures { result ≡ true → (c : ClassFile) → IsRecordOf c words.now → fault c ≡ None }
{
    // Eight bytes for each word, and one for each constant.
    match Vec::with_capacity(alloc, 9 * words.len()) {
        Ok(mut scratch) => judge_words(alloc, &mut scratch, words),
        Err(_) => false,
    }
}

/// The record of a class's bytes, if its words alone show that the class keeps the rules. `None`
/// says nothing.
fn record_laid(alloc: Global, bytes: &[u8]) -> Option<Record>
    ensures { IfSome result (λ words. (c : ClassFile) × SpellsRightClass bytes.now c
        × (words ≡ lay c)) }
{
    let words = lay_file(alloc, bytes)?;
    if is_judged_right(alloc, words.as_slice()) {
        Some(Record::of_words(words))
    } else {
        None
    }
}

/// Reads a class from its bytes, searches for the first rule that it breaks, and builds its record.
fn record_searched(alloc: Global, bytes: &[u8]) -> Result<Record, PrepareFault>
    ensures ok { IfOk result (λ words. (c : ClassFile) × SpellsRightClass bytes.now c
        × (words ≡ lay c)) }
    ensures refused { IfErr result (IsUnprepared bytes.now) }
{
    let class = read_class(alloc, bytes)?;
    build_record(alloc, &class)
}

/// Builds the record of a class's bytes, which are checked against the rules.
fn record_of_bytes(alloc: Global, bytes: &[u8]) -> Result<Record, PrepareFault>
    ensures ok { IfOk result (λ words. (c : ClassFile) × SpellsRightClass bytes.now c
        × (words ≡ lay c)) }
    ensures refused { IfErr result (IsUnprepared bytes.now) }
{
    // Nearly every class keeps the rules, which the words of its record show.
    match record_laid(alloc, bytes) {
        Some(record) => Ok(record),
        None => record_searched(alloc, bytes),
    }
}

/// Reads a class, checks it against the rules and builds its record. No lock is needed for it.
///
/// It fails, in this order, with `BadClass` for the file's shape, with `BadClass` for the first
/// rule that it breaks, and with `RecordTooLong` if its record is longer than the limit. `NoMemory`
/// is returned only for bytes whose shape has no fault.
pub fn prepare(alloc: Global, bytes: &[u8]) -> Result<Prepared, PrepareFault>
    ensures ok { IfOk result (λ p. (c : ClassFile) × SpellsRightClass bytes.now c × (p ≡ lay c)) }
    ensures refused { IfErr result (IsUnprepared bytes.now) }
{
    let record = record_of_bytes(alloc, bytes)?;
    Ok(Prepared::of_record(alloc, record)?)
}

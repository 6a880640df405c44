//! The sections of a record, each added after the words so far.
ghost use Rattle.std.specs.Prelude.{◌≡◌, ◌≤◌, ◌<◌, ◌+◌, ◌*◌, ◌^◌, ◌++◌, length};
ghost use Rattle.std.specs.List.{AllByRecursion};
ghost use Rattle.cm_class.specs.Spelling.{MemberFits};
ghost use Rattle.cm_record_layout.specs.Packing.{run_words as run_words_of};
ghost use Rattle.cm_record_layout.specs.Layout.{constant_words, constant_run, slot_run, directory};
ghost use Rattle.cm_record_layout.specs.Layout.{utf8_runs, members, member_attributes, attributes};
ghost use Rattle.cm_record_layout.specs.Layout.{attribute_run, attribute_runs, limit};

use crate::runs::push_run;
use cm_class::{Attribute, Attributes, Bytes, Constant, Kind, Member, Slot};
use cm_record_layout::{SECOND, THIRD, four_numbers, run_words, whole_word};
use cm_words::WordBuf;

/// The word of a Utf8 whose run begins at `at`.
fn utf8_word(at: u64, bytes: &[u8]) -> u64
    requires { at + run_words_of (length bytes.now) ≤ limit }
    ensures { result ≡ 1 + 2 ^ 16 * length bytes.now + 2 ^ 32 * at }
{
    u64::from(Kind::Utf8.tag()) + SECOND * bytes.len() as u64 + THIRD * at
}

/// Adds a constant's words in the directory, if its run begins at `at`.
fn push_constant(words: &mut WordBuf, at: u64, constant: &Constant<Bytes>)
    requires short { at + length (constant_run constant.now) ≤ limit }
    requires room { length words.old.words + length (constant_words at constant.now)
        ≤ words.old.capacity }
    ensures words { words.new.words ≡ words.old.words ++ constant_words at constant.now }
    ensures capacity { words.new.capacity ≡ words.old.capacity }
{
    match constant {
        Constant::Utf8(bytes) => words.push(utf8_word(at, bytes.as_slice())),
        Constant::Long(bits) | Constant::Double(bits) => {
            words.push(whole_word(constant));
            words.push(*bits);
        }
        _ => words.push(whole_word(constant)),
    }
}

/// How many words a constant's run takes.
fn constant_run_words(constant: &Constant<Bytes>) -> u64
    ensures { result ≡ length (constant_run constant.now) }
{
    match constant {
        Constant::Utf8(bytes) => run_words(bytes.as_slice().len()),
        _ => 0,
    }
}

/// How many words a slot's run takes.
pub(crate) fn slot_run_words(slot: &Slot) -> u64
    ensures { result ≡ length (slot_run slot.now) }
{
    match slot {
        Slot::Usable(constant) => constant_run_words(constant),
        Slot::Unusable => 0,
    }
}

/// Adds the slots' words in the directory, if the first run begins at `at`.
pub(crate) fn push_directory(words: &mut WordBuf, at: u64, slots: &[Slot])
    requires short { at + length (utf8_runs slots.now) ≤ limit }
    requires room { length words.old.words + length (directory at slots.now) ≤ words.old.capacity }
    ensures words { words.new.words ≡ words.old.words ++ directory at slots.now }
    ensures capacity { words.new.capacity ≡ words.old.capacity }
{
    let mut at = at;
    for slot in slots {
        if let Slot::Usable(constant) = slot {
            push_constant(words, at, constant);
            at += constant_run_words(constant);
        }
    }
}

/// Adds the runs of the constant pool.
pub(crate) fn push_utf8_runs(words: &mut WordBuf, slots: &[Slot])
    requires { length words.old.words + length (utf8_runs slots.now) ≤ words.old.capacity }
    ensures words { words.new.words ≡ words.old.words ++ utf8_runs slots.now }
    ensures capacity { words.new.capacity ≡ words.old.capacity }
{
    for slot in slots {
        if let Slot::Usable(Constant::Utf8(bytes)) = slot {
            push_run(words, bytes.as_slice());
        }
    }
}

/// Adds the interfaces, one word each.
pub(crate) fn push_interfaces(words: &mut WordBuf, interfaces: &[u16])
    requires { length words.old.words + length interfaces.now ≤ words.old.capacity }
    ensures words { words.new.words ≡ words.old.words ++ interfaces.now }
    ensures capacity { words.new.capacity ≡ words.old.capacity }
{
    for interface in interfaces {
        words.push(u64::from(*interface));
    }
}

/// Adds members; the attributes of the first begin at `at`. Returns where those of the next member
/// would begin.
pub(crate) fn push_members(words: &mut WordBuf, at: u64, these: &[Member]) -> u64
    requires fit { AllByRecursion MemberFits these.now }
    requires short { at + 2 * length (member_attributes these.now) ≤ limit }
    requires room { length words.old.words + length (members at these.now) ≤ words.old.capacity }
    ensures words { words.new.words ≡ words.old.words ++ members at these.now }
    ensures capacity { words.new.capacity ≡ words.old.capacity }
    ensures next { result ≡ at + 2 * length (member_attributes these.now) }
{
    let mut at = at;
    for member in these {
        let count = member.attributes().len();
        words.push(four_numbers(member.flags, member.name, member.descriptor, count as u16));
        words.push(at);
        at += 2 * count as u64;
    }
    at
}

/// How many words an attribute's run takes.
#[tactic(auto, using(cm_record_layout::proofs::packed_len))]
pub(crate) fn attribute_run_words(attribute: &Attribute) -> u64
    ensures { result ≡ length (attribute_run attribute.now) }
{
    run_words(attribute.content().len())
}

/// The word of an attribute's name and length.
#[tactic(auto, using(cm_record_layout::proofs::packed_len))]
fn attribute_word(attribute: &Attribute) -> u64
    requires { length (attribute_run attribute.now) ≤ limit }
    ensures { result ≡ attribute.now.name + 2 ^ 32 * length attribute.now.bytes }
{
    u64::from(attribute.name) + THIRD * attribute.content().len() as u64
}

/// Adds attributes; the run of the first begins at `at`. Returns where the run of the next one
/// would begin.
pub(crate) fn push_attributes(words: &mut WordBuf, at: u64, these: &Attributes) -> u64
    requires short { at + length (attribute_runs these.now) ≤ limit }
    requires room { length words.old.words + length (attributes at these.now) ≤ words.old.capacity }
    ensures words { words.new.words ≡ words.old.words ++ attributes at these.now }
    ensures capacity { words.new.capacity ≡ words.old.capacity }
    ensures next { result ≡ at + length (attribute_runs these.now) }
{
    let mut at = at;
    let mut rest = these.iter();
    while let Some(attribute) = rest.next() {
        words.push(attribute_word(&attribute));
        words.push(at);
        at += attribute_run_words(&attribute);
    }
    at
}

/// Adds the runs of attributes.
pub(crate) fn push_attribute_runs(words: &mut WordBuf, these: &Attributes)
    requires { length words.old.words + length (attribute_runs these.now) ≤ words.old.capacity }
    ensures words { words.new.words ≡ words.old.words ++ attribute_runs these.now }
    ensures capacity { words.new.capacity ≡ words.old.capacity }
{
    let mut rest = these.iter();
    while let Some(attribute) = rest.next() {
        push_run(words, attribute.content());
    }
}

//! Spelling the class of a whole record.
ghost use Rattle.std.specs.Prelude.{◌≡◌, ◌≤◌, ◌+◌, ◌↔◌, length, slice_index, IsTrue, IfOk, IsErrOf};
ghost use Rattle.cm_class.specs.declared.class_file.ClassFile.{ClassFile};
ghost use Rattle.cm_class.specs.Spelling.{spell};
ghost use Rattle.cm_record_layout.specs.Layout.{limit, IsRecord, IsRecordOf};
ghost use Rattle.cm_record_reading.specs.Reading.{Gives, head_is_right as head_is_right_of};
ghost use Rattle.cm_record_reading.specs.Reading.{is_counted as is_counted_of};
ghost use Rattle.cm_record_reading.specs.Reading.{has_directory as has_directory_of};
ghost use Rattle.cm_record_reading.specs.Reading.{sections_follow as sections_follow_of};
ghost use Rattle.cm_record_reading.specs.Reading.{sections_lie_within as sections_lie_within_of};
ghost use Rattle.cm_record_reading.specs.Reading.{sections_end as sections_end_of, pool_of};
ghost use Rattle.cm_record_reading.specs.Reading.{body_from, class_at, pool_behind, body_behind};
ghost use Rattle.cm_record_reading.specs.Reading.{class_behind};
ghost use Rattle.cm_record_layout.specs.Packing.{first_of};

use crate::fault::RecordFault;
use crate::spelling::{put_u16, spell_attributes, spell_interfaces, spell_members, spell_slots};
use cm_class::HEADING;
use cm_record_layout::{
    DIRECTORY_AT, HEAD_ATTRIBUTES_AT, HEAD_CLASS, HEAD_COUNTS, HEAD_DIRECTORY_AT,
    HEAD_INTERFACES_AT, HEAD_MEMBERS_AT, HEAD_RUNS_AT, HEAD_TOTAL, SLOT_1_AT, first, fourth,
    second, third, words_from,
};

/// The head and slot 0 are there, and the head's total is the number of words.
fn is_counted(words: &[u64]) -> bool
    ensures test { result ≡ is_counted_of words.now }
    ensures long { IsTrue result → 9 ≤ length words.now }
{
    words.len() >= SLOT_1_AT && words[HEAD_TOTAL] == words.len() as u64
}

/// The directory begins after the head, with its slot 0.
fn has_directory(words: &[u64]) -> bool
    requires { 9 ≤ length words.now }
    ensures test { result ≡ has_directory_of words.now }
    ensures slots { IsTrue result → 1 ≤ first_of (slice_index words.now 2) }
{
    words[HEAD_DIRECTORY_AT] == DIRECTORY_AT as u64
        && words[DIRECTORY_AT] == 0
        && first(words[HEAD_COUNTS]) >= 1
}

/// Each next section begins where the one before it ends, as far as the counts determine it.
fn sections_follow(words: &[u64]) -> bool
    requires { 9 ≤ length words.now }
    ensures { result ≡ sections_follow_of words.now }
{
    let (class, counts) = (words[HEAD_CLASS], words[HEAD_COUNTS]);
    let members = u64::from(second(counts)) + u64::from(third(counts));
    words[HEAD_INTERFACES_AT] == DIRECTORY_AT as u64 + u64::from(first(counts))
        && words[HEAD_MEMBERS_AT] == words[HEAD_INTERFACES_AT] + u64::from(fourth(class))
        && words[HEAD_ATTRIBUTES_AT] == words[HEAD_MEMBERS_AT] + 2 * members
}

/// The last sections begin within the words.
fn sections_lie_within(words: &[u64]) -> bool
    requires { 9 ≤ length words.now }
    ensures test { result ≡ sections_lie_within_of words.now }
    ensures attributes { IsTrue result → slice_index words.now 6 ≤ length words.now }
    ensures runs { IsTrue result → slice_index words.now 7 ≤ length words.now }
{
    let total = words.len() as u64;
    words[HEAD_ATTRIBUTES_AT] <= total && words[HEAD_RUNS_AT] <= total
}

/// The numbers in the first words, and where the sections begin, fit together.
pub(crate) fn head_is_right(words: &[u64]) -> bool
    ensures test { result ≡ head_is_right_of words.now }
    ensures long { IsTrue result → 9 ≤ length words.now }
    ensures slots { IsTrue result → 1 ≤ first_of (slice_index words.now 2) }
    ensures attributes { IsTrue result → slice_index words.now 6 ≤ length words.now }
    ensures runs { IsTrue result → slice_index words.now 7 ≤ length words.now }
{
    is_counted(words)
        && has_directory(words)
        && sections_follow(words)
        && sections_lie_within(words)
}

/// How many fields, methods and attributes a class has of its own.
#[derive(Clone, Copy)]
pub(crate) struct Counts {
    pub fields: u16,
    pub methods: u16,
    pub attributes: u16,
}

impl Counts {
    ghost use Rattle.std.specs.Prelude.{◌≡◌};
    ghost use Rattle.cm_record_layout.specs.Packing.{second_of, third_of, fourth_of};

    /// Those in the head's word of counts.
    pub(crate) fn of(word: u64) -> Counts
        ensures fields { result.fields ≡ second_of word }
        ensures methods { result.methods ≡ third_of word }
        ensures attributes { result.attributes ≡ fourth_of word }
    {
        Counts {
            fields: second(word),
            methods: third(word),
            attributes: fourth(word),
        }
    }
}

/// Each section ended where the next began.
pub(crate) fn sections_end(words: &[u64], main: &[u64], attributes: &[u64], runs: &[u64]) -> bool
    requires long { 9 ≤ length words.now }
    requires attributes { slice_index words.now 6 ≤ length words.now }
    requires runs { slice_index words.now 7 ≤ length words.now }
    ensures { result ≡ sections_end_of words.now main.now attributes.now runs.now }
{
    main.len() == words.len() - words[HEAD_ATTRIBUTES_AT] as usize
        && attributes.len() == words.len() - words[HEAD_RUNS_AT] as usize
        && runs.is_empty()
}

/// The heading, the pool, the flags, the two classes and the interfaces, and what is left after the
/// interfaces and after the pool's runs.
fn spell_pool<'a>(
    words: &'a [u64],
    out: &mut Vec<u8>,
) -> Result<(&'a [u64], &'a [u64]), RecordFault>
    requires short { length words.now ≤ limit }
    requires long { 9 ≤ length words.now }
    requires slots { 1 ≤ first_of (slice_index words.now 2) }
    requires runs { slice_index words.now 7 ≤ length words.now }
    ensures read { Gives (λ x. (out.new.items, x.0.now, x.1.now)) result
        (pool_behind out.old.items words.now (pool_of words.now)) }
    ensures suffix { IfOk result (λ x. length x.1.now ≤ length words.now) }
{
    let (class, counts) = (words[HEAD_CLASS], words[HEAD_COUNTS]);
    let runs = words_from(words, words[HEAD_RUNS_AT] as usize);
    out.extend_from_slice(&HEADING)?;
    put_u16(first(counts), out)?;
    let count = usize::from(first(counts)) - 1;
    let (main, runs) = spell_slots(words.len(), count, words_from(words, SLOT_1_AT), runs, out)?;
    put_u16(first(class), out)?;
    put_u16(second(class), out)?;
    put_u16(third(class), out)?;
    let main = spell_interfaces(fourth(class), main, out)?;
    Ok((main, runs))
}

/// The fields, methods and attributes of the class, as many as `counts` says, and what is left
/// after each section.
fn spell_body<'a, 'b, 'c>(
    total: usize,
    counts: Counts,
    main: &'a [u64],
    attributes: &'b [u64],
    runs: &'c [u64],
    out: &mut Vec<u8>,
) -> Result<(&'a [u64], &'b [u64], &'c [u64]), RecordFault>
    requires attributes { length attributes.now ≤ total }
    requires runs { length runs.now ≤ total }
    ensures { Gives (λ x. (out.new.items, x.0.now, x.1.now, x.2.now)) result
        (body_behind out.old.items (body_from total counts.fields counts.methods counts.attributes
        main.now attributes.now runs.now)) }
{
    let (main, attributes, runs) = spell_members(
        total,
        counts.fields,
        main,
        attributes,
        runs,
        out,
    )?;
    let (main, attributes, runs) = spell_members(
        total,
        counts.methods,
        main,
        attributes,
        runs,
        out,
    )?;
    let (attributes, runs) = spell_attributes(total, counts.attributes, attributes, runs, out)?;
    Ok((main, attributes, runs))
}

/// Appends to the buffer the spelling of the class that has these words as its layout.
fn spell_words(words: &[u64], out: &mut Vec<u8>) -> Result<(), RecordFault>
    requires { length words.now ≤ limit }
    ensures { Gives (λ _. out.new.items) result (class_behind out.old.items (class_at words.now)) }
{
    if !head_is_right(words) {
        return Err(RecordFault::NotARecord);
    }
    let (main, runs) = spell_pool(words, out)?;
    let attributes = words_from(words, words[HEAD_ATTRIBUTES_AT] as usize);
    let counts = Counts::of(words[HEAD_COUNTS]);
    let (main, attributes, runs) = spell_body(words.len(), counts, main, attributes, runs, out)?;
    if !sections_end(words, main, attributes, runs) {
        return Err(RecordFault::NotARecord);
    }
    Ok(())
}

/// Replaces the buffer's content with the spelling of the class that has these words as its record.
/// Returns `NotARecord` only if there is no such class, and `NoMemory` only if an allocation
/// failed; what the buffer holds after an error is unspecified.
pub fn spell_class(words: &[u64], out: &mut Vec<u8>) -> Result<(), RecordFault>
    requires { length words.now ≤ limit }
    ensures ok { IfOk result (λ _. (c : ClassFile) × IsRecordOf c words.now
        × (out.new.items ≡ spell c)) }
    ensures not_a_record { IsErrOf result RecordFault.NotARecord → IsRecord words.now → ⊥ }
{
    out.clear();
    spell_words(words, out)
}

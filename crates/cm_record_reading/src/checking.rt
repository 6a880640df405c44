//! Checking whether words are a record, without allocating: the walk of `spelling`, but keeping
//! nothing.
ghost use Rattle.std.specs.Prelude.{◌≡◌, ◌≤◌, length, false, ◌↔◌, IfSome, IsTrue, is_some};
ghost use Rattle.cm_record_layout.specs.Layout.{limit, IsRecord};
ghost use Rattle.cm_record_reading.specs.Reading.{LeavesRest, left1, left2, left3, width_left};
ghost use Rattle.cm_record_reading.specs.Reading.{run_at};
ghost use Rattle.cm_record_reading.specs.Reading.{constant_at, slots_at, interfaces_from};
ghost use Rattle.cm_record_reading.specs.Reading.{attribute_at, attributes_from, member_at};
ghost use Rattle.cm_record_reading.specs.Reading.{members_from, pool_from, pool_left, body_from};
ghost use Rattle.cm_record_reading.specs.Reading.{body_left, class_at};

use crate::entry::{DirectoryEntry, attribute_word, entry_at};
use crate::whole::{Counts, head_is_right, sections_end};
use cm_record_layout::{
    HEAD_ATTRIBUTES_AT, HEAD_CLASS, HEAD_COUNTS, HEAD_RUNS_AT, MAX_WORDS, SECOND, SLOT_1_AT,
    bytes_of, first, fourth, second, third, upper, word_of, words_from,
};

/// The words after a run of `count` bytes. Whole words may be any: only the last one is looked at,
/// if the run doesn't fill it.
fn skip_run(count: usize, words: &[u64]) -> Option<&[u64]>
    ensures left { LeavesRest (λ x. x.now) result (left1 (run_at count words.now)) }
    ensures suffix { IfSome result (λ x. length x.now ≤ length words.now) }
{
    let rest = words.get(count / 8..)?;
    let left = count % 8;
    if left == 0 {
        return Some(rest);
    }
    let [word, behind @ ..] = rest else {
        return None;
    };
    let eight = bytes_of(*word);
    if word_of(&eight[..left]) != *word {
        return None;
    }
    Some(behind)
}

/// Whether a constant is wide, and what is left after it.
#[tactic(auto, unfolding(crate::specs::Reading::constant_at))]
fn skip_constant<'a, 'b>(
    total: usize,
    main: &'a [u64],
    runs: &'b [u64],
) -> Option<(bool, &'a [u64], &'b [u64])>
    requires short { total ≤ limit }
    requires suffix { length runs.now ≤ total }
    ensures left { LeavesRest
        (λ x. (x.0, x.1.now, x.2.now)) result (width_left (constant_at total main.now runs.now)) }
    ensures suffix { IfSome result (λ x. length x.2.now ≤ length runs.now) }
{
    let [word, main @ ..] = main else {
        return None;
    };
    let at = (total - runs.len()) as u64;
    match entry_at(at, *word)? {
        DirectoryEntry::Utf8(count) => {
            let runs = skip_run(count as usize, runs)?;
            Some((false, main, runs))
        }
        DirectoryEntry::Long => {
            let [bits, main @ ..] = main else {
                return None;
            };
            // Any 64 bits are such a number.
            let _bits = *bits;
            Some((true, main, runs))
        }
        DirectoryEntry::Double => {
            let [bits, main @ ..] = main else {
                return None;
            };
            // Any 64 bits are such a number.
            let _bits = *bits;
            Some((true, main, runs))
        }
        DirectoryEntry::Whole(constant) => Some((constant.is_wide(), main, runs)),
    }
}

/// What is left after `count` slots.
fn skip_slots<'a, 'b>(
    total: usize,
    count: usize,
    main: &'a [u64],
    runs: &'b [u64],
) -> Option<(&'a [u64], &'b [u64])>
    requires short { total ≤ limit }
    requires suffix { length runs.now ≤ total }
    ensures left { LeavesRest
        (λ x. (x.0.now, x.1.now)) result (left2 (slots_at total false count main.now runs.now)) }
    ensures suffix { IfSome result (λ x. length x.1.now ≤ length runs.now) }
{
    let mut second = false;
    let (mut main, mut runs) = (main, runs);
    for _ in 0..count {
        if second {
            second = false;
            continue;
        }
        let (wide, main_behind, runs_behind) = skip_constant(total, main, runs)?;
        second = wide;
        main = main_behind;
        runs = runs_behind;
    }
    if second {
        return None;
    }
    Some((main, runs))
}

/// What is left after `count` interfaces.
fn skip_interfaces(count: usize, words: &[u64]) -> Option<&[u64]>
    ensures { LeavesRest (λ x. x.now) result (left1 (interfaces_from count words.now)) }
{
    let mut rest = words;
    for _ in 0..count {
        let [word, behind @ ..] = rest else {
            return None;
        };
        if *word >= SECOND {
            return None;
        }
        rest = behind;
    }
    Some(rest)
}

/// What is left after an attribute.
#[tactic(auto, unfolding(crate::specs::Reading::attribute_at))]
fn skip_attribute<'a, 'b>(
    total: usize,
    attributes: &'a [u64],
    runs: &'b [u64],
) -> Option<(&'a [u64], &'b [u64])>
    requires { length runs.now ≤ total }
    ensures left { LeavesRest
        (λ x. (x.0.now, x.1.now)) result (left2 (attribute_at total attributes.now runs.now)) }
    ensures suffixes { IfSome result (λ x. (length x.0.now ≤ length attributes.now)
        × (length x.1.now ≤ length runs.now)) }
{
    let [word, at, behind @ ..] = attributes else {
        return None;
    };
    let (name, count) = (first(*word), upper(*word));
    if attribute_word(name, count) != *word || *at != (total - runs.len()) as u64 {
        return None;
    }
    let runs = skip_run(count as usize, runs)?;
    Some((behind, runs))
}

/// What is left after `count` attributes.
fn skip_attributes<'a, 'b>(
    total: usize,
    count: usize,
    attributes: &'a [u64],
    runs: &'b [u64],
) -> Option<(&'a [u64], &'b [u64])>
    requires { length runs.now ≤ total }
    ensures left { LeavesRest
        (λ x. (x.0.now, x.1.now)) result
        (left2 (attributes_from total count attributes.now runs.now)) }
    ensures suffixes { IfSome result (λ x. (length x.0.now ≤ length attributes.now)
        × (length x.1.now ≤ length runs.now)) }
{
    let (mut attributes, mut runs) = (attributes, runs);
    for _ in 0..count {
        let (behind, runs_behind) = skip_attribute(total, attributes, runs)?;
        attributes = behind;
        runs = runs_behind;
    }
    Some((attributes, runs))
}

/// What is left after a member.
#[tactic(auto, using(cm_record_layout::proofs::four_numbers_test), unfolding(crate::specs::Reading::member_at))]
fn skip_member<'a, 'b, 'c>(
    total: usize,
    main: &'a [u64],
    attributes: &'b [u64],
    runs: &'c [u64],
) -> Option<(&'a [u64], &'b [u64], &'c [u64])>
    requires attributes { length attributes.now ≤ total }
    requires runs { length runs.now ≤ total }
    ensures left { LeavesRest
        (λ x. (x.0.now, x.1.now, x.2.now)) result
        (left3 (member_at total main.now attributes.now runs.now)) }
    ensures suffixes { IfSome result (λ x. (length x.1.now ≤ length attributes.now)
        × (length x.2.now ≤ length runs.now)) }
{
    let [word, at, behind @ ..] = main else {
        return None;
    };
    if *at != (total - attributes.len()) as u64 {
        return None;
    }
    let count = fourth(*word) as usize;
    let (attributes, runs) = skip_attributes(total, count, attributes, runs)?;
    Some((behind, attributes, runs))
}

/// What is left after `count` members.
fn skip_members<'a, 'b, 'c>(
    total: usize,
    count: usize,
    main: &'a [u64],
    attributes: &'b [u64],
    runs: &'c [u64],
) -> Option<(&'a [u64], &'b [u64], &'c [u64])>
    requires attributes { length attributes.now ≤ total }
    requires runs { length runs.now ≤ total }
    ensures left { LeavesRest
        (λ x. (x.0.now, x.1.now, x.2.now)) result
        (left3 (members_from total count main.now attributes.now runs.now)) }
    ensures suffixes { IfSome result (λ x. (length x.1.now ≤ length attributes.now)
        × (length x.2.now ≤ length runs.now)) }
{
    let (mut main, mut attributes, mut runs) = (main, attributes, runs);
    for _ in 0..count {
        let (behind, attributes_behind, runs_behind) = skip_member(total, main, attributes, runs)?;
        main = behind;
        attributes = attributes_behind;
        runs = runs_behind;
    }
    Some((main, attributes, runs))
}

/// What is left after the slots of the pool and the interfaces.
#[tactic(auto, unfolding(crate::specs::Reading::pool_from))]
fn skip_pool<'a, 'b>(
    total: usize,
    count: usize,
    interfaces: usize,
    main: &'a [u64],
    runs: &'b [u64],
) -> Option<(&'a [u64], &'b [u64])>
    requires short { total ≤ limit }
    requires suffix { length runs.now ≤ total }
    ensures left { LeavesRest (λ x. (x.0.now, x.1.now)) result
        (pool_left (pool_from total count interfaces main.now runs.now)) }
    ensures suffix { IfSome result (λ x. length x.1.now ≤ length runs.now) }
{
    let (main, runs) = skip_slots(total, count, main, runs)?;
    let main = skip_interfaces(interfaces, main)?;
    Some((main, runs))
}

/// What is left after the fields, methods and attributes of the class, as many as `counts` says.
#[tactic(auto, unfolding(crate::specs::Reading::body_from))]
fn skip_body<'a, 'b, 'c>(
    total: usize,
    counts: Counts,
    main: &'a [u64],
    attributes: &'b [u64],
    runs: &'c [u64],
) -> Option<(&'a [u64], &'b [u64], &'c [u64])>
    requires attributes { length attributes.now ≤ total }
    requires runs { length runs.now ≤ total }
    ensures { LeavesRest (λ x. (x.0.now, x.1.now, x.2.now)) result
        (body_left (body_from total counts.fields counts.methods counts.attributes main.now
        attributes.now runs.now)) }
{
    let (main, attributes, runs) = skip_members(
        total,
        usize::from(counts.fields),
        main,
        attributes,
        runs,
    )?;
    let (main, attributes, runs) = skip_members(
        total,
        usize::from(counts.methods),
        main,
        attributes,
        runs,
    )?;
    let (attributes, runs) = skip_attributes(
        total,
        usize::from(counts.attributes),
        attributes,
        runs,
    )?;
    Some((main, attributes, runs))
}

/// `Some` if each section is there and ends where the next begins.
#[tactic(auto, unfolding(crate::specs::Reading::class_at))]
fn sections_fit(words: &[u64]) -> Option<()>
    requires { length words.now ≤ limit }
    ensures { is_some result ≡ is_some (class_at words.now) }
{
    if !head_is_right(words) {
        return None;
    }
    let total = words.len();
    let (class, counts) = (words[HEAD_CLASS], words[HEAD_COUNTS]);
    let (count, interfaces) = (first(counts) as usize - 1, fourth(class) as usize);
    let runs = words_from(words, words[HEAD_RUNS_AT] as usize);
    let (main, runs) = skip_pool(total, count, interfaces, words_from(words, SLOT_1_AT), runs)?;
    let attributes = words_from(words, words[HEAD_ATTRIBUTES_AT] as usize);
    let (main, attributes, runs) = skip_body(total, Counts::of(counts), main, attributes, runs)?;
    if sections_end(words, main, attributes, runs) {
        Some(())
    } else {
        None
    }
}

/// Whether some class has these words as its record.
pub fn is_record(words: &[u64]) -> bool
    ensures { IsTrue result ↔ IsRecord words.now }
{
    words.len() <= MAX_WORDS as usize && sections_fit(words).is_some()
}

//! The parts of a class's record, each made up of sections.
ghost use Rattle.std.specs.Prelude.{◌≡◌, ◌≤◌, ◌+◌, ◌++◌, ◌∷◌, length};
ghost use Rattle.cm_record_layout.specs.Layout.{head, directory, members, member_attributes};
ghost use Rattle.cm_record_layout.specs.Layout.{attributes, attribute_runs, utf8_runs, all_members};
ghost use Rattle.cm_record_layout.specs.Layout.{all_attributes, attributes_at, runs_at};
ghost use Rattle.cm_record_layout.specs.Layout.{attribute_runs_at, record_len, limit};
ghost use Rattle.cm_record_writing.specs.Places.{ArePlaces};

use crate::places::Places;
use crate::sections::{
    push_attribute_runs, push_attributes, push_directory, push_interfaces, push_members,
    push_utf8_runs,
};
use cm_class::{Class, Member};
use cm_record_layout::{
    DIRECTORY_AT, HEAD_ATTRIBUTES_AT, HEAD_CLASS, HEAD_COUNTS, HEAD_DIRECTORY_AT,
    HEAD_INTERFACES_AT, HEAD_MEMBERS_AT, HEAD_RUNS_AT, HEAD_TOTAL, four_numbers,
};
use cm_words::WordBuf;

/// Adds the attributes of members. Returns where the run of the next attribute would begin.
fn push_member_attributes(words: &mut WordBuf, at: u64, these: &[Member]) -> u64
    requires short { at + length (attribute_runs (member_attributes these.now)) ≤ limit }
    requires room { length words.old.words + length (attributes at (member_attributes these.now))
        ≤ words.old.capacity }
    ensures words { words.new.words ≡ words.old.words
        ++ attributes at (member_attributes these.now) }
    ensures capacity { words.new.capacity ≡ words.old.capacity }
    ensures next { result ≡ at + length (attribute_runs (member_attributes these.now)) }
{
    let mut at = at;
    for member in these {
        at = push_attributes(words, at, &member.attributes());
    }
    at
}

/// Adds the runs of the attributes of members.
fn push_member_runs(words: &mut WordBuf, these: &[Member])
    requires { length words.old.words + length (attribute_runs (member_attributes these.now))
        ≤ words.old.capacity }
    ensures words { words.new.words ≡ words.old.words
        ++ attribute_runs (member_attributes these.now) }
    ensures capacity { words.new.capacity ≡ words.old.capacity }
{
    for member in these {
        push_attribute_runs(words, &member.attributes());
    }
}

/// Adds the head, the first eight words.
pub(crate) fn push_head(words: &mut WordBuf, class: &Class, places: &Places)
    requires places { ArePlaces class.now places.now }
    requires room { length words.old.words + length (head class.now) ≤ words.old.capacity }
    ensures words { words.new.words ≡ words.old.words ++ head class.now }
    ensures capacity { words.new.capacity ≡ words.old.capacity }
{
    class.invariant_holds();
    let interfaces = class.interfaces().len() as u16;
    let slots = (class.slots().len() + 1) as u16;
    let fields = class.fields().len() as u16;
    let methods = class.methods().len() as u16;
    let attributes = class.attributes().len() as u16;
    let mut head = [0; DIRECTORY_AT];
    head[HEAD_TOTAL] = places.len;
    head[HEAD_CLASS] = four_numbers(
        class.flags(),
        class.this_class(),
        class.super_class(),
        interfaces,
    );
    head[HEAD_COUNTS] = four_numbers(slots, fields, methods, attributes);
    head[HEAD_DIRECTORY_AT] = DIRECTORY_AT as u64;
    head[HEAD_INTERFACES_AT] = places.interfaces;
    head[HEAD_MEMBERS_AT] = places.members;
    head[HEAD_ATTRIBUTES_AT] = places.attributes;
    head[HEAD_RUNS_AT] = places.runs;
    words.extend_from_slice(&head);
}

/// Adds the directory, the interfaces and the members.
pub(crate) fn push_pool_and_members(words: &mut WordBuf, class: &Class, places: &Places)
    requires places { ArePlaces class.now places.now }
    requires short { record_len class.now ≤ limit }
    requires room { length words.old.words
        + length ((0 ∷ directory (runs_at class.now) class.now.slots)
        ++ class.now.interfaces ++ members (attributes_at class.now) (all_members class.now))
        ≤ words.old.capacity }
    ensures words { words.new.words ≡ words.old.words
        ++ (0 ∷ directory (runs_at class.now) class.now.slots)
        ++ class.now.interfaces ++ members (attributes_at class.now) (all_members class.now) }
    ensures capacity { words.new.capacity ≡ words.old.capacity }
{
    class.invariant_holds();
    words.push(0);
    push_directory(words, places.runs, class.slots());
    push_interfaces(words, class.interfaces());
    let next = push_members(words, places.attributes, class.fields());
    push_members(words, next, class.methods());
}

/// Adds the attributes and the runs.
pub(crate) fn push_attributes_and_runs(words: &mut WordBuf, class: &Class, places: &Places)
    requires places { ArePlaces class.now places.now }
    requires short { record_len class.now ≤ limit }
    requires room { length words.old.words
        + length (attributes (attribute_runs_at class.now) (all_attributes class.now)
        ++ utf8_runs class.now.slots ++ attribute_runs (all_attributes class.now))
        ≤ words.old.capacity }
    ensures words { words.new.words ≡ words.old.words
        ++ attributes (attribute_runs_at class.now) (all_attributes class.now)
        ++ utf8_runs class.now.slots ++ attribute_runs (all_attributes class.now) }
    ensures capacity { words.new.capacity ≡ words.old.capacity }
{
    let next = push_member_attributes(words, places.attribute_runs, class.fields());
    let next = push_member_attributes(words, next, class.methods());
    push_attributes(words, next, &class.attributes());
    push_utf8_runs(words, class.slots());
    push_member_runs(words, class.fields());
    push_member_runs(words, class.methods());
    push_attribute_runs(words, &class.attributes());
}

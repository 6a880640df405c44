//! Where the sections of a class's record are.
ghost use Rattle.std.specs.Prelude.{◌≡◌, ◌<◌, ◌≤◌, ◌+◌, ◌-◌, ◌*◌, ◌^◌, length, min, IsNone, IfSome};
ghost use Rattle.cm_class.specs.Spelling.{HasSpelling};
ghost use Rattle.cm_record_layout.specs.Layout.{utf8_runs, member_attributes, attribute_runs};
ghost use Rattle.cm_record_layout.specs.Layout.{record_len, lay, limit};

use crate::sections::{attribute_run_words, slot_run_words};
use cm_class::{Attributes, Class, Member, Slot};
use cm_record_layout::{MAX_WORDS, SLOT_1_AT};

/// How many words the runs of the pool take; the greatest u64 means that many or more.
fn utf8_words(slots: &[Slot]) -> u64
    ensures { result ≡ min (length (utf8_runs slots.now)) (2 ^ 64 - 1) }
{
    let mut total: u64 = 0;
    for slot in slots {
        total = total.saturating_add(slot_run_words(slot));
    }
    total
}

/// How many words attributes and their runs take; the greatest u64 means that many or more.
fn attribute_words(these: &Attributes) -> u64
    ensures { result ≡ min (2 * length these.now + length (attribute_runs these.now)) (2 ^ 64 - 1) }
{
    let mut total: u64 = 0;
    let mut rest = these.iter();
    while let Some(attribute) = rest.next() {
        total = total
            .saturating_add(2)
            .saturating_add(attribute_run_words(&attribute));
    }
    total
}

/// How many words members, their attributes and the runs of these take; the greatest u64 means that
/// many or more.
fn member_words(these: &[Member]) -> u64
    ensures { result ≡ min (2 * length these.now + 2 * length (member_attributes these.now)
        + length (attribute_runs (member_attributes these.now))) (2 ^ 64 - 1) }
{
    let mut total: u64 = 0;
    for member in these {
        total = total
            .saturating_add(2)
            .saturating_add(attribute_words(&member.attributes()));
    }
    total
}

/// How many attributes members have.
fn attribute_count(these: &[Member]) -> u64
    requires { length (member_attributes these.now) ≤ limit }
    ensures { result ≡ length (member_attributes these.now) }
{
    let mut total: u64 = 0;
    for member in these {
        total += member.attributes().len() as u64;
    }
    total
}

/// Where the sections of a record begin, and how many words it has.
#[derive(Clone, Copy, Debug)]
pub(crate) struct Places {
    pub interfaces: u64,
    pub members: u64,
    pub attributes: u64,
    pub runs: u64,
    pub attribute_runs: u64,
    pub len: u64,
}

/// How many words the class's record has; the greatest u64 means that many or more.
fn words_of(class: &Class) -> u64
    ensures { result ≡ min (record_len class.now) (2 ^ 64 - 1) }
{
    class.invariant_holds();
    let counted = SLOT_1_AT as u64 + class.slots().len() as u64 + class.interfaces().len() as u64;
    counted
        .saturating_add(utf8_words(class.slots()))
        .saturating_add(member_words(class.fields()))
        .saturating_add(member_words(class.methods()))
        .saturating_add(attribute_words(&class.attributes()))
}

impl Places {
    ghost use Rattle.cm_record_writing.specs.Places.{ArePlaces};

    /// The places in the record of a class; `None` if the record is too long.
    #[tactic(auto, using(cm_record_layout::proofs::lay_len))]
    pub(crate) fn of(class: &Class) -> Option<Places>
        ensures spelled { HasSpelling class.now }
        ensures laid { length (lay class.now) ≡ record_len class.now }
        ensures none { IsNone result → limit < record_len class.now }
        ensures some { IfSome result (λ places. ArePlaces class.now places
            × (record_len class.now ≤ limit)) }
    {
        class.invariant_holds();
        let len = words_of(class);
        if len > MAX_WORDS {
            return None;
        }
        let interfaces = SLOT_1_AT as u64 + class.slots().len() as u64;
        let members = interfaces + class.interfaces().len() as u64;
        let attributes = members + 2 * (class.fields().len() + class.methods().len()) as u64;
        let own = class.attributes().len() as u64;
        let count = attribute_count(class.fields()) + attribute_count(class.methods()) + own;
        let runs = attributes + 2 * count;
        let attribute_runs = runs + utf8_words(class.slots());
        Some(Places {
            interfaces,
            members,
            attributes,
            runs,
            attribute_runs,
            len,
        })
    }
}

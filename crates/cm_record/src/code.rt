//! The code of a method, found in the words of a record.
ghost use Rattle.std.specs.Prelude.{◌≡◌, ◌≤◌, ◌<◌, ◌+◌, ◌*◌, ◌/◌, ◌%◌, ◌^◌, ℕ, List, Some};
ghost use Rattle.std.specs.Prelude.{slice_get, false, length, get_or, IsNone, IfSome};
ghost use Rattle.cm_class.specs.declared.class_file.ClassFile.{ClassFile};
ghost use Rattle.cm_class.specs.declared.class_file.Member.{Member as ClassMember};
ghost use Rattle.cm_class.specs.Names.{names_utf8};
ghost use Rattle.cm_record_layout.specs.Packing.{bytes_of as word_bytes_of, first_of, third_of};
ghost use Rattle.cm_record_layout.specs.Layout.{IsRecord, IsRecordOf, limit};
ghost use Rattle.cm_record.specs.Runs.{IsRunOf, HasRun, attribute_run_at};
ghost use Rattle.cm_record.specs.Members.{IsFirstIndex};
ghost use Rattle.cm_record.specs.Code.{code_name, code_in, u2_at, u4_at, attributes_place};

use crate::marks::Marks;
use crate::run::Run;
use crate::utf8::is_utf8_of;
use cm_record_layout::{HEAD_COUNTS, HEAD_MEMBERS_AT, bytes_of, first, fourth, second, upper};

/// Where the code of a method is (JVMS 4.7.3). Places count bytes from the record's first byte; a
/// byte is eight bits of its word, the lowest first.
#[derive(Clone, Copy, Debug, PartialEq, Eq)]
pub struct Code {
    pub max_stack: u16,
    pub max_locals: u16,
    pub code_at: u32,
    pub code_len: u32,
    /// Eight bytes each: start, end, handler and the index of a Class.
    pub handlers_at: u32,
    pub handlers: u16,
}

/// The name of the code attribute.
const CODE: [u8; 4] = *b"Code";

/// A byte of the run that begins at a word.
pub(crate) fn byte_at(words: &[u64], at: usize, i: usize) -> u8
    requires there { at + i / 8 < length words.now }
    requires small { at + i < 2 ^ 63 }
    ensures { result ≡ get_or (word_bytes_of (get_or words.now (at + i / 8) 0)) (i % 8) 0 }
{
    bytes_of(words[at + i / 8])[i % 8]
}

/// A number of two bytes in a run, the highest first.
fn u2(words: &[u64], run: Run, i: usize) -> u16
    requires run { HasRun words.now run }
    requires within { i + 1 < run.len }
    requires short { length words.now ≤ limit }
    ensures { (bytes : List ℕ) → IsRunOf words.now run bytes → result ≡ u2_at bytes i }
{
    256 * u16::from(byte_at(words, run.at, i)) + u16::from(byte_at(words, run.at, i + 1))
}

/// A number of four bytes in a run, the highest first.
fn u4(words: &[u64], run: Run, i: usize) -> u32
    requires run { HasRun words.now run }
    requires within { i + 3 < run.len }
    requires short { length words.now ≤ limit }
    ensures { (bytes : List ℕ) → IsRunOf words.now run bytes → result ≡ u4_at bytes i }
{
    65_536 * u32::from(u2(words, run, i)) + u32::from(u2(words, run, i + 2))
}

/// The code in a run; `None` if the run ends before its lengths, its code or its handlers do.
pub(crate) fn code_in_run(words: &[u64], run: Run) -> Option<Code>
    requires run { HasRun words.now run }
    requires short { length words.now ≤ limit }
    ensures { (bytes : List ℕ) → IsRunOf words.now run bytes → result ≡ code_in (8 * run.at) bytes }
{
    if run.len < 8 {
        return None;
    }
    let code_len = u4(words, run, 4);
    let before = 10 + code_len as usize;
    if run.len < before {
        return None;
    }
    let handlers = u2(words, run, before - 2);
    if run.len < before + 8 * handlers as usize {
        return None;
    }
    let at = 8 * run.at as u32;
    Some(Code {
        max_stack: u2(words, run, 0),
        max_locals: u2(words, run, 2),
        code_at: at + 8,
        code_len,
        handlers_at: at + 10 + code_len,
        handlers,
    })
}

/// Like [`find_code`], with one pass over the pool, whatever the attributes' indexes are. It stays
/// a function of its own at run time, for the reason given at [`crate::member`].
#[inline(never)]
fn find_code_by_marks(words: &[u64], at: usize, count: usize) -> Option<usize>
    requires record { IsRecord words.now }
    requires within { at + 2 * count ≤ length words.now }
    ensures none { (c : ClassFile) → IsRecordOf c words.now → IsNone result → (k : ℕ) → k < count
        → names_utf8 c (first_of (get_or words.now (at + 2 * k) 0)) code_name ≡ false }
    ensures some { (c : ClassFile) → IsRecordOf c words.now → IfSome result (IsFirstIndex
        (λ k. names_utf8 c (first_of (get_or words.now (at + 2 * k) 0)) code_name) count) }
{
    let names = Marks::of(words, &CODE);
    for index in 0..count {
        if names.has(first(words[at + 2 * index])) {
            return Some(index);
        }
    }
    None
}

/// Which of `count` attributes, whose words begin at `at`, is the first Code. Once it has read as
/// many words as the record has, it searches by marks.
pub(crate) fn find_code(words: &[u64], at: usize, count: usize) -> Option<usize>
    requires record { IsRecord words.now }
    requires within { at + 2 * count ≤ length words.now }
    ensures none { (c : ClassFile) → IsRecordOf c words.now → IsNone result → (k : ℕ) → k < count
        → names_utf8 c (first_of (get_or words.now (at + 2 * k) 0)) code_name ≡ false }
    ensures some { (c : ClassFile) → IsRecordOf c words.now → IfSome result (IsFirstIndex
        (λ k. names_utf8 c (first_of (get_or words.now (at + 2 * k) 0)) code_name) count) }
{
    let mut left = words.len();
    for index in 0..count {
        let name = first(words[at + 2 * index]);
        let Some(is_found) = is_utf8_of(words, name, &CODE, &mut left) else {
            return find_code_by_marks(words, at, count);
        };
        if is_found {
            return Some(index);
        }
    }
    None
}

/// Where the attributes of a method are.
#[derive(Clone, Copy)]
pub(crate) struct Attributes {
    /// The word at which the attributes' words begin, two each.
    pub(crate) at: usize,
    /// How many there are.
    pub(crate) count: usize,
}

/// The attributes of the method at an index.
pub(crate) fn method_attributes(words: &[u64], index: usize) -> Attributes
    requires record { IsRecord words.now }
    requires there { index < third_of (get_or words.now 2 0) }
    ensures attributes { (c : ClassFile) (own : ClassMember) → IsRecordOf c words.now
        → slice_get c.methods index ≡ Some own
        → result ≡ record { at = attributes_place c index; count = length own.attributes } }
    ensures within { result.at + 2 * result.count ≤ length words.now }
{
    let place = words[HEAD_MEMBERS_AT] as usize + 2 * (second(words[HEAD_COUNTS]) as usize + index);
    Attributes {
        at: words[place + 1] as usize,
        count: fourth(words[place]) as usize,
    }
}

/// The run of an attribute, from its two words.
pub(crate) fn attribute_run(words: &[u64], at: usize) -> Run
    requires { at + 1 < length words.now }
    ensures { result ≡ attribute_run_at words.now at }
{
    Run {
        at: words[at + 1] as usize,
        len: upper(words[at]) as usize,
    }
}

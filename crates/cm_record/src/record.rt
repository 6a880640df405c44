//! The record of a class.
ghost use Rattle.std.specs.Prelude.{◌≡◌, ◌≤◌, ◌<◌, ◌↔◌, ◌+◌, ◌*◌, length, get_or, IfOk, OnOk};
ghost use Rattle.std.specs.Prelude.{IsErrOf, IsTrue, ℕ, None, true, false, option_map};
ghost use Rattle.cm_record_writing.specs.declared.refusal.RecordRefusal.TheVariants as refusal;
ghost use Rattle.cm_record_reading.specs.declared.fault.RecordFault.TheVariants as fault;
ghost use Rattle.cm_class.specs.declared.class_file.ClassFile.{ClassFile};
ghost use Rattle.cm_record_layout.specs.Packing.{word_bytes, packed_into, first_of};
ghost use Rattle.cm_record.specs.Names.{class_name_of, super_name_of, IsNameRun};
ghost use Rattle.cm_record.specs.Runs.{HasRun};
ghost use Rattle.cm_record_layout.specs.Layout.{lay, limit, IsRecord, IsRecordOf};
ghost use Rattle.std.specs.Ordering.{nat_cmp};
ghost use Rattle.std.specs.Cmp.Lexicographic.{slice_cmp};
ghost use Rattle.cm_record.specs.Constants.{constant_kept};
ghost use Rattle.cm_record.specs.Fingerprints.{fingerprint};
ghost use Rattle.cm_record.specs.Members.{FindsMember};
ghost use Rattle.cm_record.specs.Code.{HasCode, HasNoCode, code_in, run_place};
ghost use Rattle.cm_class.specs.declared.class_file.Member.{Member as ClassMember};
ghost use Rattle.cm_class.specs.declared.class_file.Attribute.{Attribute};

use crate::code::{Attributes, Code, attribute_run, code_in_run, find_code, method_attributes};
use crate::constant::{Utf8Place, constant_at_index};
use crate::fingerprints::run_fingerprint;
use crate::member::{Member, Members};
use crate::names::name_run;
use crate::order::{cmp_run_to, cmp_runs};
use crate::run::{Run, is_same_run, run_bytes};
use cm_class::{Class, Constant, class_of_spelling};
use cm_record_layout::{
    HEAD_CLASS, HEAD_COUNTS, HEAD_MEMBERS_AT, bytes_tell_words, first, second, third,
};
use cm_record_reading::{RecordFault, is_record, spell_class};
use cm_record_writing::{RecordRefusal, write_class};
use cm_words::WordBuf;
use std::alloc::{AllocError, Global};
use std::cmp::Ordering;
use std::marker::Model;

/// A class as words. Contracts see the list of its words, which are the layout of one class.
#[derive(Debug, Drop)]
pub struct Record {
    words: WordBuf,
    /// Where the bytes of its class's name are. A name is read far more often than anything else of
    /// a record, so it is located once.
    name: Run,
}

impl Model for Record {
    ghost use Rattle.std.specs.Prelude.{List, ℕ};
    ghost use Rattle.cm_record_layout.specs.Layout.{IsRecord};
    ghost use Rattle.cm_record.specs.Names.{IsNameRun};

    ghost Value = { List ℕ };

    ghost view = { λ r. r.words.words };

    ghost invariant = { λ r. IsRecord r.words.words × IsNameRun r.words.words r.name };
}

/// Where the bytes of the class's name are in the words of its record.
fn class_name_run(words: &[u64]) -> Run
    requires { IsRecord words.now }
    ensures { IsNameRun words.now result }
{
    name_run(words, second(words[HEAD_CLASS]))
}

/// The class's record. Returns `TooLong` exactly if its layout has more than 524,288 words.
pub fn build(alloc: Global, class: &Class) -> Result<Record, RecordRefusal>
    ensures ok { IfOk result (λ r. r ≡ lay class.now) }
    ensures too_long { IsErrOf result RecordRefusal.TooLong ↔ (limit < length (lay class.now)) }
{
    let words = write_class(alloc, class)?;
    Ok(Record::of_words(words))
}

impl Record {
    /// Its words, where they are: nothing is copied.
    pub fn as_slice(&self) -> &[u64]
        ensures words { result.now ≡ self.now }
        ensures record { IsRecord result.now }
        ensures directory { 8 + first_of (get_or result.now 2 0) ≤ length result.now }
    {
        self.words.as_slice()
    }

    /// Where the bytes of its class's name are.
    fn name_run(&self) -> Run
        ensures name { IsNameRun self.now result }
        ensures run { HasRun self.now result }
    {
        self.name
    }

    /// The record of these words. Returns `NotARecord` exactly if no class has them as its record,
    /// so `NoMemory` is returned only for the words of a record.
    pub fn read(alloc: Global, words: &[u64]) -> Result<Record, RecordFault>
        ensures ok { IfOk result (λ r. r ≡ words.now) }
        ensures laid { OnOk result (IsRecord words.now) }
        ensures not_a_record { IsErrOf result RecordFault.NotARecord ↔ (IsRecord words.now → ⊥) }
        ensures memory { IsErrOf result RecordFault.NoMemory → IsRecord words.now }
    {
        if !is_record(words) {
            return Err(RecordFault::NotARecord);
        }
        Ok(Record::of_words(WordBuf::from_slice(alloc, words)?))
    }

    /// The record of these words, which are known to be one, so nothing is checked. It keeps the
    /// buffer.
    pub fn of_words(words: WordBuf) -> Record
        requires { IsRecord words.words }
        ensures { result ≡ words.words }
    {
        let name = class_name_run(words.as_slice());
        Record { words, name }
    }

    /// Whether another record has the same words, and so belongs to the same class.
    pub fn has_same_words(&self, other: &Record) -> bool
        ensures { IsTrue result ↔ (self.now ≡ other.now) }
    {
        self.as_slice() == other.as_slice()
    }

    /// Does nothing: its clauses say that the words are a record, and how many there may be.
    pub fn invariant_holds(&self)
        ensures laid { IsRecord self.now }
        ensures short { length self.now ≤ limit }
    {
        let _read = self.words.len(); // reading a field provides the invariant
    }

    /// How many words it has.
    pub fn words(&self) -> u32
        ensures words { result ≡ length self.now }
        ensures short { result ≤ limit }
        ensures laid { IsRecord self.now }
    {
        self.words.len() as u32
    }

    /// Its words, each as eight bytes, the lowest first.
    pub fn bytes_into(&self, out: &mut [u8])
        requires { length out.old ≡ 8 * length self.now }
        ensures bytes { out.new ≡ word_bytes self.now }

        // The bytes determine the words.
        ensures words { packed_into (length self.now) out.new ≡ self.now }
    {
        self.words.bytes_into(0, out);
        bytes_tell_words(self.as_slice());
    }

    /// The bytes of its words determine the words. The function does nothing when it runs.
    pub fn bytes_tell_words(&self)
        ensures { packed_into (length self.now) (word_bytes self.now) ≡ self.now }
    {
        bytes_tell_words(self.as_slice());
    }

    /// The access flags of its class.
    pub fn flags(&self) -> u16
        ensures { (c : ClassFile) → IsRecordOf c self.now → result ≡ c.flags }
    {
        first(self.as_slice()[1])
    }

    /// The constant at an index of the pool, which counts from 1; `None` at 0, at the second index
    /// of a Long or a Double, and past the end of the pool.
    pub fn constant(&self, index: u16) -> Option<Constant<Utf8Place>>
        ensures { (c : ClassFile) → IsRecordOf c self.now → result ≡ constant_kept c index }
    {
        constant_at_index(self.as_slice(), index)
    }

    /// Its class, which borrows the buffer that it is spelled in. What the buffer held before is
    /// lost.
    pub fn to_class<'b>(
        &self,
        alloc: Global,
        buffer: &'b mut Vec<u8>,
    ) -> Result<Class<'b>, AllocError>
        ensures { IfOk result (λ c. IsRecordOf c self.now) }
    {
        match spell_class(self.as_slice(), buffer) {
            Ok(()) => class_of_spelling(alloc, buffer),
            Err(RecordFault::NoMemory) => Err(AllocError),
            Err(RecordFault::NotARecord) => unreachable!(),
        }
    }

    /// The name of its class: the bytes of the Utf8 that this_class leads to; empty if it leads to
    /// no Utf8.
    pub fn class_name(&self, alloc: Global) -> Result<Vec<u8>, AllocError>
        ensures { (c : ClassFile) → IsRecordOf c self.now → IfOk result
            (λ name. name.items ≡ class_name_of c) }
    {
        run_bytes(alloc, self.as_slice(), self.name_run())
    }

    /// The name of the super class, found like that of the class; `None` if there is no super
    /// class.
    pub fn super_name(&self, alloc: Global) -> Result<Option<Vec<u8>>, AllocError>
        ensures { (c : ClassFile) → IsRecordOf c self.now
            → IfOk result (λ name. option_map (λ bytes. bytes.items) name ≡ super_name_of c) }
    {
        let words = self.as_slice();
        let index = third(words[HEAD_CLASS]);
        if index == 0 {
            return Ok(None);
        }
        Ok(Some(run_bytes(alloc, words, name_run(words, index))?))
    }

    /// The first field that has this name and this descriptor. It takes at most 128 KiB of the
    /// stack, and some passes over the words.
    pub fn field(&self, name: &[u8], descriptor: &[u8]) -> Option<Member>
        ensures { (c : ClassFile) → IsRecordOf c self.now
            → FindsMember c c.fields false name.now descriptor.now result }
    {
        let words = self.as_slice();
        let fields = Members {
            is_method: false,
            at: words[HEAD_MEMBERS_AT] as usize,
            count: second(words[HEAD_COUNTS]),
        };
        fields.find(words, name, descriptor)
    }

    /// The first method that has this name and this descriptor, found as [`Record::field`] finds
    /// fields.
    pub fn method(&self, name: &[u8], descriptor: &[u8]) -> Option<Member>
        ensures { (c : ClassFile) → IsRecordOf c self.now
            → FindsMember c c.methods true name.now descriptor.now result }
    {
        let words = self.as_slice();
        let fields = second(words[HEAD_COUNTS]) as usize;
        let methods = Members {
            is_method: true,
            at: words[HEAD_MEMBERS_AT] as usize + 2 * fields,
            count: third(words[HEAD_COUNTS]),
        };
        methods.find(words, name, descriptor)
    }

    /// Where the code of a method is. `None` for a field, if there is no such method, if it has no
    /// attribute Code, and if the first one ends before its lengths, its code or its handlers do.
    /// It reads the method with that index.
    pub fn code(&self, member: &Member) -> Option<Code>
        ensures code { (c : ClassFile) (own : ClassMember) (j : ℕ) (a : Attribute)
            → IsRecordOf c self.now
            → HasCode c member.now own j a
            → result ≡ code_in (8 * run_place c member.now.index own j) a.bytes }
        ensures none { (c : ClassFile) → IsRecordOf c self.now → HasNoCode c member.now
            → result ≡ None }
    {
        if !member.is_method {
            return None;
        }
        let words = self.as_slice();
        if member.index >= third(words[HEAD_COUNTS]) {
            return None;
        }
        let Attributes { at, count } = method_attributes(words, member.index as usize);
        let Some(found) = find_code(words, at, count) else {
            return None;
        };
        code_in_run(words, attribute_run(words, at + 2 * found))
    }

    /// The order of its class's name and of that of another record's class, by their bytes.
    pub fn cmp_name(&self, other: &Record) -> Ordering
        ensures { (c d : ClassFile) → IsRecordOf c self.now → IsRecordOf d other.now
            → result ≡ slice_cmp nat_cmp (class_name_of c) (class_name_of d) }
    {
        let (words, others) = (self.as_slice(), other.as_slice());
        cmp_runs(words, self.name_run(), others, other.name_run())
    }

    /// The order of its class's name and of these bytes.
    pub fn cmp_name_to(&self, name: &[u8]) -> Ordering
        ensures { (c : ClassFile) → IsRecordOf c self.now
            → result ≡ slice_cmp nat_cmp (class_name_of c) name.now }
    {
        cmp_run_to(self.as_slice(), self.name_run(), name)
    }

    /// The fingerprint of its class's name, as [`fingerprint`] computes it from the name's bytes.
    ///
    /// [`fingerprint`]: crate::fingerprint
    pub fn name_fingerprint(&self, seed: u64) -> u32
        ensures { (c : ClassFile) → IsRecordOf c self.now
            → result ≡ fingerprint seed (class_name_of c) }
    {
        run_fingerprint(seed, self.as_slice(), self.name_run())
    }

    /// Whether the class of another record has the same name.
    pub fn same_name(&self, other: &Record) -> bool
        ensures { (c d : ClassFile) → IsRecordOf c self.now → IsRecordOf d other.now
            → IsTrue result ↔ (class_name_of c ≡ class_name_of d) }
    {
        let (words, others) = (self.as_slice(), other.as_slice());
        is_same_run(words, self.name_run(), others, other.name_run())
    }
}

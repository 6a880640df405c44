//! What looking into records costs, call by call.

use crate::classes::samples::record_of;
use cm_class::{Class, Member as ClassMember};
use cm_record::{Member, Record};
use std::alloc::{AllocError, Global};

/// A call on a record that doesn't build a class.
#[derive(Clone, Copy, Debug, PartialEq, Eq)]
pub enum Lookup {
    /// The name of the class, copied.
    ClassName,
    /// Whether the next record's class has the same name.
    SameName,
    /// Each index of the pool.
    Constant,
    /// Each field, by its name and descriptor.
    Field,
    /// Each method, by its name and descriptor.
    Method,
    /// The code of each method.
    Code,
}

/// The name and the descriptor of a member.
#[derive(Drop)]
struct Signature {
    name: Vec<u8>,
    descriptor: Vec<u8>,
}

/// What is looked for in a record.
#[derive(Drop)]
struct Wanted {
    /// One more than the pool's last index.
    pool_count: u16,
    fields: Vec<Signature>,
    methods: Vec<Signature>,
    found: Vec<Member>,
}

/// A record, and what is looked for in it.
#[derive(Drop)]
pub struct Subject {
    record: Record,
    wanted: Wanted,
}

/// The results of calls.
#[derive(Clone, Copy, Debug, PartialEq, Eq)]
pub struct Tally {
    pub calls: usize,
    /// How many of them found what they looked for.
    pub found: usize,
}

impl Tally {
    pub fn add(&mut self, found: bool) {
        self.calls = self.calls.saturating_add(1);
        self.found = self.found.saturating_add(usize::from(found));
    }
}

/// How many members of a class are looked for at most. A look-up reads the members before the one
/// it looks for, so looking for each of 65,535 fields would take minutes.
const MOST_MEMBERS: usize = 1_000;

/// The signatures of members.
fn signatures(
    alloc: Global,
    class: &Class,
    members: &[ClassMember],
) -> Result<Vec<Signature>, AllocError> {
    let mut all = Vec::new(alloc);
    for member in members.iter().take(MOST_MEMBERS) {
        all.push(Signature {
            name: class.utf8(member.name).to_vec(alloc)?,
            descriptor: class.utf8(member.descriptor).to_vec(alloc)?,
        })?;
    }
    Ok(all)
}

/// The methods of a record that have these signatures.
fn find_methods(
    alloc: Global,
    record: &Record,
    signatures: &[Signature],
) -> Result<Vec<Member>, AllocError> {
    let mut found = Vec::new(alloc);
    for one in signatures {
        if let Some(member) = record.method(&one.name, &one.descriptor) {
            found.push(member)?;
        }
    }
    Ok(found)
}

/// What is looked for in the record of a class.
fn pick_wanted(alloc: Global, record: &Record, class: &Class) -> Result<Wanted, AllocError> {
    let fields = signatures(alloc, class, class.fields())?;
    let methods = signatures(alloc, class, class.methods())?;
    let found = find_methods(alloc, record, &methods)?;
    let pool_count = u16::try_from(class.slots().len())
        .unwrap_or(u16::MAX)
        .saturating_add(1);
    Ok(Wanted {
        pool_count,
        fields,
        methods,
        found,
    })
}

/// A record with all that is looked for in it.
fn subject_of(alloc: Global, record: Record) -> Result<Subject, AllocError> {
    let mut spelling = Vec::new(alloc);
    let class = record.to_class(alloc, &mut spelling)?;
    let wanted = pick_wanted(alloc, &record, &class)?;
    Ok(Subject { record, wanted })
}

/// The subjects of class files.
pub fn subjects(alloc: Global, classes: &[&[u8]]) -> Result<Vec<Subject>, AllocError> {
    let mut all = Vec::new(alloc);
    for class in classes {
        if let Some(record) = record_of(alloc, class)? {
            all.push(subject_of(alloc, record)?)?;
        }
    }
    Ok(all)
}

/// Looks for each field, or each method.
fn look_for(record: &Record, signatures: &[Signature], is_method: bool, tally: &mut Tally) {
    for one in signatures {
        let found = if is_method {
            record.method(&one.name, &one.descriptor)
        } else {
            record.field(&one.name, &one.descriptor)
        };
        tally.add(found.is_some());
    }
}

impl Lookup {
    /// All look-ups, in the order in which they are run.
    pub const ALL: [Lookup; 6] = [
        Lookup::ClassName,
        Lookup::SameName,
        Lookup::Constant,
        Lookup::Field,
        Lookup::Method,
        Lookup::Code,
    ];

    /// Its name in the output.
    pub fn name(self) -> &'static str {
        match self {
            Lookup::ClassName => "class_name",
            Lookup::SameName => "same_name",
            Lookup::Constant => "constant",
            Lookup::Field => "field",
            Lookup::Method => "method",
            Lookup::Code => "code",
        }
    }

    /// Makes its calls on one record; `next` is the record after it.
    fn call(
        self,
        alloc: Global,
        one: &Subject,
        next: &Subject,
        tally: &mut Tally,
    ) -> Result<(), AllocError> {
        match self {
            Lookup::ClassName => tally.add(!one.record.class_name(alloc)?.is_empty()),
            Lookup::SameName => tally.add(one.record.same_name(&next.record)),
            Lookup::Constant => {
                for index in 0..one.wanted.pool_count {
                    tally.add(one.record.constant(index).is_some());
                }
            }
            Lookup::Field => look_for(&one.record, &one.wanted.fields, false, tally),
            Lookup::Method => look_for(&one.record, &one.wanted.methods, true, tally),
            Lookup::Code => {
                for member in &one.wanted.found {
                    tally.add(one.record.code(member).is_some());
                }
            }
        }
        Ok(())
    }

    /// Makes its calls on all records.
    pub fn run(self, alloc: Global, subjects: &[Subject]) -> Result<Tally, AllocError> {
        let mut tally = Tally { calls: 0, found: 0 };
        let mut next = subjects.last();
        for one in subjects {
            self.call(alloc, one, next.unwrap_or(one), &mut tally)?;
            next = Some(one);
        }
        Ok(tally)
    }
}

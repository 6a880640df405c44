//! Classes that are prepared, each on its own.

ghost use Rattle.std.specs.Prelude.{IsSome};

use crate::version::{Version, other_version};
use cm_commands::{PrepareFault, Prepared, Refusal, prepare};
use cm_jar::{Entry, EntryFault};
use std::alloc::Global;

/// Where the bytes of a class are.
#[derive(Drop)]
pub enum Source<'a> {
    /// They are read.
    Bytes(Vec<u8>),
    /// In an entry of a jar.
    Entry(Entry<'a>),
}

/// What becomes of a class before it is given to a cache.
#[derive(Drop)]
pub enum Outcome {
    /// It is prepared.
    Ready(Prepared),
    /// It is of another version of class files.
    OtherVersion(Version),
    /// It can't be defined.
    Refused(Refusal),
    /// Its entry can't be read.
    Unread(EntryFault),
    /// An allocation failed.
    NoMemory,
}

/// A class, what it is called in messages, and what becomes of it.
#[derive(Drop)]
pub struct Job<'a> {
    name: String,
    source: Source<'a>,
    /// `None` before it is run.
    outcome: Option<Outcome>,
}

impl<'a> Job<'a> {
    /// A class that isn't prepared yet.
    pub fn new(name: String, source: Source<'a>) -> Job<'a> {
        Job {
            name,
            source,
            outcome: None,
        }
    }

    /// Prepares the class, and unpacks it first if it is in a jar.
    pub fn run(&mut self, alloc: Global)
        ensures { IsSome self.new.outcome }
    {
        let outcome = match &self.source {
            Source::Bytes(bytes) => outcome_of(alloc, bytes),
            Source::Entry(entry) => outcome_of_entry(alloc, entry),
        };
        self.outcome = Some(outcome);
    }

    /// The name of a class that was run, and what became of it.
    pub fn into_outcome(self) -> (String, Outcome)
        requires { IsSome self.outcome }
    {
        (self.name, self.outcome.unwrap())
    }
}

fn outcome_of_entry(alloc: Global, entry: &Entry<'_>) -> Outcome {
    match entry.content(alloc) {
        Ok(bytes) => outcome_of(alloc, &bytes),
        Err(EntryFault::NoMemory) => Outcome::NoMemory,
        Err(fault) => Outcome::Unread(fault),
    }
}

/// What becomes of the class of these bytes.
fn outcome_of(alloc: Global, bytes: &[u8]) -> Outcome {
    if let Some(version) = other_version(bytes) {
        return Outcome::OtherVersion(version);
    }
    match prepare(alloc, bytes) {
        Ok(class) => Outcome::Ready(class),
        Err(PrepareFault::NoMemory) => Outcome::NoMemory,
        Err(fault) => Outcome::Refused(Refusal::from(fault)),
    }
}

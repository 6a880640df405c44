//! Classes that several threads prepare, and those that are ready.

ghost use Rattle.std.specs.Prelude.{◌≡◌, ◌≤◌, ◌+◌, length, OnOk, IsSome};

use crate::batch::run_all;
use crate::job::{Job, Outcome, Source};
use crate::progress::Progress;
use crate::report::{Given, Report};
use cm_commands::{Prepared, Refusal};
use cm_found_classes::Place;
use cm_importing::Compared;
use cm_jar::{Entry, EntryFault, LARGEST};
use std::alloc::AllocError;
use std::collections::VecDeque;
use std::fmt::Display;
use std::fs::{self, File, Files};
use std::num::NonZeroUsize;
use std::thread::Threads;
use std::time::Clock;

/// A class that is prepared, and what it is called in messages.
#[derive(Drop)]
pub struct Named {
    pub name: String,
    pub class: Prepared,
}

/// Prepares classes and keeps those that are ready, in their order. What became of the others is
/// told to the report.
#[derive(Drop)]
pub struct Preparer<'a, R> {
    rt: &'a R,
    workers: NonZeroUsize,
    ready: VecDeque<Named>,
    report: Report,
    progress: Progress,
}

impl<'a, R> Preparer<'a, R>
where
    R: AllocGlobal + Eprint + Clock,
{
    /// No class is ready. This many threads prepare classes.
    pub fn new(
        rt: &'a R,
        workers: NonZeroUsize,
        report: Report,
        progress: Progress,
    ) -> Preparer<'a, R> {
        Preparer {
            rt,
            workers,
            ready: VecDeque::new(rt.alloc()),
            report,
            progress,
        }
    }

    /// What the files and the memory are asked for by.
    pub fn rt(&self) -> &'a R {
        self.rt
    }

    /// How many classes are ready.
    pub fn ready(&self) -> usize
        ensures { result ≡ length self.now.ready.items }
    {
        self.ready.len()
    }

    /// The first class that is ready.
    pub fn take(&mut self) -> Option<Named>
        ensures one { IsSome result
            → length self.new.ready.items + 1 ≡ length self.old.ready.items }
        ensures no_more { length self.new.ready.items ≤ length self.old.ready.items }
    {
        self.ready.pop_front()
    }

    /// Keeps a class that is ready, and tells the report of any other.
    fn keep(&mut self, name: String, outcome: Outcome) -> Result<(), AllocError>
        ensures { OnOk result
            (length self.new.ready.items ≤ length self.old.ready.items + 1) }
    {
        match outcome {
            Outcome::Ready(class) => {
                self.report.add_defined(&class);
                self.ready.push_back(Named { name, class })?;
            }
            Outcome::OtherVersion(version) => self.report.add_skipped(version)?,
            Outcome::Refused(refusal) => {
                self.progress.clear(self.rt);
                self.report.add_refused(self.rt, name.as_str(), refusal);
            }
            Outcome::Unread(why) => self.add_unread(name.as_str(), why),
            Outcome::NoMemory => return Err(AllocError),
        }
        Ok(())
    }

    /// Tells the report of a path, a jar or an entry that can't be read.
    pub fn add_unread(&mut self, name: &str, why: impl Display + Drop)
        ensures { self.new.ready ≡ self.old.ready }
    {
        self.progress.clear(self.rt);
        self.report.add_unread(self.rt, name, why);
    }

    /// Counts the bytes of a file that was read.
    pub fn add_read(&mut self, bytes: u64)
        ensures { self.new.ready ≡ self.old.ready }
    {
        self.progress.add_read(bytes);
    }

    /// Tells the report what became of these classes.
    pub fn add_outcomes(&mut self, classes: &[Given], outcomes: &[cm_importing::Outcome])
        ensures { self.new.ready ≡ self.old.ready }
    {
        for (class, outcome) in classes.iter().zip(outcomes) {
            if !matches!(outcome, cm_importing::Outcome::Stored(_)) {
                self.progress.clear(self.rt);
            }
            self.report.add_outcome(self.rt, class, *outcome);
        }
        self.progress.show(self.rt, self.report.imported());
    }

    /// Tells the report how these classes compare with those that the loader has.
    pub fn add_compared(&mut self, classes: &[Given], compared: &[Compared])
        ensures { self.new.ready ≡ self.old.ready }
    {
        for (class, compared) in classes.iter().zip(compared) {
            self.report.add_compared(self.rt, class, *compared);
        }
    }

    /// What became of all classes.
    pub fn into_report(self) -> Report {
        self.progress.clear(self.rt);
        self.report
    }
}

impl<'a, R> Preparer<'a, R>
where
    R: Files<File = File> + AllocGlobal + Eprint + Clock,
{
    /// Reads files, and prepares their classes.
    pub fn prepare_files<T: Threads + Sync>(
        &mut self,
        threads: &T,
        files: &[Place],
    ) -> Result<(), AllocError>
        ensures { OnOk result
            (length self.new.ready.items ≤ length self.old.ready.items + length files.now) }
    {
        let alloc = self.rt.alloc();
        let mut jobs = Vec::with_capacity(alloc, files.len())?;
        for file in files {
            self.progress.add_read(file.len());
            if u64::from(LARGEST) < file.len() {
                self.add_unread(file.path(), EntryFault::TooLarge);
                continue;
            }
            match fs::read(self.rt, file.path()) {
                Ok(bytes) => {
                    let name = String::from_str(alloc, file.path())?;
                    jobs.push(Job::new(name, Source::Bytes(bytes)))?;
                }
                Err(cause) => self.add_unread(file.path(), cause),
            }
        }
        self.prepare(threads, jobs)
    }

    /// Prepares the classes of entries of the jar of this path.
    pub fn prepare_entries<T: Threads + Sync>(
        &mut self,
        threads: &T,
        path: &str,
        entries: &[Entry<'_>],
    ) -> Result<(), AllocError>
        ensures { OnOk result
            (length self.new.ready.items ≤ length self.old.ready.items + length entries.now) }
    {
        let alloc = self.rt.alloc();
        let mut jobs = Vec::with_capacity(alloc, entries.len())?;
        for entry in entries {
            let name = String::from_utf8_lossy(alloc, entry.name())?;
            let name = format!(in alloc; "{path}: {name}")?;
            jobs.push(Job::new(name, Source::Entry(*entry)))?;
        }
        self.prepare(threads, jobs)
    }

    /// Prepares classes.
    fn prepare<T: Threads + Sync>(
        &mut self,
        threads: &T,
        jobs: Vec<Job<'_>>,
    ) -> Result<(), AllocError>
        ensures { OnOk result
            (length self.new.ready.items
            ≤ length self.old.ready.items + length jobs.entry.items) }
    {
        let mut jobs = jobs;
        run_all(threads, self.rt.alloc(), &mut jobs, self.workers);
        for job in jobs {
            let (name, outcome) = job.into_outcome();
            self.keep(name, outcome)?;
        }
        Ok(())
    }
}

//! What became of the classes.

use crate::messages::{say, warn};
use crate::sizes::{Records, Region, region_for, slots_for};
use crate::version::Version;
use cm_commands::{Prepared, Refusal};
use cm_found_classes::Unsearched;
use cm_importing::{Compared, Outcome};
use cm_maintenance::Status;
use std::alloc::{AllocError, Global};
use std::fmt::Display;

/// How many refusals, and how many changed classes, have a line each.
const MOST_TOLD: u64 = 20;

/// A class that a cache is asked to define.
#[derive(Debug, Drop)]
pub struct Given {
    /// What it is called in messages.
    pub name: String,
    /// Whether none of its name was given before. On a class path the first one counts.
    pub is_first: bool,
}

/// How many classes there are of another version.
#[derive(Clone, Copy, Debug)]
struct Skipped {
    version: Version,
    count: u64,
}

/// Counts of what became of the classes.
#[derive(Debug, Drop)]
pub struct Report {
    imported: u64,
    there: u64,
    changed: u64,
    skipped: Vec<Skipped>,
    refused: u64,
    /// How many paths, jars and entries can't be read.
    unread: u64,
    /// That a class found no room in the journal, and in the region.
    lacks_slots: bool,
    lacks_roots: bool,
    /// The records of the classes that a cache is asked to define.
    records: Records,
    /// That no line is written: what happens is only counted.
    is_silent: bool,
}

impl Report {
    /// Nothing was imported.
    pub fn new(alloc: Global) -> Report {
        Report {
            imported: 0,
            there: 0,
            changed: 0,
            skipped: Vec::new(alloc),
            refused: 0,
            unread: 0,
            lacks_slots: false,
            lacks_roots: false,
            records: Records::NONE,
            is_silent: false,
        }
    }

    /// Nothing was imported, and what happens is only counted.
    pub fn silent(alloc: Global) -> Report {
        let mut report = Report::new(alloc);
        report.is_silent = true;
        report
    }

    /// Writes a line to standard error.
    fn tell(&self, rt: &(impl Eprint + AllocGlobal), text: impl Display + Drop) {
        if !self.is_silent {
            warn(rt, text);
        }
    }

    /// How many classes were imported.
    pub fn imported(&self) -> u64 {
        self.imported
    }

    /// One class more that a cache is asked to define.
    pub fn add_defined(&mut self, class: &Prepared) {
        self.records.add(8 * u64::from(class.words()));
    }

    /// What became of a class that a cache was asked to define.
    pub fn add_outcome(
        &mut self,
        rt: &(impl Eprint + AllocGlobal),
        class: &Given,
        outcome: Outcome,
    ) {
        match outcome {
            Outcome::Stored(_) => self.imported = self.imported.saturating_add(1),
            Outcome::Changed if class.is_first => self.add_changed(rt, class.name.as_str()),
            Outcome::There | Outcome::Changed => self.there = self.there.saturating_add(1),
            Outcome::Refused(refusal) => {
                self.note_room(refusal);
                self.add_refused(rt, class.name.as_str(), refusal);
            }
        }
    }

    /// How a class compares with what the loader has: it counts as it would be imported.
    pub fn add_compared(
        &mut self,
        rt: &(impl Eprint + AllocGlobal),
        class: &Given,
        compared: Compared,
    ) {
        match compared {
            Compared::New if class.is_first => self.imported = self.imported.saturating_add(1),
            Compared::Changed if class.is_first => self.add_changed(rt, class.name.as_str()),
            _ => self.there = self.there.saturating_add(1),
        }
    }

    /// Whether the loader has a class that the paths don't have, given how many of its names they
    /// don't have.
    pub fn differs(&self, gone: u64) -> bool {
        self.changed > 0 || gone > 0
    }

    /// Whether everything could be read.
    pub fn is_whole(&self) -> bool {
        self.unread == 0
    }

    /// One class more of which the loader has another one.
    fn add_changed(&mut self, rt: &(impl Eprint + AllocGlobal), name: &str) {
        if self.changed < MOST_TOLD {
            self.tell(rt, format_args!("{name}: changed"));
        }
        self.changed = self.changed.saturating_add(1);
    }

    /// Notes what a file that refuses a class had no room for.
    fn note_room(&mut self, refusal: Refusal) {
        match refusal {
            Refusal::JournalFull => self.lacks_slots = true,
            Refusal::RegionFull | Refusal::RecordTooLong => self.lacks_roots = true,
            _ => {}
        }
    }

    /// One class more that is refused.
    pub fn add_refused(&mut self, rt: &(impl Eprint + AllocGlobal), name: &str, refusal: Refusal) {
        if self.refused < MOST_TOLD {
            let number = refusal.number();
            self.tell(rt, format_args!("{name}: refused {number} {refusal}"));
        }
        self.refused = self.refused.saturating_add(1);
    }

    /// One class more of another version.
    pub fn add_skipped(&mut self, version: Version) -> Result<(), AllocError> {
        for skipped in &mut self.skipped {
            if skipped.version == version {
                skipped.count = skipped.count.saturating_add(1);
                return Ok(());
            }
        }
        match self.skipped.push(Skipped { version, count: 1 }) {
            Ok(()) => Ok(()),
            Err(_) => Err(AllocError),
        }
    }

    /// A path, a jar or an entry that can't be read.
    pub fn add_unread(
        &mut self,
        rt: &(impl Eprint + AllocGlobal),
        name: &str,
        why: impl Display + Drop,
    ) {
        self.tell(rt, format_args!("{name}: {why}"));
        self.unread = self.unread.saturating_add(1);
    }

    /// Paths that aren't searched.
    pub fn add_unsearched(&mut self, rt: &(impl Eprint + AllocGlobal), paths: &[Unsearched]) {
        for Unsearched { path, fault } in paths {
            self.add_unread(rt, path.as_str(), *fault);
        }
    }

    fn skipped(&self) -> u64 {
        let mut count = 0u64;
        for skipped in &self.skipped {
            count = count.saturating_add(skipped.count);
        }
        count
    }

    /// Says how many classes there are of each other version.
    fn say_skipped(&self, rt: &(impl Eprint + AllocGlobal)) {
        for skipped in &self.skipped {
            let Version { major, minor } = skipped.version;
            let count = skipped.count;
            warn(
                rt,
                format_args!("skipped {count} of version {major}.{minor}"),
            );
        }
        if !self.skipped.is_empty() && self.records.is_empty() && self.refused == 0 {
            warn(rt, "no class of version 52.0 was found");
        }
    }

    /// Says what isn't imported, and why.
    fn say_rest(&self, rt: &(impl Eprint + AllocGlobal)) {
        self.say_skipped(rt);
        if self.changed > MOST_TOLD {
            let more = self.changed - MOST_TOLD;
            warn(rt, format_args!("changed {more} more"));
        }
        if self.changed > 0 {
            warn(
                rt,
                "the loader keeps its classes of these names: --replace makes it anew",
            );
        }
        if self.refused > MOST_TOLD {
            let more = self.refused - MOST_TOLD;
            warn(rt, format_args!("refused {more} more"));
        }
        self.say_slots(rt);
        self.say_roots(rt);
    }

    /// If classes found no room in the journal, says how many slots hold them.
    fn say_slots(&self, rt: &(impl Eprint + AllocGlobal)) {
        if !self.lacks_slots {
            return;
        }
        match slots_for(&self.records) {
            Some(slots) => warn(
                rt,
                format_args!("journal full: a new file with --slots {slots} holds these classes"),
            ),
            None => warn(rt, "journal full: no file holds all these classes"),
        }
    }

    /// If classes found no room in the region, says which roots hold them.
    fn say_roots(&self, rt: &(impl Eprint + AllocGlobal)) {
        if !self.lacks_roots {
            return;
        }
        match region_for(&self.records) {
            Some(Region { top, roots }) => warn(
                rt,
                format_args!(
                    "region full: a new file with --top {top} --roots {roots} holds these classes"
                ),
            ),
            None => warn(rt, "region full: no file holds all these classes"),
        }
    }

    /// Says how many were imported before a failure.
    pub fn say_imported(&self, rt: &(impl Eprint + AllocGlobal)) {
        let imported = self.imported;
        warn(rt, format_args!("imported {imported} before the failure"));
    }

    /// Says what became of all, and gives the status.
    pub fn say_all(&self, rt: &(impl Print + Eprint + AllocGlobal), number: u64) -> Status {
        self.say_rest(rt);
        let (done, there, changed) = (self.imported, self.there, self.changed);
        let (skipped, refused) = (self.skipped(), self.refused);
        say(
            rt,
            format_args!(
                "imported {done} there {there} changed {changed} skipped {skipped} \
                 refused {refused} number {number}"
            ),
            self.status(),
        )
    }

    /// Says which sizes of a file hold all classes, and gives the status.
    pub fn say_sizes(&self, rt: &(impl Print + Eprint + AllocGlobal)) -> Status {
        self.say_skipped(rt);
        match (region_for(&self.records), slots_for(&self.records)) {
            (Some(Region { top, roots }), Some(slots)) => say(
                rt,
                format_args!("--top {top} --roots {roots} --slots {slots}"),
                self.status(),
            ),
            _ => say(rt, "no file holds all these classes", Status::Refused),
        }
    }

    /// Whether all is there as the paths have it.
    fn status(&self) -> Status {
        if self.refused > 0 || self.unread > 0 || self.changed > 0 {
            Status::Refused
        } else {
            Status::Done
        }
    }

    /// Says what an import would do, and gives the status that it would have. The loader has so
    /// many classes that no path has, and is made anew if that is asked for.
    pub fn say_compared(
        &self,
        rt: &(impl Print + Eprint + AllocGlobal),
        gone: u64,
        replaces: bool,
    ) -> Status {
        self.say_skipped(rt);
        let (new, there, changed) = (self.imported, self.there, self.changed);
        let (skipped, refused) = (self.skipped(), self.refused);
        let is_replaced = replaces && self.differs(gone) && self.is_whole();
        let verb = if is_replaced { "replace" } else { "import" };
        let status = if is_replaced && refused == 0 {
            Status::Done
        } else {
            self.status()
        };
        say(
            rt,
            format_args!(
                "would {verb} new {new} there {there} changed {changed} gone {gone} \
                 skipped {skipped} refused {refused}"
            ),
            status,
        )
    }
}

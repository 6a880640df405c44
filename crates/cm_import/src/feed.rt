//! The classes that were found, as the feed of an import.

ghost use Rattle.std.specs.Prelude.{◌≡◌, ◌≤◌, ◌<◌, ◌+◌, length, None, Some, Ok, true, IfOk, OnOk};
ghost use Rattle.cm_import.specs.Left.{left_in, unread_of, left_of};

use crate::batch::{entries_at_once, files_at_once};
use crate::loaders::class_names;
use crate::open_jar::OpenJar;
use crate::preparer::{Named, Preparer};
use crate::report::{Given, Report};
use cm_commands::Prepared;
use cm_found_classes::Place;
use cm_front::Front;
use cm_importing::{Compared, Feed, Outcome, compare};
use cm_jar::JarFault;
use std::alloc::{AllocError, Global};
use std::collections::HashSet;
use std::fs::{File, Files};
use std::thread::Threads;
use std::time::Clock;

/// How many classes are stored in one group.
const GROUP: usize = 64;

/// How each class compares with the one that the loader has.
fn compare_each(
    alloc: Global,
    front: &Front,
    loader: &[u8],
    classes: &[Prepared],
) -> Result<Vec<Compared>, AllocError> {
    let mut compared = Vec::new(alloc);
    for class in classes {
        compared.push(compare(alloc, front, loader, class)?)?;
    }
    Ok(compared)
}

/// Reads the classes of places, in their order.
#[derive(Drop)]
pub struct FoundClasses<'a, R> {
    /// The places that aren't read yet, the first one last.
    places: Vec<Place>,
    jar: Option<OpenJar>,
    preparer: Preparer<'a, R>,
    /// The classes that were given last.
    given: Vec<Given>,
    /// The names of all classes that were given.
    seen: HashSet<Vec<u8>>,
}

impl<'a, R> FoundClasses<'a, R>
where
    R: Files<File = File> + AllocGlobal + Eprint + Clock,
{
    /// The classes of these places.
    pub fn new(places: Vec<Place>, preparer: Preparer<'a, R>) -> FoundClasses<'a, R> {
        let mut places = places;
        places.reverse();
        let given = Vec::new(preparer.rt().alloc());
        let seen = HashSet::new(preparer.rt().alloc());
        FoundClasses {
            places,
            jar: None,
            preparer,
            given,
            seen,
        }
    }

    /// Compares the next classes with those that a loader of a cache has. Whether there were any.
    fn compare_next<T: Threads + Sync>(
        &mut self,
        threads: &T,
        front: &Front,
        loader: &[u8],
    ) -> Result<bool, AllocError>
        ensures { result ≡ Ok true → left_of self.new < left_of self.old }
    {
        let alloc = self.preparer.rt().alloc();
        let Some(classes) = self.next(threads, alloc)? else {
            return Ok(false);
        };
        let compared = compare_each(alloc, front, loader, &classes)?;
        self.preparer.add_compared(&self.given, &compared);
        Ok(true)
    }

    /// Compares all classes with those that a loader of a cache has, and gives how many names of
    /// the loader's classes none of them has.
    pub fn compare_all<T: Threads + Sync>(
        &mut self,
        threads: &T,
        front: &Front,
        loader: &[u8],
    ) -> Result<u64, AllocError> {
        while self.compare_next(threads, front, loader)? {}
        let mut gone = 0u64;
        for name in &class_names(self.preparer.rt().alloc(), front, loader)? {
            if !self.seen.contains(name) {
                gone = gone.saturating_add(1);
            }
        }
        Ok(gone)
    }

    /// Reads all classes, which are counted.
    pub fn count_all<T: Threads + Sync>(&mut self, threads: &T) -> Result<(), AllocError> {
        let alloc = self.preparer.rt().alloc();
        while self.next(threads, alloc)?.is_some() {}
        Ok(())
    }

    /// What became of the classes.
    pub fn into_report(self) -> Report {
        self.preparer.into_report()
    }

    /// Prepares classes until there are as many as one group has, or no more.
    fn fill<T: Threads + Sync>(&mut self, threads: &T) -> Result<(), AllocError>
        ensures { OnOk result (left_of self.new ≤ left_of self.old) }
    {
        while self.preparer.ready() < GROUP && self.prepare_next(threads)? {}
        Ok(())
    }

    /// Prepares the next classes. Whether there may be more.
    fn prepare_next<T: Threads + Sync>(&mut self, threads: &T) -> Result<bool, AllocError>
        ensures fewer { result ≡ Ok true → unread_of self.new < unread_of self.old }
        ensures left { IfOk result (λ _. left_of self.new ≤ left_of self.old) }
    {
        if let Some(jar) = self.jar.take() {
            self.prepare_entries(threads, jar)?;
            return Ok(true);
        }
        match self.places.pop() {
            Some(Place::ClassFile(path, len)) => self.prepare_files(
                threads,
                Place::ClassFile(path, len),
            )?,
            Some(Place::Jar(path, len)) => self.open_jar(path, len)?,
            None => return Ok(false),
        }
        Ok(true)
    }

    /// Prepares the class of a file, and those of the files after it, up to the next jar.
    fn prepare_files<T: Threads + Sync>(
        &mut self,
        threads: &T,
        first: Place,
    ) -> Result<(), AllocError>
        ensures jar { self.new.jar ≡ self.old.jar }
        ensures places { length self.new.places.items ≤ length self.old.places.items }
        ensures ready { OnOk result
            (length self.new.preparer.ready.items + length self.new.places.items
            ≤ length self.old.preparer.ready.items + length self.old.places.items + 1) }
    {
        let count = files_at_once(&self.places);
        let mut files = self.places.split_off(self.places.len() - count)?;
        files.push(first)?;
        files.reverse();
        self.preparer.prepare_files(threads, &files)
    }

    /// Reads a jar, whose classes are prepared next.
    fn open_jar(&mut self, path: String, len: u64) -> Result<(), AllocError>
        ensures places { self.new.places ≡ self.old.places }
        ensures ready { self.new.preparer.ready ≡ self.old.preparer.ready }
        ensures jar { self.old.jar ≡ None → left_in self.new.jar ≤ 65536 }
    {
        self.preparer.add_read(len);
        let rt = self.preparer.rt();
        let name = String::from_str(rt.alloc(), path.as_str())?;
        match OpenJar::read(rt, path) {
            Ok(jar) => {
                if let Some(fault) = jar.nested() {
                    self.preparer.add_unread(name.as_str(), fault);
                }
                self.jar = Some(jar);
            }
            Err(fault) => self.preparer.add_unread(name.as_str(), fault),
        }
        Ok(())
    }

    /// Prepares the next classes of a jar, which stays open if it has more.
    fn prepare_entries<T: Threads + Sync>(
        &mut self,
        threads: &T,
        jar: OpenJar,
    ) -> Result<(), AllocError>
        ensures places { self.new.places ≡ self.old.places }
        ensures fewer { OnOk result (left_in self.new.jar < left_in (Some jar)) }
        ensures ready { OnOk result (length self.new.preparer.ready.items + left_in self.new.jar
            ≤ length self.old.preparer.ready.items + left_in (Some jar)) }
    {
        let count = match jar.entries(self.preparer.rt().alloc()) {
            Ok(entries) => {
                let count = entries_at_once(&entries);
                self.preparer
                    .prepare_entries(threads, jar.path(), &entries[..count])?;
                count
            }
            Err(JarFault::NoMemory) => return Err(AllocError),
            Err(fault) => {
                self.preparer.add_unread(jar.path(), fault);
                0
            }
        };
        self.jar = jar.without(count);
        Ok(())
    }
}

impl<'a, R> Feed for FoundClasses<'a, R>
where
    R: Files<File = File> + AllocGlobal + Eprint + Clock,
{
    ghost log = { λ _. None };

    ghost left = { left_of };

    fn next<T: Threads + Sync>(
        &mut self,
        rt: &T,
        alloc: Global,
    ) -> Result<Option<Vec<Prepared>>, AllocError> {
        self.fill(rt)?;
        self.given.clear();
        let mut classes = Vec::with_capacity(alloc, GROUP)?;
        for _ in 0..GROUP {
            let Some(Named { name, class }) = self.preparer.take() else {
                break;
            };
            let is_first = self.seen.insert(class.class_name(alloc)?)?;
            self.given.push(Given { name, is_first })?;
            classes.push(class)?;
        }
        if classes.is_empty() {
            Ok(None)
        } else {
            Ok(Some(classes))
        }
    }

    fn tell(&mut self, outcomes: &[Outcome]) {
        self.preparer.add_outcomes(&self.given, outcomes);
    }
}

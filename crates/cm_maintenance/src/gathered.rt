//! Rows gathered by name: loaders by their names, and the classes of each loader by theirs.

ghost use Rattle.std.specs.Prelude.{◌≡◌, map, None, IfOk, OnOk};
ghost use Rattle.std.specs.BTreeMap.{UpdatesBy, values};
ghost use Rattle.std.specs.Ordering.{nat_cmp};
ghost use Rattle.cm_record.specs.Names.{class_name_in};
ghost use Rattle.cm_maintenance.specs.Gathered.{by_bytes, entry_put, kept_of, Adds, AddsClass};
ghost use Rattle.cm_maintenance.specs.Gathered.{Gathers};

use crate::listing::ListedClass;
use cm_commands::Prepared;
use cm_layout::{ClassRow, LoaderRow, Row};
use cm_rows::LiveRows;
use std::alloc::{AllocError, Global};
use std::collections::BTreeMap;

/// Rows by name. Maps keep them in byte order.
#[derive(Drop)]
pub(crate) struct Gathered {
    /// The numbers of loaders, by their names.
    pub(crate) numbers: BTreeMap<Vec<u8>, u64>,
    /// The classes of loaders, by the loaders' numbers and then by their own names.
    pub(crate) classes: BTreeMap<u64, BTreeMap<Vec<u8>, ListedClass>>,
}

impl Gathered {
    fn add_loader(&mut self, alloc: Global, row: &LoaderRow) -> Result<(), AllocError>
        ensures numbers { OnOk result (by_bytes self.new.numbers.entries
            ≡ entry_put row.now.name row.now.number (by_bytes self.old.numbers.entries)) }
        ensures classes { self.new.classes ≡ self.old.classes }
    {
        let name = Vec::from_slice(alloc, row.name.as_bytes())?;
        self.numbers.insert(name, row.number)?;
        Ok(())
    }

    // Takes the classes of a loader out.
    fn take_classes(&mut self, alloc: Global, number: u64) -> BTreeMap<Vec<u8>, ListedClass>
        ensures taken { by_bytes result.entries ≡ kept_of self.old.classes number }
        ensures updates { UpdatesBy nat_cmp (nat_cmp number) self.old.classes
            self.new.classes None }
        ensures numbers { self.new.numbers ≡ self.old.numbers }
    {
        match self.classes.remove(&number) {
            Some(classes) => classes,
            None => BTreeMap::new(alloc),
        }
    }

    fn add_class(
        &mut self,
        alloc: Global,
        row: &ClassRow,
        class: &Prepared,
    ) -> Result<(), AllocError>
        ensures numbers { self.new.numbers ≡ self.old.numbers }
        ensures classes { OnOk result (AddsClass self.old.classes self.new.classes row.now.loader
            (class_name_in class.now) (record { class = class.now; place = row.now.place })) }
    {
        let name = class.class_name(alloc)?;
        let listed = ListedClass {
            class: class.share()?,
            place: row.place,
        };
        let mut classes = self.take_classes(alloc, row.loader);
        classes.insert(name, listed)?;
        self.classes.insert(row.loader, classes)?;
        Ok(())
    }

    // Adds a row that comes before those already gathered.
    fn add(&mut self, alloc: Global, row: &Row<Prepared>) -> Result<(), AllocError>
        ensures { OnOk result (Adds row.now self.old self.new) }
    {
        match row {
            Row::Loader(row) => self.add_loader(alloc, row),
            Row::Class(row, class) => self.add_class(alloc, row, class),
        }
    }
}

// The rows, one after another.
fn rows_of<'a>(
    alloc: Global,
    book: &'a LiveRows<Prepared>,
) -> Result<Vec<&'a Row<Prepared>>, AllocError>
    ensures { IfOk result (λ rows. map (λ r. r.now) rows.items ≡ book.now.rows) }
{
    let mut rows = Vec::new(alloc);
    let mut left = book.walk();
    while let Some(row) = left.next() {
        rows.push(row)?;
    }
    Ok(rows)
}

/// Gathers rows from the last to the first: if two have the same name, the first one stays.
pub(crate) fn gather(alloc: Global, book: &LiveRows<Prepared>) -> Result<Gathered, AllocError>
    ensures { IfOk result (Gathers book.now.rows) }
{
    let mut gathered = Gathered {
        numbers: BTreeMap::new(alloc),
        classes: BTreeMap::new(alloc),
    };
    let mut left = rows_of(alloc, book)?;
    while let Some(row) = left.pop() {
        gathered.add(alloc, row)?;
    }
    Ok(gathered)
}

/// The classes of a loader, in byte order of their names.
pub(crate) fn classes_of(
    alloc: Global,
    classes: &BTreeMap<u64, BTreeMap<Vec<u8>, ListedClass>>,
    number: u64,
) -> Result<Vec<ListedClass>, AllocError>
    ensures { IfOk result (λ list. list.items ≡ map (λ e. e.1) (kept_of classes.now number)) }
{
    match classes.get(&number) {
        Some(classes) => classes_in_order(alloc, classes),
        None => Ok(Vec::new(alloc)),
    }
}

fn classes_in_order(
    alloc: Global,
    classes: &BTreeMap<Vec<u8>, ListedClass>,
) -> Result<Vec<ListedClass>, AllocError>
    ensures { IfOk result (λ list. list.items ≡ values classes.now) }
{
    let mut list = Vec::new(alloc);
    for class in classes.values() {
        list.push(class.share()?)?;
    }
    Ok(list)
}

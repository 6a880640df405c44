//! The live loaders and classes, in the order of their names.

ghost use Rattle.std.specs.Prelude.{◌≡◌, IfOk};
ghost use Rattle.cm_maintenance.specs.Listing.{listing, shown};

use crate::gathered::{Gathered, classes_of, gather};
use cm_commands::Prepared;
use cm_front::Front;
use cm_pool::Place;
use cm_rows::LiveRows;
use std::alloc::{AllocError, Global};

/// A live class: its record, and its place.
#[derive(Drop)]
pub struct ListedClass {
    pub class: Prepared,
    pub place: Place,
}

impl ListedClass {
    /// The same class again, with the same record.
    pub(crate) fn share(&self) -> Result<ListedClass, AllocError>
        ensures { IfOk result (λ c. c ≡ self.now) }
    {
        let class = self.class.share()?;
        Ok(ListedClass {
            class,
            place: self.place,
        })
    }
}

/// A live loader, with its classes in byte order of their names.
#[derive(Drop)]
pub struct ListedLoader {
    pub name: Vec<u8>,
    pub classes: Vec<ListedClass>,
}

/// The loaders and classes of rows, in byte order of their names: each class with its record and
/// the place of its row.
///
/// The time is proportional to the number of rows times its logarithm, and to the lengths of the
/// names. It is an `Err` if an allocation failed.
pub fn list(alloc: Global, rows: &LiveRows<Prepared>) -> Result<Vec<ListedLoader>, AllocError>
    ensures { IfOk result (λ list. shown list.items ≡ listing rows.now.rows) }
{
    let Gathered {
        mut numbers,
        classes,
    } = gather(alloc, rows)?;
    let mut list = Vec::new(alloc);
    while let Some((name, number)) = numbers.pop_first() {
        let classes = classes_of(alloc, &classes, number)?;
        list.push(ListedLoader { name, classes })?;
    }
    Ok(list)
}

/// The accepted loaders and classes, as [`list`] returns them.
pub fn list_accepted(alloc: Global, front: &Front) -> Result<Vec<ListedLoader>, AllocError>
    ensures { IfOk result (λ list. shown list.items ≡ listing front.now.rows) }
{
    list(alloc, front.rows())
}

//! Names of live rows.

ghost use Rattle.std.specs.Prelude.{◌≡◌, IfOk};
ghost use Rattle.std.specs.List.Sorted.{IsPermutation};
ghost use Rattle.cm_listed_names.specs.Names.{loader_names_in, class_names_in, texts, AreInOrder};
ghost use Rattle.cm_listed_names.specs.Names.{AreNames};

use cm_commands::Prepared;
use cm_layout::Row;
use cm_rows::LiveRows;
use std::alloc::{AllocError, Global};

// Sorts names by their bytes.
fn sort(names: &mut Vec<Vec<u8>>)
    ensures same { IsPermutation names.old.items names.new.items }
    ensures order { AreInOrder names.new.items }
{
    names.sort_unstable_by(|one, other| one.as_slice().cmp(other.as_slice()));
}

// The names of the loaders, in the order of the rows.
fn gather_loaders(alloc: Global, rows: &LiveRows<Prepared>) -> Result<Vec<Vec<u8>>, AllocError>
    ensures { IfOk result (λ names. texts names.items ≡ loader_names_in rows.now.rows) }
{
    let mut names = Vec::new(alloc);
    let mut left = rows.walk();
    while let Some(row) = left.next() {
        if let Row::Loader(row) = row {
            names.push(Vec::from_slice(alloc, row.name.as_bytes())?)?;
        }
    }
    Ok(names)
}

// The names of the classes of the loader of this number, in the order of the rows.
fn gather_classes(
    alloc: Global,
    rows: &LiveRows<Prepared>,
    loader: u64,
) -> Result<Vec<Vec<u8>>, AllocError>
    ensures { IfOk result (λ names. texts names.items ≡ class_names_in loader rows.now.rows) }
{
    let mut names = Vec::new(alloc);
    let mut left = rows.walk();
    while let Some(row) = left.next() {
        if let Row::Class(row, class) = row {
            if row.loader == loader {
                names.push(class.class_name(alloc)?)?;
            }
        }
    }
    Ok(names)
}

/// The names of all live loaders, in byte order.
pub fn loader_names(alloc: Global, rows: &LiveRows<Prepared>) -> Result<Vec<Vec<u8>>, AllocError>
    ensures { IfOk result (λ names. AreNames (loader_names_in rows.now.rows) names.items) }
{
    let mut names = gather_loaders(alloc, rows)?;
    sort(&mut names);
    Ok(names)
}

/// The names of all classes of the live loader of this number, in byte order.
pub fn class_names(
    alloc: Global,
    rows: &LiveRows<Prepared>,
    loader: u64,
) -> Result<Vec<Vec<u8>>, AllocError>
    ensures { IfOk result (λ names. AreNames (class_names_in loader rows.now.rows) names.items) }
{
    let mut names = gather_classes(alloc, rows, loader)?;
    sort(&mut names);
    Ok(names)
}

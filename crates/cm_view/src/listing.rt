//! Lists the classes and loaders that were found.
ghost use Rattle.std.specs.Prelude.{◌≡◌, ◌≤◌, length, IfOk, IfErr};
ghost use Rattle.std.specs.List.{AllByRecursion};
ghost use Rattle.cm_layout.specs.Offsets.{root_at as root_at_of};
ghost use Rattle.cm_verdict.specs.Standing.{IsPlace, HasPlace};
ghost use Rattle.cm_view.specs.Listing.{IsListed, IsRowFault, IsGoodRow, IsListFault, marked_rows};
ghost use Rattle.cm_view.specs.Listing.{loaders_in};

use crate::fault::ViewFault;
use cm_layout::{ClassRow, LoaderRow, Row, record_at, root_at};
use cm_pool::Geometry;
use cm_rows::LiveRows;
use cm_verdict::DefinedAt;
use cm_view_index::{ViewRow, marked};
use std::alloc::{AllocError, Global};

// The row of a class, as a view has it.
fn list_class(
    bytes: &[u8],
    geometry: Geometry,
    row: &ClassRow,
    at: &DefinedAt,
) -> Result<ViewRow, ViewFault>
    requires { IsPlace geometry row.now.place }
    ensures ok { IfOk result (IsListed bytes.now geometry row.now at.now) }
    ensures fault { IfErr result (IsRowFault bytes.now geometry row.now at.now) }
{
    let slot = at.slot;
    if root_at(geometry, row.place.chunk.root + 1) > bytes.len() as u64 {
        return Err(ViewFault::CutOff { slot });
    }
    let row = ViewRow {
        loader: row.loader,
        at: record_at(geometry, row.place),
        words: row.place.words,
        slot,
        mark: 0,
    };
    match marked(bytes, row) {
        Some(row) => Ok(row),
        None => Err(ViewFault::NoName { slot }),
    }
}

/// The rows of all classes, in the order in which they were found.
pub fn list_classes(
    alloc: Global,
    bytes: &[u8],
    geometry: Geometry,
    found: &LiveRows<DefinedAt>,
) -> Result<Vec<ViewRow>, ViewFault>
    requires { AllByRecursion (HasPlace geometry) found.now.rows }
    ensures rows { IfOk result (λ rows. rows.items
        ≡ marked_rows bytes.now geometry found.now.rows) }
    ensures good { IfOk result (λ rows. AllByRecursion (IsGoodRow bytes.now) rows.items) }
    ensures fault { IfErr result (IsListFault bytes.now geometry found.now.rows) }
{
    let mut rows = Vec::new(alloc);
    let mut left = found.walk();
    while let Some(row) = left.next() {
        if let Row::Class(row, at) = row {
            let row = list_class(bytes, geometry, row, at)?;
            rows.push(row)?;
        }
    }
    Ok(rows)
}

/// The loaders, in the order in which they were found.
pub fn list_loaders(
    alloc: Global,
    found: &LiveRows<DefinedAt>,
) -> Result<Vec<LoaderRow>, AllocError>
    ensures { IfOk result (λ loaders. loaders.items ≡ loaders_in found.now.rows) }
{
    let mut loaders = Vec::new(alloc);
    let mut left = found.walk();
    while let Some(row) = left.next() {
        if let Row::Loader(row) = row {
            loaders.push(*row)?;
        }
    }
    Ok(loaders)
}

//! What the classes of each loader take.

ghost use Rattle.std.specs.Prelude.{◌≡◌, map, IfOk};
ghost use Rattle.cm_statistics.specs.Usage.{usage_by_loader, loader_shown, usage_kept, AreSmall};

use crate::counting::{By, count_by, kept};
use crate::usage::Usage;
use cm_commands::Prepared;
use cm_layout::{LoaderRow, Row};
use cm_rows::LiveRows;
use std::alloc::{AllocError, Global};
use std::collections::BTreeMap;

/// What the classes of a live loader take.
#[derive(Drop)]
pub struct LoaderUse {
    /// The number of the command that added the loader.
    pub number: u64,
    pub name: Vec<u8>,
    pub usage: Usage,
}

fn use_of(
    alloc: Global,
    row: &LoaderRow,
    counted: &BTreeMap<u64, Usage>,
) -> Result<LoaderUse, AllocError>
    ensures { IfOk result (λ l. loader_shown l ≡ record {
      number = row.now.number;
      name = row.now.name;
      usage = usage_kept counted.now row.now.number;
    }) }
{
    Ok(LoaderUse {
        number: row.number,
        name: Vec::from_slice(alloc, row.name.as_bytes())?,
        usage: kept(counted, row.number),
    })
}

/// What the classes of each live loader take, in the order of the rows.
pub(crate) fn usage_by_loader(
    alloc: Global,
    rows: &LiveRows<Prepared>,
) -> Result<Vec<LoaderUse>, AllocError>
    requires { AreSmall rows.now.rows }
    ensures { IfOk result (λ list. map loader_shown list.items ≡ usage_by_loader rows.now.rows) }
{
    let counted = count_by(alloc, rows, By::Loader)?;
    let mut list = Vec::new(alloc);
    let mut left = rows.walk();
    while let Some(row) = left.next() {
        if let Row::Loader(row) = row {
            list.push(use_of(alloc, row, &counted)?)?;
        }
    }
    Ok(list)
}

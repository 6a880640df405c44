//! What some classes of a cache take.

ghost use Rattle.std.specs.Prelude.{◌≡◌, ◌≤◌, filter, IfOk};
ghost use Rattle.cm_layout.specs.Rows.{classes_in};
ghost use Rattle.cm_statistics.specs.Usage.{usage, usage_by_order, is_among, AreSmall};
ghost use Rattle.cm_statistics.specs.Usage.{with_row as with_row_of, RowHasRoom};

use crate::usage::Usage;
use cm_commands::Prepared;
use cm_layout::{ClassRow, Row};
use cm_rows::LiveRows;
use std::alloc::{AllocError, Global};

/// Which classes are meant.
#[derive(Clone, Copy, Debug)]
pub(crate) enum Among {
    All,
    /// Those whose records lie on chunks of this order.
    OfOrder(u32),
}

impl Among {
    fn has(self, row: &ClassRow) -> bool
        ensures { result ≡ is_among self row.now }
    {
        match self {
            Among::All => true,
            Among::OfOrder(order) => row.place.chunk.order == order,
        }
    }
}

fn with_row(usage: Usage, among: Among, row: &Row<Prepared>) -> Usage
    requires { RowHasRoom usage row.now }
    ensures { result ≡ with_row_of usage among row.now }
{
    match row {
        Row::Class(row, _) if among.has(row) => usage.with(row),
        _ => usage,
    }
}

/// What those of the classes take that are meant.
pub(crate) fn usage_of(rows: &LiveRows<Prepared>, among: Among) -> Usage
    requires { AreSmall rows.now.rows }
    ensures { result ≡ usage (filter (is_among among) (classes_in rows.now.rows)) }
{
    let mut usage = Usage::none();
    let mut left = rows.walk();
    while let Some(row) = left.next() {
        usage = with_row(usage, among, row);
    }
    usage
}

/// What the classes on chunks of each order take, from order 0 up to `top`.
pub(crate) fn usage_by_order(
    alloc: Global,
    rows: &LiveRows<Prepared>,
    top: u32,
) -> Result<Vec<Usage>, AllocError>
    requires small { AreSmall rows.now.rows }
    requires top { top ≤ 12 }
    ensures { IfOk result (λ list. list.items ≡ usage_by_order top (classes_in rows.now.rows)) }
{
    let mut list = Vec::new(alloc);
    for order in 0..top + 1 {
        list.push(usage_of(rows, Among::OfOrder(order)))?;
    }
    Ok(list)
}

//! The chunks that loaders own.

ghost use Rattle.std.specs.Prelude.{◌≡◌, IfOk};
ghost use Rattle.cm_layout.specs.Rows.{classes_in};
ghost use Rattle.cm_statistics.specs.Usage.{owned_chunks, chunk_begun, usage_kept, AreSmall};
ghost use Rattle.cm_statistics.specs.Usage.{RowIsSmall};

use crate::counting::{By, chunk_key, count_by, kept};
use crate::usage::Usage;
use cm_commands::Prepared;
use cm_layout::Row;
use cm_pool::Chunk;
use cm_rows::LiveRows;
use std::alloc::{AllocError, Global};
use std::collections::BTreeMap;

/// A chunk that a loader owns.
#[derive(Clone, Copy, Debug, PartialEq, Eq)]
pub struct OwnedChunk {
    /// The loader's number.
    pub loader: u64,
    pub chunk: Chunk,
    /// The size of the records on it, in bytes.
    pub used: u64,
}

/// The chunk that a row's record is the first on.
fn begun_by(row: &Row<Prepared>, counted: &BTreeMap<u64, Usage>) -> Option<OwnedChunk>
    requires { RowIsSmall row.now }
    ensures { result ≡ chunk_begun (usage_kept counted.now) row.now }
{
    match row {
        Row::Class(row, _) if row.place.offset == 0 => Some(OwnedChunk {
            loader: row.loader,
            chunk: row.place.chunk,
            used: kept(counted, chunk_key(&row.place.chunk)).used,
        }),
        _ => None,
    }
}

/// The chunks that loaders own, in the order in which they were taken.
pub(crate) fn owned_chunks(
    alloc: Global,
    rows: &LiveRows<Prepared>,
) -> Result<Vec<OwnedChunk>, AllocError>
    requires { AreSmall rows.now.rows }
    ensures { IfOk result (λ list. list.items ≡ owned_chunks (classes_in rows.now.rows)) }
{
    let counted = count_by(alloc, rows, By::Chunk)?;
    let mut list = Vec::new(alloc);
    let mut left = rows.walk();
    while let Some(row) = left.next() {
        if let Some(chunk) = begun_by(row, &counted) {
            list.push(chunk)?;
        }
    }
    Ok(list)
}

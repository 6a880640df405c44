//! Counts what the classes of each loader, or on each chunk, take.

ghost use Rattle.std.specs.Prelude.{◌≡◌, ◌==◌, filter, IfOk, OnOk, if◌then◌else◌, ℕ};
ghost use Rattle.cm_layout.specs.Rows.{classes_in};
ghost use Rattle.cm_statistics.specs.Usage.{usage, AreSmall, IsSmallRow, IsSmallChunk};
ghost use Rattle.cm_statistics.specs.Usage.{usage_kept, with_class, HasRoom, RowHasRoomIn};
ghost use Rattle.cm_statistics.specs.Usage.{row_kept, key_of, chunk_key as chunk_key_of};

use crate::usage::Usage;
use cm_commands::Prepared;
use cm_layout::{ClassRow, Row};
use cm_pool::Chunk;
use cm_rows::LiveRows;
use std::alloc::{AllocError, Global};
use std::collections::BTreeMap;

/// What classes are counted by.
#[derive(Clone, Copy, Debug)]
pub(crate) enum By {
    /// Their loader's number.
    Loader,
    /// The chunk that their record is on.
    Chunk,
}

/// A number that a chunk of a region has alone.
pub(crate) fn chunk_key(chunk: &Chunk) -> u64
    requires { IsSmallChunk chunk.now }
    ensures { result ≡ chunk_key_of chunk.now }
{
    (u64::from(chunk.root) * (1 << 32) + u64::from(chunk.at)) * 256 + u64::from(chunk.order)
}

impl By {
    fn key(self, row: &ClassRow) -> u64
        requires { IsSmallRow row.now }
        ensures { result ≡ key_of self row.now }
    {
        match self {
            By::Loader => row.loader,
            By::Chunk => chunk_key(&row.place.chunk),
        }
    }
}

/// What is counted for a key.
pub(crate) fn kept(counted: &BTreeMap<u64, Usage>, key: u64) -> Usage
    ensures { result ≡ usage_kept counted.now key }
{
    match counted.get(&key) {
        Some(usage) => *usage,
        None => Usage::none(),
    }
}

/// Counts one more class.
fn add_class(counted: &mut BTreeMap<u64, Usage>, key: u64, row: &ClassRow) -> Result<(), AllocError>
    requires small { IsSmallRow row.now }
    requires room { HasRoom (usage_kept counted.old key) row.now }
    ensures { OnOk result ((k : ℕ) → usage_kept counted.new k
        ≡ (if key == k then with_class (usage_kept counted.old k) row.now
        else usage_kept counted.old k)) }
{
    let usage = kept(counted, key).with(row);
    counted.insert(key, usage)?;
    Ok(())
}

fn add_row(
    counted: &mut BTreeMap<u64, Usage>,
    by: By,
    row: &Row<Prepared>,
) -> Result<(), AllocError>
    requires { RowHasRoomIn counted.old by row.now }
    ensures { OnOk result ((k : ℕ) → usage_kept counted.new k
        ≡ row_kept by (usage_kept counted.old k) row.now k) }
{
    match row {
        Row::Loader(_) => Ok(()),
        Row::Class(row, _) => add_class(counted, by.key(row), row),
    }
}

/// What the classes of each key take.
pub(crate) fn count_by(
    alloc: Global,
    rows: &LiveRows<Prepared>,
    by: By,
) -> Result<BTreeMap<u64, Usage>, AllocError>
    requires { AreSmall rows.now.rows }
    ensures { IfOk result (λ m. (k : ℕ) → usage_kept m k
        ≡ usage (filter (λ r. key_of by r == k) (classes_in rows.now.rows))) }
{
    let mut counted = BTreeMap::new(alloc);
    let mut left = rows.walk();
    while let Some(row) = left.next() {
        add_row(&mut counted, by, row)?;
    }
    Ok(counted)
}

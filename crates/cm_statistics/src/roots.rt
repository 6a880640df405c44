//! The roots that records use, and what a trim leaves.

ghost use Rattle.std.specs.Prelude.{◌≡◌};
ghost use Rattle.cm_commit.specs.Trims.{roots_of_row, roots_of_rows};
ghost use Rattle.cm_statistics.specs.Usage.{AreSmall, RowIsSmall};
ghost use Rattle.cm_statistics.specs.Statistics.{trimmed_len};

use cm_commands::Prepared;
use cm_layout::{Row, root_at};
use cm_pool::Geometry;
use cm_rows::LiveRows;

fn roots_of(row: &Row<Prepared>) -> u32
    requires { RowIsSmall row.now }
    ensures { result ≡ roots_of_row row.now }
{
    match row {
        Row::Class(row, _) => row.place.chunk.root + 1,
        Row::Loader(_) => 0,
    }
}

/// How many roots rows use: one more than the greatest.
pub(crate) fn used_roots(rows: &LiveRows<Prepared>) -> u32
    requires { AreSmall rows.now.rows }
    ensures { result ≡ roots_of_rows rows.now.rows }
{
    let mut used = 0;
    let mut left = rows.walk();
    while let Some(row) = left.next() {
        used = used.max(roots_of(row));
    }
    used
}

/// The length of a file after a trim: `whole` is how many whole roots it holds, `used` how many of
/// them rows use.
pub(crate) fn trimmed_len(geometry: Geometry, bytes: u64, whole: u32, used: u32) -> u64
    ensures { result ≡ trimmed_len geometry bytes whole used }
{
    if whole.min(geometry.roots()) <= used {
        return bytes;
    }
    root_at(geometry, used)
}

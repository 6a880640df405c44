//! What a check reports about a file.

ghost use Rattle.std.specs.Prelude.{◌≡◌, ◌+◌, ◌<◌, ◌≤◌, ◌^◌, ◌∷◌, [], length};
ghost use Rattle.cm_layout.specs.Rows.{numbers_in, classes_in};
ghost use Rattle.cm_maintenance.specs.Report.{first_records, IsCount};

use cm_commands::Prepared;
use cm_layout::Row;
use cm_rows::LiveRows;

/// What a file holds that stands for a cache.
#[derive(Clone, Copy, Debug, PartialEq, Eq)]
pub struct Report {
    /// How many live loaders there are.
    pub loaders: usize,
    /// How many classes they have together.
    pub classes: usize,
    /// How many chunks the records of these classes lie in.
    pub chunks: usize,
    /// The number of the last command.
    pub number: u64,
}

impl Report {
    // The same with one more row. A chunk is counted with its first record.
    fn with_row(self, row: &Row<Prepared>) -> Report
        requires room { self.loaders + self.classes + 1 < 2 ^ 64 }
        requires chunks { self.chunks ≤ self.classes }
        ensures loaders { result.loaders ≡ self.loaders + length (numbers_in (row.now ∷ [])) }
        ensures classes { result.classes ≡ self.classes + length (classes_in (row.now ∷ [])) }
        ensures chunks { result.chunks
            ≡ self.chunks + first_records (classes_in (row.now ∷ [])) }
        ensures number { result.number ≡ self.number }
    {
        match row {
            Row::Loader(_) => Report {
                loaders: self.loaders + 1,
                ..self
            },
            Row::Class(row, _) => Report {
                classes: self.classes + 1,
                chunks: self.chunks + usize::from(row.place.offset == 0),
                ..self
            },
        }
    }
}

/// What these rows hold after the command of this number.
pub(crate) fn count(rows: &LiveRows<Prepared>, number: u64) -> Report
    ensures { IsCount rows.now.rows number result }
{
    let _rows = rows.len(); // so the proof knows that no sum is too great
    let mut report = Report {
        loaders: 0,
        classes: 0,
        chunks: 0,
        number,
    };
    let mut left = rows.walk();
    while let Some(row) = left.next() {
        report = report.with_row(row);
    }
    report
}

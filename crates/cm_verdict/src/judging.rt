//! Judges the records of rows.

ghost use Rattle.std.specs.Prelude.{◌≡◌, ◌<◌, Option, List, ℕ, length, slice_index_or};
ghost use Rattle.std.specs.List.{AllZip};
ghost use Rattle.cm_verdict.specs.declared.row_record.RowRecord.{RowRecord as RowRecordOf};
ghost use Rattle.cm_verdict.specs.Judging.{IsTaken, IsJudged};

use crate::row_record::RowRecord;
use std::alloc::Global;
use std::thread::{self, Threads};

// Judges the words of each row, one after another.
fn judge_rows(alloc: Global, records: &mut [RowRecord])
    ensures { (k : ℕ) (d : RowRecordOf) (words : Option (List ℕ)) → k < length records.old
        → IsTaken words (slice_index_or records.old k d)
        → IsJudged words (slice_index_or records.new k d) }
{
    let mut buffer = Vec::new(alloc);
    for row in 0..records.len() {
        records[row].judge(alloc, &mut buffer);
    }
}

/// Judges the words of each row.
pub fn judge(alloc: Global, mut records: Vec<RowRecord>) -> Vec<RowRecord>
    ensures { (words : List (Option (List ℕ))) → AllZip IsTaken words records.items
        → AllZip IsJudged words result.items }
{
    judge_rows(alloc, &mut records);
    records
}

/// Judges the words of each row, in as many parts as there are threads, each by a thread of its
/// own: what is known of a row doesn't depend on their number.
pub fn judge_in_threads<R: Threads + Sync>(
    rt: &R,
    alloc: Global,
    mut records: Vec<RowRecord>,
    threads: usize,
) -> Vec<RowRecord>
    requires { 0 < threads }
    ensures { (words : List (Option (List ℕ))) → AllZip IsTaken words records.items
        → AllZip IsJudged words result.items }
{
    let size = records.len().div_ceil(threads).max(1);
    let judge_part = |_, part: &mut [RowRecord]|
        ensures { (k : ℕ) (d : RowRecordOf) (words : Option (List ℕ)) → k < length part.old
            → IsTaken words (slice_index_or part.old k d)
            → IsJudged words (slice_index_or part.new k d) }
    { judge_rows(alloc, part) };
    thread::for_each_chunk_mut(rt, &mut records, size, &judge_part);
    records
}

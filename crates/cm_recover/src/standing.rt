//! Reads what a file stands for.

ghost use Rattle.std.specs.Prelude.{◌≡◌, ◌≤◌, ◌^◌, List, ℕ};
ghost use Rattle.cm_commit.specs.GroupPlans.{whole_roots as whole_roots_of};
ghost use Rattle.cm_verdict.specs.Judging.{Judges};
ghost use Rattle.cm_verdict.specs.Standing.{IsJudgedFile};
ghost use Rattle.cm_verdict.specs.Verdict.{Standing};
ghost use Rattle.cm_recover.specs.Standing.{IsStanding, ReadsStanding};

use cm_commands::Prepared;
use cm_commit::JournalEnd;
use cm_disk::Disk;
use cm_layout::{root_bytes, roots_at};
use cm_pool::Geometry;
use cm_record::Record;
use cm_rows::LiveRows;
use cm_verdict::{JudgedFile, OpenFault, RowRecord, judge, read_verdict};
use std::alloc::Global;
use std::sync::Arc;

/// What a file stands for: where its journal continues, with its sizes and the number of the last
/// command, and the live rows, each class with its record.
#[derive(Drop)]
pub struct StandingFile {
    pub journal: JournalEnd,
    /// The version of the half that counts.
    pub version: u16,
    /// How many whole roots the file has.
    pub roots: u32,
    /// The rows, for the accepted cache.
    pub rows: LiveRows<Prepared>,
    /// The same rows with the same records, for the file's disk.
    pub committed: LiveRows<Arc<Record, Global>>,
}

// How many whole roots a file of this length has.
fn whole_roots(geometry: Geometry, long: u64) -> u32
    requires { long ≤ 2 ^ 40 }
    ensures { result ≡ whole_roots_of geometry long }
{
    geometry.invariant_holds();
    (long.saturating_sub(roots_at(geometry)) / root_bytes(geometry)) as u32
}

impl StandingFile {
    // Where the journal of a file continues, and its rows.
    fn of(file: JudgedFile) -> StandingFile
        requires { (contents : List ℕ) × (s : Standing) × IsJudgedFile contents file s }
        ensures { (contents : List ℕ) (s : Standing) → IsJudgedFile contents file s
            → IsStanding contents result s }
    {
        StandingFile {
            journal: JournalEnd {
                geometry: file.geometry,
                half: file.half,
                end: file.end,
                epoch: file.head.epoch,
                other_open: file.other_open,
                number: file.number,
            },
            version: file.head.version,
            roots: whole_roots(file.geometry, file.long),
            rows: file.rows,
            committed: file.committed,
        }
    }
}

/// Reads what a file stands for, or its first damage: first what is found without records, then the
/// records of the live classes, in the order of their rows. It only reads.
///
/// `NotACache` or `Damaged` is the first fault of the contents. `Device` if the device failed and
/// `NoMemory` if an allocation failed; these say nothing about the contents.
pub fn read_standing<D: Disk>(alloc: Global, disk: &mut D) -> Result<StandingFile, OpenFault>
    ensures { ReadsStanding D.view disk.old disk.new result }
{
    read_standing_by(|records| judge(alloc, records), alloc, disk)
}

/// As [`read_standing`], with what judges the records.
pub(crate) fn read_standing_by<J, D>(
    judge: J,
    alloc: Global,
    disk: &mut D,
) -> Result<StandingFile, OpenFault>
where
    J: FnOnce(Vec<RowRecord>) -> Vec<RowRecord>,
    D: Disk,
    requires callable { J.IsAlwaysCallable judge }
    requires judges { Judges (J.post judge) }
    ensures { ReadsStanding D.view disk.old disk.new result }
{
    let file = read_verdict(judge, alloc, disk)?;
    Ok(StandingFile::of(file))
}

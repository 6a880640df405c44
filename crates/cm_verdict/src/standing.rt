//! Reads what a file stands for.

ghost use Rattle.std.specs.Prelude.{◌≡◌, ◌≢◌, List, ℕ, Err, IfOk, IfErr};
ghost use Rattle.cm_guards.specs.Calls.{Reads};
ghost use Rattle.cm_verdict.specs.declared.fault.OpenFault.TheVariants as open_fault;
ghost use Rattle.cm_verdict.specs.Judging.{Judges};
ghost use Rattle.cm_verdict.specs.Opening.{IsFaultIn};
ghost use Rattle.cm_verdict.specs.Standing.{FollowsVerdict, IsReadOf, IsJudgedOf, IsJudgedFile};
ghost use Rattle.cm_verdict.specs.Standing.{ReadsVerdict};
ghost use Rattle.cm_verdict.specs.Verdict.{verdict};

use crate::defined_at::DefinedAt;
use crate::fault::OpenFault;
use crate::laws::found_is_live;
use crate::reading::read_found;
use crate::row_record::RowRecord;
use crate::second_pass::SecondPass;
use cm_commands::Prepared;
use cm_disk::Disk;
use cm_layout::{Half, HalfHead};
use cm_pool::Geometry;
use cm_record::Record;
use cm_rows::LiveRows;
use std::alloc::Global;
use std::sync::Arc;

/// A file that stands for a cache: what was found in it, and its live rows, each class with its
/// record.
#[derive(Drop)]
pub struct JudgedFile {
    pub geometry: Geometry,
    /// The half that counts.
    pub half: Half,
    pub head: HalfHead,
    /// Whether the gate of the other half is open.
    pub other_open: bool,
    /// The first slot after the groups.
    pub end: u32,
    /// The number of the last command.
    pub number: u64,
    /// The file's length.
    pub long: u64,
    /// The rows, for the accepted cache.
    pub rows: LiveRows<Prepared>,
    /// The same rows with the same records, for the file's disk.
    pub committed: LiveRows<Arc<Record, Global>>,
}

/// A file whose rows were found, and the words of their records taken.
#[derive(Drop)]
struct ReadRows {
    pass: SecondPass,
    found: LiveRows<DefinedAt>,
    records: Vec<RowRecord>,
    half: Half,
    head: HalfHead,
    /// Whether the gate of the other half is open.
    other_open: bool,
    /// The first slot after the groups.
    end: u32,
}

// Finds the rows and takes the words of their records.
fn read_rows<D: Disk>(alloc: Global, disk: &mut D) -> Result<ReadRows, OpenFault>
    ensures rows { IfOk result (IsReadOf (D.view.contents disk.old)) }
    ensures fault { IfErr result (λ e. IsFaultIn e (verdict (D.view.contents disk.old))) }
    ensures reads { Reads D.view disk.old disk.new
        (result ≡ Err open_fault.Device) }
{
    found_is_live();
    let found = read_found(alloc, disk)?;
    let pass = SecondPass {
        alloc,
        geometry: found.geometry,
        long: disk.len()?,
        number: found.walk.number(),
    };
    let end = found.walk.end();
    let rows = found.walk.into_book();
    let records = pass.take_words(disk, &rows)?;
    Ok(ReadRows {
        pass,
        found: rows,
        records,
        half: found.counts.half,
        head: found.counts.head,
        other_open: found.other_open,
        end,
    })
}

impl ReadRows {
    // What the file stands for, after the records were judged.
    fn stand(self) -> Result<JudgedFile, OpenFault>
        requires { (contents : List ℕ) × IsJudgedOf contents self }
        ensures standing { (contents : List ℕ) → IsJudgedOf contents self
            → FollowsVerdict (IsJudgedFile contents) result (verdict contents) }
        ensures in_memory { IfErr result (λ e. e ≢ open_fault.Device) }
    {
        let ReadRows {
            pass,
            found,
            records,
            half,
            head,
            other_open,
            end,
        } = self;
        let rows = pass.take_all(&found, records)?;
        let (rows, committed) = rows.into_books();
        Ok(JudgedFile {
            geometry: pass.geometry,
            half,
            head,
            other_open,
            end,
            number: pass.number,
            long: pass.long,
            rows,
            committed,
        })
    }
}

/// Reads what a file stands for, or its first damage: first what is found without records, then the
/// records of the live classes, which `judge` judges, in the order of their rows. It only reads.
///
/// `NotACache` or `Damaged` is the first fault of the contents. `Device` if the device failed and
/// `NoMemory` if an allocation failed; these say nothing about the contents.
pub fn read_verdict<J, D>(judge: J, alloc: Global, disk: &mut D) -> Result<JudgedFile, OpenFault>
where
    J: FnOnce(Vec<RowRecord>) -> Vec<RowRecord>,
    D: Disk,
    requires callable { J.IsAlwaysCallable judge }
    requires judges { Judges (J.post judge) }
    ensures { ReadsVerdict D.view disk.old disk.new result }
{
    let mut file = read_rows(alloc, disk)?;
    file.records = judge(file.records);
    file.stand()
}

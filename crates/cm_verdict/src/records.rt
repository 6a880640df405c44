//! Takes the words of the records of rows from a disk.

ghost use Rattle.std.specs.Prelude.{◌≡◌, ◌≤◌, ◌⊎◌, [], length, Err, IfOk, IfErr};
ghost use Rattle.cm_layout.specs.Rows.{bare};
ghost use Rattle.cm_layout.specs.Frames.{LiveRowsKeep};
ghost use Rattle.cm_guards.specs.Calls.{Reads};
ghost use Rattle.cm_verdict.specs.declared.fault.OpenFault.TheVariants as open_fault;
ghost use Rattle.cm_verdict.specs.Judging.{AreTaken, IsTaken, words_in_place, words_of_row};
ghost use Rattle.cm_verdict.specs.Standing.{IsPlace, HasPlace};

use crate::defined_at::DefinedAt;
use crate::fault::OpenFault;
use crate::row_record::RowRecord;
use crate::second_pass::SecondPass;
use crate::words::TakenWords;
use cm_disk::{Disk, WordRange};
use cm_layout::{Row, record_at, root_at};
use cm_pool::Place;
use cm_rows::LiveRows;

impl SecondPass {
    // The words of a row's record.
    #[tactic(auto, using(cm_guards::proofs::reading))]
    fn words_of<D: Disk>(&self, disk: &mut D, row: &Row<DefinedAt>) -> Result<RowRecord, OpenFault>
        requires place { HasPlace self.now.geometry row.now }
        requires long { self.now.long ≡ length (D.view.contents disk.old) }
        ensures words { IfOk result (IsTaken
            (words_of_row self.now.geometry (D.view.contents disk.old) row.now)) }
        ensures faults { IfErr result (λ e. (e ≡ open_fault.Device) ⊎ (e ≡ open_fault.NoMemory)) }
        ensures reads { Reads D.view disk.old disk.new (result ≡ Err open_fault.Device) }
    {
        let Some(range) = self.range_of(row) else {
            return Ok(RowRecord::Absent);
        };
        let words = disk.take_words(self.alloc, range)??;
        Ok(RowRecord::Taken(TakenWords::new(words)))
    }

    /// The words of all rows.
    #[tactic(auto, using(cm_guards::proofs::reading))]
    pub(crate) fn take_words<D: Disk>(
        &self,
        disk: &mut D,
        found: &LiveRows<DefinedAt>,
    ) -> Result<Vec<RowRecord>, OpenFault>
        requires live { LiveRowsKeep self.now.geometry self.now.number [] (bare found.now.rows) }
        requires long { self.now.long ≡ length (D.view.contents disk.old) }
        ensures words { IfOk result (λ records. AreTaken self.now.geometry
            (D.view.contents disk.old) found.now.rows records.items) }
        ensures faults { IfErr result (λ e. (e ≡ open_fault.Device) ⊎ (e ≡ open_fault.NoMemory)) }
        ensures reads { Reads D.view disk.old disk.new (result ≡ Err open_fault.Device) }
    {
        self.geometry.invariant_holds();
        let mut records = Vec::new(self.alloc);
        let mut left = found.walk();
        while let Some(row) = left.next() {
            let record = self.words_of(disk, row)?;
            records.push(record)?;
        }
        Ok(records)
    }
}

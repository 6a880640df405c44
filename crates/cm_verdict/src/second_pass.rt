//! The second pass over the rows of a file: each class gets its record, which was judged.

ghost use Rattle.std.specs.Prelude.{◌≡◌, ◌≢◌, [], List, ℕ, Option, Some, IfOk};
ghost use Rattle.std.specs.Prelude.{IfErr, is_some, true};
ghost use Rattle.cm_class.specs.declared.class_file.ClassFile.{ClassFile};
ghost use Rattle.cm_pool.specs.Geometry.{Sizes};
ghost use Rattle.cm_pool.specs.declared.place.Place.{Place as PlaceOf};
ghost use Rattle.cm_layout.specs.declared.row.Row.{Row as RowOf};
ghost use Rattle.cm_layout.specs.declared.row.Row.TheVariants.{Class};
ghost use Rattle.cm_layout.specs.Rows.{bare};
ghost use Rattle.cm_layout.specs.Frames.{LiveRowsKeep};
ghost use Rattle.cm_verdict.specs.Faults.{at_slot};
ghost use Rattle.cm_verdict.specs.Verdict.{class_kept, classes_found};
ghost use Rattle.cm_verdict.specs.declared.fault.OpenFault.TheVariants as open_fault;
ghost use Rattle.cm_verdict.specs.Judging.{AreJudged, IsJudged, words_in_place, words_of_row};
ghost use Rattle.cm_verdict.specs.Standing.{FollowsVerdict, class_in_place, IsKeptClass};
ghost use Rattle.cm_verdict.specs.Standing.{IsRecorded, AreRecorded, bare_of, MayFollow};
ghost use Rattle.cm_verdict.specs.Standing.{row_found};

use crate::defined_at::DefinedAt;
use crate::fault::{Damage, FileFault, OpenFault};
use crate::row_record::RowRecord;
use crate::shared_rows::SharedRows;
use cm_commands::Prepared;
use cm_layout::{ClassRow, Row};
use cm_pool::Geometry;
use cm_record::{Record, words_tell_name};
use cm_rows::LiveRows;
use std::alloc::{AllocError, Global};

/// A file whose rows were found and whose records are taken.
#[derive(Clone, Copy)]
pub(crate) struct SecondPass {
    pub(crate) alloc: Global,
    pub(crate) geometry: Geometry,
    /// The file's length.
    pub(crate) long: u64,
    /// The number of the last command.
    pub(crate) number: u64,
}

impl SecondPass {
    // The class of a record.
    fn prepare(&self, content: Record) -> Result<Prepared, AllocError>
        requires { is_some (class_kept content) ≡ true }
        ensures { IfOk result (λ p. IsKeptClass content (Some p)) }
    {
        words_tell_name();
        content.invariant_holds();
        Prepared::of_record(self.alloc, content)
    }

    // The class whose record was judged, and whose entry is in this slot.
    fn class_of(&self, judged: RowRecord, slot: u32) -> Result<Prepared, OpenFault>
        requires { (words : Option (List ℕ)) × IsJudged words judged }
        ensures class { (sizes : Sizes) (contents : List ℕ) (place : PlaceOf)
            → IsJudged (words_in_place sizes contents place) judged
            → FollowsVerdict IsRecorded result
            (at_slot slot (class_in_place sizes contents place)) }
        ensures in_memory { IfErr result (λ e. e ≢ open_fault.Device) }
    {
        match judged {
            RowRecord::Kept(kept) => Ok(self.prepare(kept.into_record())?),
            RowRecord::Absent => Err(OpenFault::File(FileFault::Damaged {
                what: Damage::Chunks,
                slot,
            })),
            RowRecord::Broken => Err(OpenFault::File(FileFault::Damaged {
                what: Damage::Record,
                slot,
            })),
            RowRecord::NoMemory => Err(OpenFault::NoMemory),
            RowRecord::Taken(_) => unreachable!(),
        }
    }

    // Takes a class, whose entry is in this slot, after the rows already taken.
    fn take_class(
        &self,
        rows: &mut SharedRows,
        row: ClassRow,
        judged: RowRecord,
        slot: u32,
    ) -> Result<(), OpenFault>
        requires follows { MayFollow self.now.geometry self.now.number rows.old (Class row tt) }
        requires judged { (words : Option (List ℕ)) × IsJudged words judged }
        ensures taken { (contents : List ℕ) (before : List (RowOf ClassFile))
            → IsJudged (words_in_place self.now.geometry contents row.place) judged
            → AreRecorded self.now.geometry rows.old before
            → FollowsVerdict (λ u. AreRecorded self.now.geometry rows.new) result
            (row_found self.now.geometry contents before (Class row (record { slot = slot }))) }
        ensures in_memory { IfErr result (λ e. e ≢ open_fault.Device) }
    {
        let class = self.class_of(judged, slot)?;
        if rows.has_class(row.loader, &class) {
            return Err(OpenFault::File(FileFault::Damaged {
                what: Damage::ClassTwice,
                slot,
            }));
        }
        rows.push_class(self.number, row, class)?;
        Ok(())
    }

    // Takes a row, after those already taken.
    fn take_row(
        &self,
        rows: &mut SharedRows,
        row: &Row<DefinedAt>,
        judged: RowRecord,
    ) -> Result<(), OpenFault>
        requires follows { MayFollow self.now.geometry self.now.number rows.old (bare_of row.now) }
        requires judged { (words : Option (List ℕ)) × IsJudged words judged }
        ensures taken { (contents : List ℕ) (before : List (RowOf ClassFile))
            → IsJudged (words_of_row self.now.geometry contents row.now) judged
            → AreRecorded self.now.geometry rows.old before
            → FollowsVerdict (λ u. AreRecorded self.now.geometry rows.new) result
            (row_found self.now.geometry contents before row.now) }
        ensures in_memory { IfErr result (λ e. e ≢ open_fault.Device) }
    {
        match row {
            Row::Loader(row) => {
                rows.push_loader(self.number, row);
                Ok(())
            }
            Row::Class(row, at) => self.take_class(rows, *row, judged, at.slot),
        }
    }

    /// Takes all rows that were found, each with the verdict on its record. The damage that is
    /// reported is the first in the order of the rows.
    pub(crate) fn take_all(
        &self,
        found: &LiveRows<DefinedAt>,
        judged: Vec<RowRecord>,
    ) -> Result<SharedRows, OpenFault>
        requires live { LiveRowsKeep self.now.geometry self.now.number [] (bare found.now.rows) }
        requires judged { (contents : List ℕ)
            × AreJudged self.now.geometry contents found.now.rows judged.items }
        ensures classes { (contents : List ℕ)
            → AreJudged self.now.geometry contents found.now.rows judged.items
            → FollowsVerdict (AreRecorded self.now.geometry) result
            (classes_found self.now.geometry contents [] found.now.rows) }
        ensures in_memory { IfErr result (λ e. e ≢ open_fault.Device) }
    {
        let mut rows = SharedRows::new(self.alloc, self.geometry)?;
        let mut left = found.walk();
        let mut records = judged.into_iter();
        while let Some(row) = left.next() {
            let Some(judged) = records.next() else {
                unreachable!()
            };
            self.take_row(&mut rows, row, judged)?;
        }
        Ok(rows)
    }
}

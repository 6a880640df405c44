//! Where the records of a file are.

ghost use Rattle.std.specs.Prelude.{◌≡◌, ◌≤◌, ◌^◌, [], length, Err, IfOk, IfErr};
ghost use Rattle.cm_layout.specs.Rows.{bare};
ghost use Rattle.cm_layout.specs.Frames.{LiveRowsKeep};
ghost use Rattle.cm_guards.specs.Calls.{Reads};
ghost use Rattle.cm_verdict.specs.Verdict.{verdict};
ghost use Rattle.cm_verdict.specs.declared.fault.OpenFault.TheVariants as open_fault;
ghost use Rattle.cm_verdict.specs.Opening.{IsFaultIn};
ghost use Rattle.cm_verdict.specs.Ranges.{AreRecordRanges, range_of_place, range_of_row};
ghost use Rattle.cm_verdict.specs.Ranges.{ranges_of_rows};
ghost use Rattle.cm_verdict.specs.Standing.{IsPlace, HasPlace};

use crate::defined_at::DefinedAt;
use crate::fault::OpenFault;
use crate::laws::found_is_live;
use crate::reading::read_found;
use crate::second_pass::SecondPass;
use cm_disk::{Disk, WordRange};
use cm_layout::{Row, record_at, root_at};
use cm_pool::Place;
use cm_rows::LiveRows;
use std::alloc::{AllocError, Global};

impl SecondPass {
    /// The words at a place, if its root is in the file as a whole.
    pub(crate) fn range_at(&self, place: Place) -> Option<WordRange>
        requires { IsPlace self.now.geometry place }
        ensures { result ≡ range_of_place self.now.geometry self.now.long place }
    {
        if root_at(self.geometry, place.chunk.root + 1) > self.long {
            return None;
        }
        Some(WordRange {
            at: record_at(self.geometry, place),
            count: place.words as usize,
        })
    }

    /// The words of a class's record, if its root is in the file as a whole.
    pub(crate) fn range_of(&self, row: &Row<DefinedAt>) -> Option<WordRange>
        requires { HasPlace self.now.geometry row.now }
        ensures { result ≡ range_of_row self.now.geometry self.now.long row.now }
    {
        match row {
            Row::Loader(_) => None,
            Row::Class(row, _) => self.range_at(row.place),
        }
    }

    // The ranges of all records, in the order of the rows.
    fn ranges_of(&self, found: &LiveRows<DefinedAt>) -> Result<Vec<WordRange>, AllocError>
        requires { LiveRowsKeep self.now.geometry self.now.number [] (bare found.now.rows) }
        ensures { IfOk result (λ ranges. ranges.items
            ≡ ranges_of_rows self.now.geometry self.now.long found.now.rows) }
    {
        self.geometry.invariant_holds();
        let mut ranges = Vec::new(self.alloc);
        let mut left = found.walk();
        while let Some(row) = left.next() {
            if let Some(range) = self.range_of(row) {
                ranges.push(range)?;
            }
        }
        Ok(ranges)
    }
}

/// The ranges of words that opening a file takes from its disk, besides its superblock and its
/// halves: those of the records of its live classes, in the order of their places. A record whose
/// root the file doesn't hold as a whole has none. It only reads, and no root.
///
/// `NotACache` or `Damaged` is the first fault of the contents, if it is found without records.
/// `Device` if the device failed and `NoMemory` if an allocation failed; these say nothing about
/// the contents.
pub fn record_ranges<D: Disk>(alloc: Global, disk: &mut D) -> Result<Vec<WordRange>, OpenFault>
    ensures ranges { IfOk result (λ ranges.
        AreRecordRanges (D.view.contents disk.old) ranges.items) }
    ensures fault { IfErr result (λ e. IsFaultIn e (verdict (D.view.contents disk.old))) }
    ensures reads { Reads D.view disk.old disk.new
        (result ≡ Err open_fault.Device) }
{
    found_is_live();
    let found = read_found(alloc, disk)?;
    let pass = SecondPass {
        alloc,
        geometry: found.geometry,
        long: disk.len()?,
        number: found.walk.number(),
    };
    let mut ranges = pass.ranges_of(&found.walk.into_book())?;
    ranges.sort_unstable_by_key(|range| range.at);
    Ok(ranges)
}

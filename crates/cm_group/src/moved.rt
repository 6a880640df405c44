//! The records that move with an entry.

ghost use Rattle.std.specs.Prelude.{◌≡◌, [], map, Some, None, MatchOption, IfOk};
ghost use Rattle.std.specs.Arc.{arc_value};
ghost use Rattle.std.specs.List.{slice_get};
ghost use Rattle.cm_group.specs.Groups.{offsets_from};

use cm_record::Record;
use std::alloc::{AllocError, Global};
use std::marker::Model;
use std::sync::Arc;

/// Records that are one after another on a chunk and move together. Contracts see their words.
#[derive(Drop)]
pub struct MovedRecords {
    records: Vec<Arc<Record, Global>>,
    /// The offset of each of them on its chunk.
    offsets: Vec<u32>,
}

impl Model for MovedRecords {
    ghost use Rattle.std.specs.Prelude.{◌≡◌, ℕ, List, map};
    ghost use Rattle.std.specs.Arc.{arc_value};
    ghost use Rattle.cm_group.specs.Groups.{offsets_from};

    ghost Value = { List (List ℕ) };

    ghost view = { λ m. map arc_value m.records.items };

    ghost invariant = { λ m. m.offsets.items ≡ offsets_from 0 (map arc_value m.records.items) };
}

// The offset of each of some records that follow one another.
fn offsets_of(alloc: Global, records: &[Arc<Record, Global>]) -> Result<Vec<u32>, AllocError>
    ensures { IfOk result (λ offsets. offsets.items
        ≡ offsets_from 0 (map arc_value records.now)) }
{
    let mut offsets = Vec::with_capacity(alloc, records.len())?;
    let mut next: u32 = 0;
    for class in records {
        offsets.push(next)?;
        next = next.saturating_add(class.words());
    }
    Ok(offsets)
}

impl MovedRecords {
    /// No records. Doesn't allocate.
    pub fn none(alloc: Global) -> MovedRecords
        ensures { result ≡ [] }
    {
        MovedRecords {
            records: Vec::new(alloc),
            offsets: Vec::new(alloc),
        }
    }

    /// These records, in their order on the chunk.
    pub fn new(alloc: Global, records: Vec<Arc<Record, Global>>) -> Result<MovedRecords, AllocError>
        ensures { IfOk result (λ moved. moved ≡ map arc_value records.items) }
    {
        let offsets = offsets_of(alloc, &records)?;
        Ok(MovedRecords { records, offsets })
    }

    /// The records, in order.
    pub fn records(&self) -> &[Arc<Record, Global>]
        ensures { map arc_value result.now ≡ self.now }
    {
        &self.records
    }

    /// The record of this number, and its offset on the chunk.
    pub fn at(&self, number: usize) -> Option<(u32, &Arc<Record, Global>)>
        ensures record { MatchOption result (slice_get self.now number ≡ None)
            (λ m. slice_get self.now number ≡ Some (arc_value m.1.now)) }
        ensures offset { MatchOption result (slice_get self.now number ≡ None)
            (λ m. slice_get (offsets_from 0 self.now) number ≡ Some m.0) }
    {
        let class = self.records.get(number)?;
        Some((self.offsets[number], class))
    }
}

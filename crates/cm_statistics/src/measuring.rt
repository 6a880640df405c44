//! Measures a file.

ghost use Rattle.std.specs.Prelude.{◌≡◌, length, Err, IfOk, List, ℕ};
ghost use Rattle.cm_guards.specs.Calls.{Reads};
ghost use Rattle.cm_verdict.specs.Verdict.{verdict, Standing};
ghost use Rattle.cm_verdict.specs.declared.fault.OpenFault.TheVariants as open_fault;
ghost use Rattle.cm_verdict.specs.Standing.{FollowsVerdict};
ghost use Rattle.cm_recover.specs.Standing.{IsStanding};
ghost use Rattle.cm_statistics.specs.Usage.{AreSmall};
ghost use Rattle.cm_statistics.specs.Statistics.{Measures, JournalMeasures};

use crate::among::{Among, usage_by_order, usage_of};
use crate::by_loader::usage_by_loader;
use crate::chunks::owned_chunks;
use crate::report::{JournalUse, Statistics};
use crate::roots::{trimmed_len, used_roots};
use crate::unused::largest_unused;
use cm_disk::Disk;
use cm_layout::row_limit;
use cm_recover::{StandingFile, read_standing};
use cm_verdict::{OpenFault, found_is_live, verdict_is_exact};
use std::alloc::{AllocError, Global};

fn journal_of(file: &StandingFile) -> JournalUse
    ensures { (contents : List ℕ) (s : Standing) → IsStanding contents file.now s
        → JournalMeasures s result }
{
    JournalUse {
        half: file.journal.half,
        epoch: file.journal.epoch,
        version: file.version,
        used: file.journal.end,
        left: file
            .journal
            .geometry
            .slots()
            .saturating_sub(file.journal.end),
        live: file.rows.slots(),
        live_limit: row_limit(file.journal.geometry),
    }
}

/// What is reported of a file of this many bytes.
fn measure(alloc: Global, file: &mut StandingFile, bytes: u64) -> Result<Statistics, AllocError>
    requires small { AreSmall file.old.rows.rows }
    requires sizes { file.old.rows.sizes ≡ file.old.journal.geometry }
    ensures { IfOk result (λ t. (contents : List ℕ) (s : Standing) → length contents ≡ bytes
        → IsStanding contents file.old s → Measures contents t s) }
{
    let geometry = file.journal.geometry;
    let journal = journal_of(file);
    let largest_free = largest_unused(&mut file.rows, geometry);
    let used = used_roots(&file.rows);
    Ok(Statistics {
        geometry,
        number: file.journal.number,
        journal,
        bytes,
        trimmed: trimmed_len(geometry, bytes, file.roots, used),
        roots: file.roots,
        used_roots: used,
        largest_free,
        usage: usage_of(&file.rows, Among::All),
        orders: usage_by_order(alloc, &file.rows, geometry.top())?,
        loaders: usage_by_loader(alloc, &file.rows)?,
        chunks: owned_chunks(alloc, &file.rows)?,
    })
}

/// How much of a file the cache takes that would open from it. The file is only read: no byte
/// changes, and nothing is synced.
///
/// The time is proportional to the number of rows times its logarithm, and, if the region is nearly
/// full, to the number of its smallest chunks.
///
/// # Errors
/// `NotACache` and `Damaged` exactly if that is the verdict on the file's bytes, as when the file
/// is opened; `Device` if the device failed; `NoMemory` if an allocation failed.
#[tactic(auto, using(cm_guards::proofs::reading))]
pub fn statistics<D: Disk>(alloc: Global, disk: &mut D) -> Result<Statistics, OpenFault>
    ensures verdict { FollowsVerdict (Measures (D.view.contents disk.old)) result
        (verdict (D.view.contents disk.old)) }
    ensures reads { Reads D.view disk.old disk.new
        (result ≡ Err open_fault.Device) }
{
    found_is_live();
    verdict_is_exact();
    let mut file = read_standing(alloc, disk)?;
    let bytes = disk.len()?;
    Ok(measure(alloc, &mut file, bytes)?)
}

//! The committer of a region file.

ghost use Rattle.std.specs.Prelude.{◌≡◌, ◌≤◌, ◌<◌, ◌+◌, ◌^◌, ◌↔◌, IfOk, IfErr, IsTrue, IsOk, OnOk};
ghost use Rattle.std.specs.Prelude.{OnErr, Some, None, [], true, false, vec_capacity, length};
ghost use Rattle.std.specs.Prelude.{if◌then◌else◌, is_some};
ghost use Rattle.std.specs.Arc.{arc_value};
ghost use Rattle.cm_guards.specs.Guards.{EachImage};
ghost use Rattle.cm_guards.specs.Calls.{LeavesOnly};
ghost use Rattle.cm_rows.specs.Rows.{is_above};
ghost use Rattle.cm_group.specs.Groups.{entries_in, slots_taken};
ghost use Rattle.cm_guards.specs.Stages.{calls_left};
ghost use Rattle.cm_commit.specs.Checkpoints.{is_due_at};
ghost use Rattle.cm_commit.specs.Offers.{rows_after_group};
ghost use Rattle.cm_commit.specs.GroupPlans.{roots_of_entries, roots_to_add, all_writes};
ghost use Rattle.cm_commit.specs.Keeping.{keep_rules};
ghost use Rattle.cm_commit.specs.States.{MayLeave, TakesGroup, with_taken, NoGroup};
ghost use Rattle.cm_commit.specs.States.{BeginsTrim};
ghost use Rattle.cm_commit.specs.Advances.{Advances, CallsDevice, EndsBehind, HasRisen};
ghost use Rattle.cm_commit.specs.Trims.{roots_of_rows};
ghost use Rattle.cm_layout.specs.Frames.{entry_version};
ghost use Rattle.cm_layout.specs.Laws.{IsNewest};
ghost use Rattle.cm_layout.specs.Rows.{bare, rows_with};
ghost use Rattle.cm_commit.specs.Keeps.{IsHeld, most_written, roots_then};

use crate::applying::fill_all;
use crate::entries::roots_needed;
use crate::joining::take_group;
use crate::journal_end::{JournalEnd, target_of};
use crate::mismatch::Mismatch;
use crate::plan::{calls_at, first_step, is_done, make_call};
use crate::progress::{AdvanceFault, NotIdle, Progress};
use crate::step::{CommitStep, PlanStep, TrimStep};
use crate::trim::{is_trim, make_trim_call, trim_calls, used_roots};
use cm_disk::{Disk, SimDisk};
use cm_group::{Group, Receipt};
use cm_layout::{half_bytes, root_bytes};
use cm_pool::Geometry;
use cm_record::Record;
use cm_rows::LiveRows;
use std::alloc::{AllocError, Global};
use std::fmt::Debug;
use std::marker::Model;
use std::sync::Arc;
use thiserror::Error;

/// Writes groups to a region file. It owns the disk, the committed rows with the records of their
/// classes, and the number of the last command. A group is offered to it, and then stored by one
/// device call after another. All memory that it will ever need is allocated when it is made.
///
/// Contracts describe a committer by its disk, what is committed, what is under way, and the stages
/// of it that are left.
#[derive(Drop)]
pub struct Committer<D: Disk> {
    disk: D,
    journal: JournalEnd,
    /// The rows that are committed, each class with its record.
    rows: LiveRows<Arc<Record, Global>>,
    /// The same rows without their records; while a group is under way, the rows after it.
    next: LiveRows<()>,
    /// How many whole roots the file had when the last group was done; while the file is trimmed,
    /// how many of them are left.
    roots: u32,
    /// The group that is under way.
    group: Option<Group>,
    step: PlanStep,
    is_broken: bool,
    /// Room for the bytes of one write, which never exceeds a root or a half of the journal.
    buffer: Vec<u8>,
}

impl<D: Disk> Model for Committer<D> {
    ghost use Rattle.std.specs.Prelude.{vec_capacity};
    ghost use Rattle.std.specs.Arc.{arc_value};
    ghost use Rattle.cm_layout.specs.Rows.{rows_with};
    ghost use Rattle.cm_commit.specs.States.{CommitterState};
    ghost use Rattle.cm_commit.specs.Steps.{committer_of};
    ghost use Rattle.cm_commit.specs.Keeps.{IsCommitter};

    ghost Value = { CommitterState D };

    ghost view = { λ c. committer_of c.disk c.journal (rows_with arc_value c.rows.rows) c.roots
        c.group c.step c.is_broken };

    ghost invariant = { λ c. IsCommitter D.view
        (committer_of c.disk c.journal (rows_with arc_value c.rows.rows) c.roots c.group c.step
        c.is_broken)
        c.rows.sizes c.next c.roots (vec_capacity c.buffer) };
}

/// No committer was made, because an allocation failed. It hands back the disk.
#[derive(Debug, Drop, Error)]
#[error("out of memory")]
#[error_bound(D: Debug + Drop)]
pub struct NotMade<D> {
    /// The disk, as it was.
    pub disk: D,
}

/// Allocates a copy of the rows without their records, and room for the bytes of one write.
fn take_memory(
    alloc: Global,
    geometry: Geometry,
    rows: &LiveRows<Arc<Record, Global>>,
) -> Result<(LiveRows<()>, Vec<u8>), AllocError>
    requires { rows.now.sizes ≡ geometry }
    ensures next { IfOk result (λ p. p.0 ≡ record { sizes = geometry; rows = bare rows.now.rows }) }
    ensures room { IfOk result (λ p. most_written geometry ≤ vec_capacity p.1) }
{
    let mut next = LiveRows::new(alloc, geometry)?;
    next.copy_from(rows);
    let most = root_bytes(geometry).max(half_bytes(geometry));
    let buffer = Vec::with_capacity(alloc, most as usize)?;
    Ok((next, buffer))
}

/// Commits a group that was written at the end of the journal `target`: its entries are applied to
/// the rows, and the half then ends after it.
fn finish(
    target: JournalEnd,
    journal: &mut JournalEnd,
    rows: &mut LiveRows<Arc<Record, Global>>,
    roots: &mut u32,
    group: Group,
) -> Receipt
    requires first { group.first ≡ target.number + 1 }
    requires above { IsTrue (is_above (target.number + 1) rows.old.rows) }
    requires kept { keep_rules rows.old.sizes (bare rows.old.rows) (target.number + 1)
        (entries_in group.entries) ≡ true }
    requires needed { roots_of_entries (entries_in group.entries) < 2 ^ 32 }
    requires end { target.end + slots_taken group.entries < 65536 }
    ensures journal { journal.new ≡ record target {
      end = target.end + 1 + slots_taken group.entries;
      number = target.number + length group.entries;
    } }
    ensures rows { rows_with arc_value rows.new.rows
        ≡ rows_after_group (rows_with arc_value rows.old.rows) group.entries }
    ensures sizes { rows.new.sizes ≡ rows.old.sizes }
    ensures roots { roots.new ≡ roots_then roots.old group }
    ensures told { result.number ≡ target.number + length group.entries }
{
    let first = group.first();
    *journal = target;
    journal.number += group.count() as u64;
    journal.end += 1 + group.slots() as u32;
    *roots = (*roots).max(roots_needed(group.entries()));
    fill_all(rows, first, group.into_entries());
    Receipt {
        number: journal.number,
    }
}

impl<D: Disk> Committer<D> {
    /// Makes the committer of a disk that holds the cache of these rows. `journal` says where the
    /// journal continues, in a half of the version that is written now, and `roots` how many whole
    /// roots the file has. An `Err` hands back the disk as it was.
    pub fn new(
        alloc: Global,
        disk: D,
        journal: JournalEnd,
        rows: LiveRows<Arc<Record, Global>>,
        roots: u32,
    ) -> Result<Committer<D>, NotMade<D>>
        requires sizes { rows.sizes ≡ journal.geometry }
        requires held { IsHeld (D.view.contents disk) (D.view.unsynced disk) journal
            (rows_with arc_value rows.rows) roots entry_version }
        ensures made { IfOk result (λ c. c ≡ record {
          disk = disk;
          sizes = journal.geometry;
          rows = rows_with arc_value rows.rows;
          number = journal.number;
          half = journal.half;
          end = journal.end;
          epoch = journal.epoch;
          other_open = journal.other_open;
          underway = None;
          left = [];
          broken = false;
        }) }
        ensures not_made { IfErr result (λ e. e.disk ≡ disk) }
    {
        let Ok((next, buffer)) = take_memory(alloc, journal.geometry, &rows) else {
            return Err(NotMade { disk });
        };
        Ok(Committer {
            disk,
            journal,
            rows,
            next,
            roots,
            group: None,
            step: PlanStep::Group(CommitStep::Done),
            is_broken: false,
            buffer,
        })
    }

    /// Whether anything is under way.
    fn is_busy(&self) -> bool
        ensures { result ≡ is_some self.now.underway }
    {
        self.group.is_some() || is_trim(self.step)
    }

    /// Takes a group, which [`Committer::advance`] stores from then on. This makes no device
    /// call and allocates nothing.
    ///
    /// The group is handed back, and nothing is changed, exactly if the committer is broken or
    /// busy, the group doesn't begin one past the committer's number, or an entry may not join: it
    /// breaks a rule, writes into a chunk that committed rows use (other than after the records on
    /// its loader's last one), makes a class that its loader has by then, or carries other records
    /// than it needs. It needs a class's own record, and for a move the records on the old chunk.
    /// If the half of the journal that counts has no room for the group, a checkpoint comes first,
    /// which takes six device calls.
    pub fn offer(&mut self, group: Group) -> Result<(), Mismatch>
        ensures takes { IsOk result ↔ TakesGroup self.old group }
        ensures taken { OnOk result (self.new ≡ with_taken D.view self.old group) }
        ensures steps { OnOk result (calls_left self.new.left
            ≡ 4 + roots_to_add self.old.sizes (length (D.view.contents self.old.disk))
            (entries_in group.entries)
            + length (all_writes group.entries)
            + (if is_due_at self.old.sizes self.old.end group.entries then 6 else 0)) }
        ensures handed_back { IfErr result (λ e. e.group ≡ group) }
        ensures same { OnErr result (self.new ≡ self.old) }
    {
        if self.is_broken {
            return Err(Mismatch { group });
        }
        if self.is_busy() {
            return Err(Mismatch { group });
        }
        if !take_group(&self.journal, &mut self.rows, &mut self.next, &group) {
            return Err(Mismatch { group });
        }
        self.step = first_step(&self.journal, self.roots, &group);
        self.group = Some(group);
        Ok(())
    }

    /// Begins to truncate the file after the last root that committed rows use, if it holds whole
    /// roots after that one, of those that it may have: two calls of [`Committer::advance`] are due
    /// then. The result is `false` if there is nothing to cut; the call is refused exactly if the
    /// committer is broken or busy. This makes no device call and allocates nothing.
    pub fn trim(&mut self) -> Result<bool, NotIdle>
        ensures { BeginsTrim D.view self.old result self.new }
    {
        if self.is_broken || self.is_busy() {
            return Err(NotIdle);
        }
        let used = self.roots();
        if used >= self.roots.min(self.journal.geometry.roots()) {
            return Ok(false);
        }
        self.roots = used;
        self.step = PlanStep::Trim(TrimStep::Cut);
        Ok(true)
    }

    /// How many roots committed rows use: one more than the greatest. A trim leaves these.
    pub fn roots(&self) -> u32
        ensures { result ≡ roots_of_rows self.now.rows }
    {
        used_roots(&self.rows)
    }

    /// Makes the next device call of the group that is under way, exactly one if any is left: those
    /// of a checkpoint if the half that counts has no room for the group; a write of a root of
    /// zeros for each root by which the file has to grow, a write of each record in the order of
    /// the entries, a write of the slots from the byte after the gate, a sync, the write of the
    /// gate's byte, a sync. The last of them commits the group and returns its receipt. After
    /// `Device` the committer is broken, and makes no more calls.
    ///
    /// A checkpoint writes the other half of the journal anew, with the live rows: a write of 0 to
    /// its gate if that is open, or else a sync; a sync; the write of the half from the byte after
    /// its gate; a sync; the write of its gate's byte; a sync. It leaves what is committed as it
    /// is.
    ///
    /// A trim takes a cut of the file and a sync, and leaves what is committed as it is. The second
    /// of these calls returns how many roots the file then has.
    pub fn advance(&mut self) -> Result<Progress, AdvanceFault>
        ensures moved { Advances self.old result self.new }
        ensures any_moment { LeavesOnly D.view self.old.disk self.new.disk
            (MayLeave self.old) }
        ensures cause { HasRisen (D.view.failures self.old.disk) (D.view.failures self.new.disk)
            result }
        ensures call { CallsDevice D.called self.old.disk result self.new.disk }
        ensures trimmed { EndsBehind self.new.sizes (D.view.contents self.new.disk)
            (D.view.unsynced self.new.disk) result }
    {
        if self.is_broken {
            return Err(AdvanceFault::Broken);
        }
        let Some(group) = &self.group else {
            return self.advance_trim();
        };
        let called = make_call(
            &mut self.disk,
            &mut self.buffer,
            &self.journal,
            &self.rows,
            self.roots,
            group,
            self.step,
        );
        let Ok(step) = called else {
            self.is_broken = true;
            return Err(AdvanceFault::Device);
        };
        self.step = step;
        if !is_done(step) {
            return Ok(Progress::Working);
        }
        let group = self.group.take().unwrap();
        let target = target_of(&self.journal, &self.rows, &group);
        let receipt = finish(
            target,
            &mut self.journal,
            &mut self.rows,
            &mut self.roots,
            group,
        );
        Ok(Progress::Done(receipt))
    }

    /// Makes the next device call of a trim, if one is under way.
    fn advance_trim(&mut self) -> Result<Progress, AdvanceFault>
        requires sound { self.old.broken ≡ false }
        requires ungrouped { NoGroup self.old.underway }
        ensures moved { Advances self.old result self.new }
        ensures any_moment { LeavesOnly D.view self.old.disk self.new.disk
            (MayLeave self.old) }
        ensures cause { HasRisen (D.view.failures self.old.disk) (D.view.failures self.new.disk)
            result }
        ensures call { CallsDevice D.called self.old.disk result self.new.disk }
        ensures trimmed { EndsBehind self.new.sizes (D.view.contents self.new.disk)
            (D.view.unsynced self.new.disk) result }
    {
        let PlanStep::Trim(at) = self.step else {
            return Ok(Progress::Idle);
        };
        let called = make_trim_call(&mut self.disk, self.journal.geometry, self.roots, at);
        let Ok(next) = called else {
            self.is_broken = true;
            return Err(AdvanceFault::Device);
        };
        if let Some(at) = next {
            self.step = PlanStep::Trim(at);
            return Ok(Progress::Working);
        }
        self.step = PlanStep::Group(CommitStep::Done);
        Ok(Progress::Trimmed(self.roots))
    }

    /// Does nothing: its clause says what a crash leaves now. That is the committed cache or, once
    /// the gate's byte may be written, either that or the cache with the group that is under way.
    pub fn images(&self)
        ensures { EachImage (D.view.contents self.now.disk) (D.view.unsynced self.now.disk)
            (MayLeave self.now) }
    {
        let _read = self.is_broken; // reading a field brings the invariant
    }

    /// Does nothing: its clause says that whatever a crash leaves now, the half that counts in it
    /// is of the version that is written now.
    pub fn versions(&self)
        ensures { EachImage (D.view.contents self.now.disk) (D.view.unsynced self.now.disk)
            IsNewest }
    {
        let _read = self.is_broken; // reading a field brings the invariant
    }

    /// How many device calls are left.
    pub fn steps_left(&self) -> u64
        ensures { result ≡ (if self.now.broken then 0 else calls_left self.now.left) }
    {
        if self.is_broken {
            return 0;
        }
        let Some(group) = &self.group else {
            return trim_calls(self.step);
        };
        calls_at(self.step, self.roots, group.entries())
    }

    /// The number of the last command that is committed.
    pub fn number(&self) -> u64
        ensures { result ≡ self.now.number }
    {
        self.journal.number
    }

    /// The sizes of the region.
    pub fn geometry(&self) -> Geometry
        ensures { result ≡ self.now.sizes }
    {
        self.journal.geometry
    }

    /// The disk, to look at.
    pub fn disk(&self) -> &D
        ensures { result.now ≡ self.now.disk }
    {
        &self.disk
    }

    /// The disk, as it is now.
    pub fn into_disk(self) -> D
        ensures { result ≡ self.disk }
    {
        let Committer {
            disk,
            journal: _,
            rows: _rows,
            next: _next,
            roots: _,
            group: _group,
            step: _,
            is_broken: _,
            buffer: _buffer,
        } = self;
        disk
    }
}

impl Committer<SimDisk> {
    /// Makes the disk's next call fail; if that is a write, it stores its first `stores` bytes.
    pub fn arm(&mut self, stores: usize)
        ensures { self.new ≡ record self.old
            { disk = record self.old.disk { armed = Some stores } } }
    {
        self.disk.arm(stores);
    }

    /// Lets the disk's next call succeed.
    pub fn disarm(&mut self)
        ensures { self.new ≡ record self.old { disk = record self.old.disk { armed = None } } }
    {
        self.disk.disarm();
    }
}

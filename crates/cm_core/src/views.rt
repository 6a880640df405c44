//! Views of a file's bytes, for C. They work on slices alone, which the caller owns: nothing is
//! kept here, so any number of calls may run at the same time.

ghost use Rattle.std.specs.Prelude.{◌≡◌, ℕ, length, pos, true, false};
ghost use Rattle.cm_pool.specs.Geometry.{Sizes};
ghost use Rattle.cm_state.specs.State.{CacheState};
ghost use Rattle.cm_state.specs.Stands.{Arenas, Stands};
ghost use Rattle.cm_view_index.specs.Rows.{name_of as name_of_row};
ghost use Rattle.cm_view.specs.Views.{HasNoneIn};
ghost use Rattle.cm_plain_view.specs.Loaders.{HasLoader, HasNoLoader, AreSorted};
ghost use Rattle.cm_plain_view.specs.Opening.{Opens};
ghost use Rattle.cm_plain_view.specs.Views.{IsPlainView, IsPlaced, IsJudged};
ghost use Rattle.cm_plain_view.specs.Walks.{IsNext, HasNoMore};
ghost use Rattle.cm_core.specs.Views.{damage_of, view_status, view_damage, Tells, IsNotDamaged};
ghost use Rattle.cm_core.specs.Views.{IsAnswerIn};

use crate::places::bytes_at;
use crate::status::{DAMAGED, Damage, NO_MEMORY, NO_ROOM, NONE, NOT_A_CACHE, OK};
use cm_plain_view::{
    NotViewed, ViewCounts, ViewLoader, ViewRow, find_class, judge_row, loader_named, name_of,
    next_class, open_view,
};
use cm_verdict::{Damage as What, FileFault};
use cm_view::ViewFault;
use std::alloc::Global;

// Says what is damaged, and where.
fn tell_damage(what: What, slot: u32, damage: &mut Damage) -> i32
    ensures status { result ≡ pos 22 }
    ensures damage { damage.new ≡ damage_of what slot }
{
    damage.what = u32::from(what.number());
    damage.slot = slot;
    DAMAGED
}

// The number for bytes of which there is no view.
fn of_view_fault(fault: ViewFault, damage: &mut Damage) -> i32
    ensures status { result ≡ view_status fault }
    ensures damage { damage.new ≡ view_damage damage.old fault }
{
    match fault {
        ViewFault::File(FileFault::NotACache) => NOT_A_CACHE,
        ViewFault::File(FileFault::Damaged { what, slot }) => tell_damage(what, slot, damage),
        ViewFault::CutOff { slot } => tell_damage(What::Chunks, slot, damage),
        ViewFault::NoName { slot } => tell_damage(What::Record, slot, damage),
        ViewFault::SameName { slot } => tell_damage(What::ClassTwice, slot, damage),
        ViewFault::NoMemory => NO_MEMORY,
    }
}

/// Opens a view of a file's bytes in the caller's memory.
#[unsafe(no_mangle)]
pub extern "C" fn cmcore_view_open(
    alloc: Global,
    bytes: &[u8],
    rows: &mut [ViewRow],
    loaders: &mut [ViewLoader],
    counts: &mut ViewCounts,
    damage: &mut Damage,
) -> i32
    ensures opened { result ≡ pos 0 → Opens bytes.now rows.new loaders.new counts.new }
    ensures standing { (sizes : Sizes) (m : CacheState) (arenas : Arenas) (n : ℕ)
        → Stands sizes bytes.now m arenas n → IsNotDamaged result }
{
    match open_view(alloc, bytes, rows, loaders, counts) {
        Ok(()) => OK,
        Err(NotViewed::Fault(fault)) => of_view_fault(fault, damage),
        Err(NotViewed::NoRoom) => NO_ROOM,
    }
}

// Says where something is, if it is anywhere.
fn tell_place(place: Option<usize>, at: &mut usize) -> i32
    ensures { Tells place at.old at.new result }
{
    match place {
        Some(place) => {
            *at = place;
            OK
        }
        None => NONE,
    }
}

/// Where the row of a class is.
#[unsafe(no_mangle)]
pub extern "C" fn cmcore_view_find(
    bytes: &[u8],
    rows: &[ViewRow],
    loaders: &[ViewLoader],
    loader: &[u8],
    name: &[u8],
    at: &mut usize,
) -> i32
    ensures found { result ≡ pos 0
        → IsPlaced bytes.now rows.now loaders.now loader.now name.now at.new }
    ensures none { result ≡ pos 24 → (p : IsPlainView bytes.now rows.now loaders.now)
        → HasNoneIn bytes.now p.view loader.now name.now }
    ensures exact { (sizes : Sizes) (m : CacheState) (arenas : Arenas) (n : ℕ)
        → Stands sizes bytes.now m arenas n → IsPlainView bytes.now rows.now loaders.now
        → IsAnswerIn m bytes.now rows.now loader.now name.now at.new result }
{
    tell_place(find_class(bytes, rows, loaders, loader, name), at)
}

/// Judges the record of a row.
#[unsafe(no_mangle)]
pub extern "C" fn cmcore_view_judge(alloc: Global, bytes: &[u8], row: &ViewRow) -> i32
    ensures kept { result ≡ pos 0 → IsJudged bytes.now row.now true }
    ensures damaged { result ≡ pos 22 → IsJudged bytes.now row.now false }
{
    match judge_row(alloc, bytes, row) {
        Ok(true) => OK,
        Ok(false) => DAMAGED,
        Err(_) => NO_MEMORY,
    }
}

/// The number of the loader of a name.
#[unsafe(no_mangle)]
pub extern "C" fn cmcore_view_loader_number(
    loaders: &[ViewLoader],
    name: &[u8],
    number: &mut u64,
) -> i32
    ensures found { result ≡ pos 0 → HasLoader loaders.now name.now number.new }
    ensures none { result ≡ pos 24 → AreSorted loaders.now → HasNoLoader loaders.now name.now }
{
    match loader_named(loaders, name) {
        Some(found) => {
            *number = found;
            OK
        }
        None => NONE,
    }
}

/// Where the next row of a loader is.
#[unsafe(no_mangle)]
pub extern "C" fn cmcore_view_next(
    rows: &[ViewRow],
    loader: u64,
    from: usize,
    at: &mut usize,
) -> i32
    ensures found { result ≡ pos 0 → IsNext rows.now loader from at.new }
    ensures none { result ≡ pos 24 → HasNoMore rows.now loader from }
{
    tell_place(next_class(rows, loader, from), at)
}

/// The name that a row shows.
#[unsafe(no_mangle)]
pub extern "C" fn cmcore_view_name(
    bytes: &[u8],
    row: &ViewRow,
    name: &mut *const u8,
    len: &mut usize,
) -> i32
    ensures { (result ≡ pos 0) × (len.new ≡ length (name_of_row bytes.now row.now)) }
{
    let shown = name_of(bytes, row);
    *name = bytes_at(shown);
    *len = shown.len();
    OK
}

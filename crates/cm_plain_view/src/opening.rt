//! Opens a view in memory that the caller owns.

ghost use Rattle.std.specs.Prelude.{◌≡◌, ◌≤◌, ℕ, length, take, map, IfOk, IfErr};
ghost use Rattle.cm_pool.specs.Geometry.{Sizes};
ghost use Rattle.cm_state.specs.State.{CacheState};
ghost use Rattle.cm_state.specs.Stands.{Arenas, Stands};
ghost use Rattle.cm_plain_view.specs.Loaders.{loader_row};
ghost use Rattle.cm_plain_view.specs.Opening.{Writes, Opens, IsNotViewed, WantsMemory};

use crate::loader::ViewLoader;
use cm_layout::LoaderRow;
use cm_view::{View, ViewFault};
use cm_view_index::ViewRow;
use std::alloc::Global;

/// How much a view has.
#[repr(C)]
#[derive(Clone, Copy, Debug)]
pub struct ViewCounts {
    /// How many rows.
    pub rows: usize,
    /// How many loaders.
    pub loaders: usize,
    /// The number of the last command.
    pub number: u64,
}

/// Why there is no view in the caller's memory.
#[derive(Clone, Copy, Debug, PartialEq, Eq)]
pub enum NotViewed {
    /// There is no view of the bytes.
    Fault(ViewFault),
    /// There is one, and it has more rows or loaders than there is room for.
    NoRoom,
}

// Writes loaders from the front on.
fn write_loaders(from: &[LoaderRow], to: &mut [ViewLoader])
    requires { length from.now ≤ length to.old }
    ensures { map loader_row (take (length from.now) to.new) ≡ from.now }
{
    for at in 0..from.len() {
        to[at] = ViewLoader::of(&from[at]);
    }
}

// Writes a view from the front on, if there is room.
fn write_view(
    view: &View,
    rows: &mut [ViewRow],
    loaders: &mut [ViewLoader],
    counts: &mut ViewCounts,
) -> bool
    ensures { Writes view.now rows.old rows.new loaders.old loaders.new counts.new result }
{
    counts.rows = view.rows.len();
    counts.loaders = view.loaders.len();
    counts.number = view.number;
    if rows.len() < counts.rows || loaders.len() < counts.loaders {
        return false;
    }
    rows[..counts.rows].copy_from_slice(&view.rows);
    write_loaders(&view.loaders, loaders);
    true
}

/// Opens a view of these bytes as [`View::open`] does, and writes its rows and loaders into the
/// caller's memory, from the front on. Whether or not there is room for them, `counts` then has how
/// many there are; 32,768 of each are always enough.
///
/// It is an `Err` if there is no view, and then nothing is written; or if there is no room.
pub fn open_view(
    alloc: Global,
    bytes: &[u8],
    rows: &mut [ViewRow],
    loaders: &mut [ViewLoader],
    counts: &mut ViewCounts,
) -> Result<(), NotViewed>
    ensures opened { IfOk result (λ _. Opens bytes.now rows.new loaders.new counts.new) }
    ensures fault { IfErr result
        (IsNotViewed bytes.now (length rows.old) (length loaders.old) counts.new) }
    ensures standing { (sizes : Sizes) (m : CacheState) (arenas : Arenas) (n : ℕ)
        → Stands sizes bytes.now m arenas n → IfErr result WantsMemory }
{
    match View::open(alloc, bytes) {
        Ok(view) => {
            if write_view(&view, rows, loaders, counts) {
                Ok(())
            } else {
                Err(NotViewed::NoRoom)
            }
        }
        Err(fault) => Err(NotViewed::Fault(fault)),
    }
}

//! Taking the place of a class's record.

ghost use Rattle.std.specs.Prelude.{◌≡◌, IfSome, IfNone};
ghost use Rattle.cm_rows.specs.Loaders.{Rises, items};
ghost use Rattle.cm_rows.specs.Placing.{IsPlaced, Breaches};

use crate::live_loader::{LiveLoader, find};
use crate::place_rules::{is_inside, take_place};
use cm_index::BookSlot;
use cm_layout::{ClassRow, EntryRule, row_limit};
use cm_pool::{Geometry, Pool};

/// Takes the place of a class's record, if its row may follow rows that take `taken` slots, with
/// these loaders. Else returns the first rule that the row breaks, and takes nothing.
pub fn place_class(
    geometry: Geometry,
    taken: usize,
    loaders: &[BookSlot<LiveLoader>],
    row: &ClassRow,
    pool: &mut Pool,
) -> Option<EntryRule>
    requires { Rises (items loaders.now) }
    ensures broken { IfSome result (Breaches geometry taken loaders.now row.now pool.old pool.new) }
    ensures same { IfSome result (λ rule. pool.new ≡ pool.old) }
    ensures placed { IfNone result (IsPlaced geometry taken loaders.now row.now pool.old pool.new) }
{
    let Some(at) = find(loaders, row.loader) else {
        return Some(EntryRule::OnRows);
    };
    let last = loaders[at].item.last;
    if taken >= row_limit(geometry) {
        return Some(EntryRule::OnRows);
    }
    if !is_inside(geometry, &row.place) {
        return Some(EntryRule::OnChunks);
    }
    if !take_place(last, &row.place, pool) {
        return Some(EntryRule::OnChunks);
    }
    None
}

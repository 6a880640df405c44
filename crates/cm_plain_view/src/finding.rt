//! Where a class is among the rows of a view.

ghost use Rattle.std.specs.Prelude.{◌≡◌, ◌↔◌, ℕ, None, IfSome, IfNone, IsTrue};
ghost use Rattle.cm_pool.specs.Geometry.{Sizes};
ghost use Rattle.cm_state.specs.State.{CacheState};
ghost use Rattle.cm_state.specs.Stands.{Arenas, Stands};
ghost use Rattle.cm_view.specs.Views.{HasNoneIn};
ghost use Rattle.cm_plain_view.specs.Loaders.{loader_name, AreSorted, HasLoader, HasNoLoader};
ghost use Rattle.cm_plain_view.specs.Views.{IsPlainView, IsPlaced, IsPlaceIn};

use crate::loader::ViewLoader;
use cm_verdict::found_is_live;
use cm_view::{rows_show_names, views_show_caches};
use cm_view_index::{ViewRow, find_at};

// Whether a loader has this name.
fn is_named(loader: &ViewLoader, name: &[u8]) -> bool
    ensures { IsTrue result ↔ (loader_name loader.now ≡ name.now) }
{
    loader.name() == name
}

/// The number of the loader of this name, among loaders in the order of their names.
pub fn loader_named(loaders: &[ViewLoader], name: &[u8]) -> Option<u64>
    ensures some { IfSome result (HasLoader loaders.now name.now) }
    ensures none { IfNone result (AreSorted loaders.now → HasNoLoader loaders.now name.now) }
{
    let at = loaders.partition_point(|loader| loader.name().cmp(&name).is_lt());
    if at < loaders.len() && is_named(&loaders[at], name) {
        Some(loaders[at].number)
    } else {
        None
    }
}

/// Where the row of the class of this name in the loader of this name is. Its record isn't judged:
/// [`crate::judge_row`] does that. About a logarithm of the rows is looked at, whatever the names
/// are.
pub fn find_class(
    bytes: &[u8],
    rows: &[ViewRow],
    loaders: &[ViewLoader],
    loader: &[u8],
    name: &[u8],
) -> Option<usize>
    ensures some { IfSome result (IsPlaced bytes.now rows.now loaders.now loader.now name.now) }
    ensures none { IfNone result ((p : IsPlainView bytes.now rows.now loaders.now)
        → HasNoneIn bytes.now p.view loader.now name.now) }
    ensures exact { (sizes : Sizes) (m : CacheState) (arenas : Arenas) (n : ℕ)
        → Stands sizes bytes.now m arenas n → IsPlainView bytes.now rows.now loaders.now
        → IsPlaceIn m bytes.now rows.now loader.now name.now result }
{
    found_is_live();
    views_show_caches();
    rows_show_names(bytes);
    match loader_named(loaders, loader) {
        Some(number) => find_at(bytes, rows, number, name),
        None => None,
    }
}

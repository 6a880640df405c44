//! The loaders of a view, by name.
ghost use Rattle.std.specs.Prelude.{◌≡◌, ◌↔◌, IfSome, IfNone, IsTrue};
ghost use Rattle.std.specs.List.Sorted.{IsPermutation};
ghost use Rattle.cm_view.specs.Loaders.{AreInOrder, HasLoader, HasNoLoader};

use cm_layout::LoaderRow;

/// Sorts loaders by name.
pub fn sort_loaders(loaders: &mut Vec<LoaderRow>)
    ensures same { IsPermutation loaders.old.items loaders.new.items }
    ensures order { AreInOrder loaders.new.items }
{
    loaders.sort_unstable_by(|one, other| one.name.as_bytes().cmp(other.name.as_bytes()));
}

// Whether a loader has this name.
fn is_named(loader: &LoaderRow, name: &[u8]) -> bool
    ensures { IsTrue result ↔ (loader.now.name ≡ name.now) }
{
    loader.name.as_bytes() == name
}

/// The number of the loader of this name, among loaders in the order of their names.
pub fn number_among(rows: &[LoaderRow], name: &[u8]) -> Option<u64>
    ensures some { IfSome result (HasLoader rows.now name.now) }
    ensures none { IfNone result (AreInOrder rows.now → HasNoLoader rows.now name.now) }
{
    let at = rows.partition_point(|row| row.name.as_bytes().cmp(&name).is_lt());
    if at < rows.len() && is_named(&rows[at], name) {
        Some(rows[at].number)
    } else {
        None
    }
}

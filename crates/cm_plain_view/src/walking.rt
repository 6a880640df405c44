//! Walks through the classes of a loader.

ghost use Rattle.std.specs.Prelude.{IfSome, IfNone};
ghost use Rattle.cm_plain_view.specs.Walks.{IsNext, HasNoMore};

use cm_view_index::ViewRow;

/// Where the first row of the loader of this number is, from this place on.
pub fn next_class(rows: &[ViewRow], loader: u64, from: usize) -> Option<usize>
    ensures some { IfSome result (IsNext rows.now loader from) }
    ensures none { IfNone result (HasNoMore rows.now loader from) }
{
    for at in from..rows.len() {
        if rows[at].loader == loader {
            return Some(at);
        }
    }
    None
}

//! The largest chunk that is free in a region.

ghost use Rattle.std.specs.Prelude.{◌≡◌, ◌≤◌, ◌<◌, ◌↔◌, IsTrue};
ghost use Rattle.cm_statistics.specs.Unused.{HasUnused, HasUnusedIn, IsLargestUnused};

use cm_commands::Prepared;
use cm_pool::{Chunk, Geometry, chunk_words};
use cm_rows::LiveRows;

/// Whether a chunk of this order is free in a root.
fn has_unused_in(rows: &mut LiveRows<Prepared>, geometry: Geometry, order: u32, root: u32) -> bool
    requires sizes { rows.old.sizes ≡ geometry }
    requires order { order ≤ geometry.top }
    ensures has { IsTrue result ↔ HasUnusedIn rows.old order root }
    ensures same { rows.new ≡ rows.old }
{
    let size = chunk_words(order);
    for index in 0..geometry.root_words() / size {
        let chunk = Chunk {
            root,
            order,
            at: index * size,
        };
        if rows.is_unused(&chunk) {
            return true;
        }
    }
    false
}

/// Whether a chunk of this order is free.
fn has_unused(rows: &mut LiveRows<Prepared>, geometry: Geometry, order: u32) -> bool
    requires sizes { rows.old.sizes ≡ geometry }
    requires order { order ≤ geometry.top }
    ensures has { IsTrue result ↔ HasUnused rows.old order }
    ensures same { rows.new ≡ rows.old }
{
    // New roots come last: the last one is the most likely to be free as a whole.
    for before in 0..geometry.roots() {
        if has_unused_in(rows, geometry, order, geometry.roots() - 1 - before) {
            return true;
        }
    }
    false
}

/// The order of the largest chunk that is free; `None` if there is none.
pub(crate) fn largest_unused(rows: &mut LiveRows<Prepared>, geometry: Geometry) -> Option<u32>
    requires { rows.old.sizes ≡ geometry }
    ensures largest { IsLargestUnused rows.old result }
    ensures same { rows.new ≡ rows.old }
{
    for below in 0..geometry.top() + 1 {
        let order = geometry.top() - below;
        if has_unused(rows, geometry, order) {
            return Some(order);
        }
    }
    None
}

//! The first line, which gives the sizes of the file.

ghost use Rattle.std.specs.Prelude.{◌≡◌, [], ◌∷◌, Some};
ghost use Rattle.cm_lines.specs.Lines.{pieces};
ghost use Rattle.cm_events.specs.Numbers.{number_in};
ghost use Rattle.cm_events.specs.Asked.{geometry_of_line, geometry_of_words, sizes_of};

use crate::line::is_long;
use crate::number::number_in;
use cm_lines::cut;
use cm_pool::Geometry;

/// The sizes that `geometry TOP ROOTS SLOTS` gives, if they are within their limits.
pub(crate) fn geometry_of(line: &[u8]) -> Option<Geometry>
    ensures { result ≡ geometry_of_line line.now }
{
    if is_long(line) {
        return None;
    }
    parse_words(line)
}

fn parse_words(line: &[u8]) -> Option<Geometry>
    ensures { result ≡ geometry_of_words (pieces 32 line.now) }
{
    let (verb, sizes) = cut(line, b' ')?;
    let (top, rest) = cut(sizes, b' ')?;
    let (roots, slots) = cut(rest, b' ')?;
    match cut(slots, b' ') {
        None => of_words(verb, top, roots, slots),
        Some(_) => None,
    }
}

fn of_words(verb: &[u8], top: &[u8], roots: &[u8], slots: &[u8]) -> Option<Geometry>
    ensures { result
        ≡ geometry_of_words (verb.now ∷ top.now ∷ roots.now ∷ slots.now ∷ []) }
{
    if verb == b"geometry".as_slice() {
        sizes(top, roots, slots)
    } else {
        None
    }
}

fn sizes(top: &[u8], roots: &[u8], slots: &[u8]) -> Option<Geometry>
    ensures { result ≡ sizes_of (number_in top.now) (number_in roots.now) (number_in slots.now) }
{
    match (number_in(top), number_in(roots), number_in(slots)) {
        (Some(top), Some(roots), Some(slots)) => geometry_within_limits(top, roots, slots),
        _ => None,
    }
}

/// Sizes that are within their limits.
fn geometry_within_limits(top: u64, roots: u64, slots: u64) -> Option<Geometry>
    ensures { result ≡ sizes_of (Some top) (Some roots) (Some slots) }
{
    if top > 12 || roots > 256 || slots > 65_536 {
        return None;
    }
    Geometry::new(top as u32, roots as u32, slots as u32)
}

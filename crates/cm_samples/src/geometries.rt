//! Sizes of small regions.
ghost use Rattle.std.specs.Prelude.{◌≡◌};

use cm_pool::Geometry;

/// The least sizes: one root of 1,024 words, and 256 slots in each half.
pub fn least_geometry() -> Geometry
    ensures { result ≡ record { top = 3; roots = 1; slots = 256 } }
{
    Geometry::new(3, 1, 256).unwrap()
}

/// The same with two roots.
pub fn small_geometry() -> Geometry
    ensures { result ≡ record { top = 3; roots = 2; slots = 256 } }
{
    Geometry::new(3, 2, 256).unwrap()
}

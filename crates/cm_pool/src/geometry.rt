// The sizes of a region.
ghost use Rattle.std.specs.Prelude.{◌≡◌, ◌↔◌, IsSome, IfSome};
ghost use Rattle.cm_pool.specs.Chunks.{chunk_size};

use crate::chunk::chunk_words;
use std::marker::Model;

/// The least order that a root can have.
pub const LEAST_TOP: u32 = 3;

/// The greatest order that a root can have.
pub const MOST_TOP: u32 = 12;

/// How many roots a region has at least.
pub const LEAST_ROOTS: u32 = 1;

/// How many roots a region has at most.
pub const MOST_ROOTS: u32 = 256;

/// How many slots each half of a journal has at least.
pub const LEAST_SLOTS: u32 = 256;

/// How many slots each half of a journal has at most.
pub const MOST_SLOTS: u32 = 65_536;

/// The sizes of a region, within their limits. They are chosen when the region is made, and never
/// change.
#[derive(Clone, Copy, Debug, PartialEq, Eq)]
pub struct Geometry {
    top: u32,
    roots: u32,
    slots: u32,
}

impl Model for Geometry {
    ghost use Rattle.cm_pool.specs.Geometry.{Sizes, IsGeometry};

    ghost Value = { Sizes };

    ghost view = { λ g. record { top = g.top; roots = g.roots; slots = g.slots } };

    ghost invariant = { λ g.
        IsGeometry (record { top = g.top; roots = g.roots; slots = g.slots }) };

    ghost inverse = { λ s. record { top = s.top; roots = s.roots; slots = s.slots } };
}

impl Geometry {
    ghost use Rattle.cm_pool.specs.Geometry.{Sizes, IsGeometry};

    /// The geometry of these sizes, or `None` if one of them is outside its limits: `top` is
    /// [`LEAST_TOP`] to [`MOST_TOP`], `roots` [`LEAST_ROOTS`] to [`MOST_ROOTS`], and `slots`
    /// [`LEAST_SLOTS`] to [`MOST_SLOTS`].
    pub fn new(top: u32, roots: u32, slots: u32) -> Option<Geometry>
        ensures within { IsSome result
            ↔ IsGeometry (record { top = top; roots = roots; slots = slots }) }
        ensures sizes { IfSome result
            (λ g. g ≡ record { top = top; roots = roots; slots = slots }) }
    {
        let within = (LEAST_TOP..=MOST_TOP).contains(&top)
            && (LEAST_ROOTS..=MOST_ROOTS).contains(&roots)
            && (LEAST_SLOTS..=MOST_SLOTS).contains(&slots);
        if within {
            Some(Geometry { top, roots, slots })
        } else {
            None
        }
    }

    /// Does nothing: its clause says that the sizes are within their limits.
    pub fn invariant_holds(self)
        ensures { IsGeometry self }
    {}

    /// The order of a root chunk.
    pub fn top(self) -> u32
        ensures value { result ≡ self.top }
        ensures within { IsGeometry self }
    {
        self.top
    }

    /// How many words a root chunk has.
    pub fn root_words(self) -> u32
        ensures { result ≡ chunk_size self.top }
    {
        chunk_words(self.top())
    }

    /// How many root chunks there can be.
    pub fn roots(self) -> u32
        ensures value { result ≡ self.roots }
        ensures within { IsGeometry self }
    {
        self.roots
    }

    /// How many slots each half of the journal has.
    pub fn slots(self) -> u32
        ensures value { result ≡ self.slots }
        ensures within { IsGeometry self }
    {
        self.slots
    }
}

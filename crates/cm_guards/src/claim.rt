//! Facts on what a disk contains.
ghost use Rattle.std.specs.Prelude.{List, ℕ};

/// A fact on the bytes of a disk. The laws of this crate hold for every such fact.
pub trait Claim {
    ghost holds: { List ℕ → Type 0 };
}

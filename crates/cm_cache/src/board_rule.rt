//! The rule of the Board: one user writes, what is written never goes back, and nobody has seen
//! more than what is written.

use crate::board_view::BoardView;
use atomic_table::{Join, Play, TableRule};

/// The rule over the two words of the Board, the number of the newest receipt and whether the
/// device failed, and over what its users know.
pub struct BoardRule;

impl TableRule<(), BoardView, u64> for BoardRule {
    ghost use Rattle.cm_cache.specs.Board.{IsBoard, poster};

    ghost holds = { λ _. IsBoard };

    ghost first = { poster };
}

/// The number is written.
pub(crate) struct PostsNumber;

impl Play<(), BoardView> for PostsNumber {
    ghost use Rattle.cm_cache.specs.Board.{HasPostedNumber};

    ghost then = { λ _. HasPostedNumber };
}

/// It is written that the device failed.
pub(crate) struct PostsBroken;

impl Play<(), BoardView> for PostsBroken {
    ghost use Rattle.cm_cache.specs.Board.{HasPostedBroken};

    ghost then = { λ _. HasPostedBroken };
}

/// A new reader sees the number.
pub(crate) struct Enters;

impl Play<(), BoardView> for Enters {
    ghost use Rattle.cm_cache.specs.Board.{HasEntered};

    ghost then = { λ _. HasEntered };
}

/// A reader sees the number.
pub(crate) struct SeesNumber;

impl Play<(), BoardView> for SeesNumber {
    ghost use Rattle.cm_cache.specs.Board.{HasSeenNumber};

    ghost then = { λ _. HasSeenNumber };
}

/// A reader sees whether the device failed.
pub(crate) struct SeesBroken;

impl Play<(), BoardView> for SeesBroken {
    ghost use Rattle.cm_cache.specs.Board.{HasSeenBroken};

    ghost then = { λ _. HasSeenBroken };
}

/// The writer hears what a reader has seen.
pub(crate) struct Hears;

impl Join<BoardView> for Hears {
    ghost use Rattle.cm_cache.specs.Board.{hearing, reader};

    ghost both = { hearing };

    ghost spent = { reader 0 };
}

/// The writer compares what it heard with what it wrote.
pub(crate) struct Compares;

impl Play<(), BoardView> for Compares {
    ghost use Rattle.cm_cache.specs.Board.{HasCompared};

    ghost then = { λ _. HasCompared };
}

//! How arenas match rows. Each law is the contract of a function.

ghost use Rattle.cm_front.specs.Arenas.{ArenasAreOfRows};
ghost use Rattle.cm_front.specs.Laws.{ChainsEndAtTop, ChainsHaveChunks, PlacesKeepRules};

use cm_pool::roots_are_free;
use cm_space::held_chunks_are_used;

/// The chain that rows give a loader ends at the chunk of its last class, with the used words; and
/// it has the chunk of each of its classes.
pub fn chains_go_with_rows()
    ensures tops { ChainsEndAtTop }
    ensures chunks { ChainsHaveChunks }
{}

/// A loader's arena in a cache has exactly the chunks that the loader's classes begin, in order.
pub fn arenas_are_of_rows()
    ensures { ArenasAreOfRows }
{}

/// A place that a space finds, whose arenas are those of the rows, is one that the entry rules
/// allow.
pub fn places_keep_rules()
    ensures { PlacesKeepRules }
{
    held_chunks_are_used();
    roots_are_free();
}

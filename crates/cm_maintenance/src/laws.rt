//! What a listing says, as a law: the contract of a function with an empty body.

ghost use Rattle.cm_maintenance.specs.Laws.{ListsState};

/// A listing without its places is the state of the rows, in byte order of names: each loader with
/// the records of its classes.
pub fn listing_is_state()
    ensures { ListsState }
{}

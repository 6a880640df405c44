//! Classes beside those that a cache has.

ghost use Rattle.std.specs.Prelude.{IfOk};
ghost use Rattle.cm_record.specs.Names.{class_name_in};
ghost use Rattle.cm_state.specs.State.{class_in, state_of, words_show};
ghost use Rattle.cm_importing.specs.Comparing.{IsBeside};

use cm_commands::Prepared;
use cm_front::Front;
use std::alloc::{AllocError, Global};

/// What a loader has of the name of a class.
#[derive(Clone, Copy, Debug, PartialEq, Eq)]
pub enum Compared {
    /// No class.
    New,
    /// This very class: its record has the same words.
    There,
    /// Another class.
    Changed,
}

/// Compares a class with the one of its name that the loader has in a cache, as accepted.
///
/// # Errors
/// An allocation failed.
pub fn compare(
    alloc: Global,
    front: &Front,
    loader: &[u8],
    class: &Prepared,
) -> Result<Compared, AllocError>
    ensures { IfOk result (IsBeside class.now
        (class_in (state_of words_show front.now.rows) loader.now (class_name_in class.now))) }
{
    let name = class.class_name(alloc)?;
    match front.find(loader, &name) {
        None => Ok(Compared::New),
        Some(record) if record.has_same_words(class.record()) => Ok(Compared::There),
        Some(_) => Ok(Compared::Changed),
    }
}

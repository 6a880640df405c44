//! Where the items that were read go.
ghost use Rattle.std.specs.Prelude.{◌≡◌, ◌++◌, ◌∷◌, [], Bool, true, false, IfOk, IfErr};
ghost use Rattle.cm_class.specs.declared.stop.Stop.TheVariants.{NoMemory};

use crate::stop::Stop;
use std::alloc::Global;

/// Where a reader puts what it reads. A sink that keeps nothing leaves lists empty, and never
/// reports a failed allocation.
pub(crate) trait Sink: Copy {
    /// Whether what was read is kept.
    ghost keeps: { Bool };

    /// A list with room for `room` items.
    fn room<T: Drop>(self, room: usize) -> Result<Vec<T>, Stop>
        ensures empty { IfOk result (λ list. list.items ≡ []) }
        ensures refused { IfErr result (λ stop. (stop ≡ NoMemory) × (keeps ≡ true)) };

    /// Appends an item to a list.
    fn push<T: Drop>(self, list: &mut Vec<T>, item: T) -> Result<(), Stop>
        ensures kept { keeps ≡ true
            → IfOk result (λ _. list.new.items ≡ list.old.items ++ item ∷ []) }
        ensures refused { IfErr result (λ stop. (stop ≡ NoMemory) × (keeps ≡ true)) };
}

impl Sink for Global {
    ghost keeps = { true };

    fn room<T: Drop>(self, room: usize) -> Result<Vec<T>, Stop> {
        Ok(Vec::with_capacity(self, room)?)
    }

    fn push<T: Drop>(self, list: &mut Vec<T>, item: T) -> Result<(), Stop> {
        list.push(item)?;
        Ok(())
    }
}

/// Keeps nothing, and so never allocates: empty lists take no memory.
#[derive(Clone, Copy)]
pub(crate) struct Nothing {
    pub(crate) alloc: Global,
}

impl Sink for Nothing {
    ghost keeps = { false };

    fn room<T: Drop>(self, _room: usize) -> Result<Vec<T>, Stop> {
        Ok(Vec::new(self.alloc))
    }

    fn push<T: Drop>(self, _list: &mut Vec<T>, _item: T) -> Result<(), Stop> {
        Ok(())
    }
}

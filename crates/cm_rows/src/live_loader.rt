//! The loaders, sorted by number, each with its last chunk. A dead one keeps its place until the
//! last one ends or all such are swept out, so that no unload moves the others.

ghost use Rattle.std.specs.Prelude.{◌≡◌, ◌<◌, ◌≤◌, IfSome, IfNone, Some, [], ◌∷◌, ◌++◌, ◌+◌};
ghost use Rattle.std.specs.Prelude.{length, slice_set, vec_len, vec_capacity, true};
ghost use Rattle.cm_index.specs.Living.{living, swept};
ghost use Rattle.cm_rows.specs.Loaders.{Rises, LoaderIsAt, IsAbsent, items, LoaderLivesAt};
ghost use Rattle.cm_rows.specs.Loaders.{IsLivingEnd};
ghost use Rattle.cm_rows.specs.Loaders.{living_loader};

use cm_index::BookSlot;
use cm_pool::Chunk;

/// The chunk of a loader's last class.
#[derive(Clone, Copy, Debug, PartialEq, Eq)]
pub struct LastChunk {
    pub chunk: Chunk,
    /// How many of its words records take.
    pub used: u32,
}

/// A loader.
#[derive(Clone, Copy, Debug)]
pub struct LiveLoader {
    pub number: u64,
    /// The chunk of its last class, if it has a class.
    pub last: Option<LastChunk>,
}

// Where the loader of a number is, or was.
fn search(loaders: &[BookSlot<LiveLoader>], number: u64) -> Option<usize>
    requires { Rises (items loaders.now) }
    ensures found { IfSome result (LoaderIsAt (items loaders.now) number) }
    ensures absent { IfNone result (IsAbsent (items loaders.now) number) }
{
    loaders
        .binary_search_by_key(&number, |slot| slot.item.number)
        .ok()
}

/// Where the loader of a number is, if it lives.
pub fn find(loaders: &[BookSlot<LiveLoader>], number: u64) -> Option<usize>
    requires { Rises (items loaders.now) }
    ensures found { IfSome result (LoaderLivesAt loaders.now number) }
    ensures absent { IfNone result (IsAbsent (living loaders.now) number) }
{
    let at = search(loaders, number)?;
    if loaders[at].live { Some(at) } else { None }
}

/// Appends a live loader to the others, if there is room for it.
pub fn push_loader(loaders: &mut Vec<BookSlot<LiveLoader>>, loader: LiveLoader)
    requires { vec_len loaders.old < vec_capacity loaders.old }
    ensures loaders { loaders.new.items
        ≡ loaders.old.items ++ record { item = loader; live = true } ∷ [] }
    ensures capacity { vec_capacity loaders.old ≤ vec_capacity loaders.new }
{
    loaders
        .push(BookSlot {
            item: loader,
            live: true,
        })
        .unwrap();
}

/// Replaces a loader's last chunk.
pub fn set_last(loaders: &mut Vec<BookSlot<LiveLoader>>, at: usize, number: u64, last: LastChunk)
    requires { at < vec_len loaders.old }
    ensures loaders { loaders.new.items
        ≡ slice_set loaders.old.items at (living_loader number (Some last)) }
    ensures capacity { vec_capacity loaders.new ≡ vec_capacity loaders.old }
{
    let last = Some(last);
    loaders[at] = BookSlot {
        item: LiveLoader { number, last },
        live: true,
    };
}

/// How many loaders there are up to the last one that lives.
pub fn living_end(loaders: &[BookSlot<LiveLoader>]) -> usize
    ensures { IsLivingEnd loaders.now result }
{
    let mut count = loaders.len();
    while count > 0 {
        if loaders[count - 1].live {
            return count;
        }
        count -= 1;
    }
    0
}

/// Replaces the loaders by the live ones of another list, if there is room for them.
pub fn copy_loaders(loaders: &mut Vec<BookSlot<LiveLoader>>, others: &[BookSlot<LiveLoader>])
    requires { length (living others.now) ≤ vec_capacity loaders.old }
    ensures loaders { loaders.new.items ≡ swept others.now }
    ensures capacity { vec_capacity loaders.old ≤ vec_capacity loaders.new }
{
    loaders.clear();
    for slot in others {
        push_living(loaders, slot);
    }
}

// Appends a loader to the others if it lives, if there is room for it.
fn push_living(loaders: &mut Vec<BookSlot<LiveLoader>>, slot: &BookSlot<LiveLoader>)
    requires { vec_len loaders.old + length (living (slot.now ∷ [])) ≤ vec_capacity loaders.old }
    ensures loaders { loaders.new.items ≡ loaders.old.items ++ swept (slot.now ∷ []) }
    ensures capacity { vec_capacity loaders.old ≤ vec_capacity loaders.new }
{
    if slot.live {
        push_loader(loaders, slot.item);
    }
}

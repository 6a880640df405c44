// A space.
ghost use Rattle.std.specs.Prelude.{◌≡◌, ◌≢◌, ◌≤◌, ◌<◌, ◌↔◌, IsTrue, IfOk, OnOk, OnErr, IsErrOf};
ghost use Rattle.std.specs.Prelude.{[], option_map, if◌then◌else◌};
ghost use Rattle.std.specs.List.{AllByRecursion};
ghost use Rattle.std.specs.FinMap as map;
ghost use Rattle.cm_pool.specs.Chunks.{chunk_size};

use crate::adopt::adopt_place;
use crate::leaving::leave_each;
use crate::waiting::{Waiting, free_due, reserve_left, wait_behind};
use cm_arena::{Arena, Moved, PlaceRefusal};
use cm_pool::{Chunk, Geometry, Place, Pool};
use std::alloc::{AllocError, Global};
use std::collections::{BTreeMap, VecDeque};
use std::marker::Model;

/// The roots of a region: which words are free, which chunks each loader owns, and which chunks
/// wait until the command that left them is known to be durable.
///
/// Contracts see a space as its pool, the loaders' chains by number, and the chunks that wait,
/// oldest first. Each word of a present root is free, or in one chunk that is owned or waits, and
/// in only one of these ([`chunks_are_apart`](crate::chunks_are_apart)).
#[derive(Drop)]
pub struct Space {
    alloc: Global,
    pool: Pool,
    arenas: BTreeMap<u64, Arena>,
    waiting: VecDeque<Waiting>,
}

impl Model for Space {
    ghost use Rattle.cm_space.specs.Space.{SpaceState, space_state, state_code};
    ghost use Rattle.cm_space.specs.Ownership.{IsSpace};

    ghost Value = { SpaceState };

    ghost coded = { state_code };

    ghost view = { λ s. space_state s.pool s.arenas.entries s.waiting.items };

    ghost invariant = { λ s. IsSpace (space_state s.pool s.arenas.entries s.waiting.items) };
}

impl Space {
    ghost use Rattle.cm_arena.specs.Chains.{chain_chunks, used_of};
    ghost use Rattle.cm_pool.specs.Lists.{Pairwise};
    ghost use Rattle.cm_arena.specs.Placing.{Places, IsFull, HasRoom};
    ghost use Rattle.cm_pool.specs.FreeSpace.{IsFreeSpace};
    ghost use Rattle.cm_pool.specs.Places.{IsInside};
    ghost use Rattle.cm_space.specs.Space.{WaitingChunks, empty_space, IsKnown, arena_of};
    ghost use Rattle.cm_space.specs.Space.{with_arena};
    ghost use Rattle.cm_space.specs.Space.{left_by_all, learnt};
    ghost use Rattle.cm_space.specs.Ownership.{IsSpace, Owns};
    ghost use Rattle.cm_space.specs.Adopting.{adopted, IsAdoptable, IsOnTheWay};
    ghost use Rattle.cm_arena.specs.Tightening.{IsTight};
    ghost use Rattle.cm_space.specs.Tightening.{MovesOrStays};

    /// A space with no roots and no loaders.
    pub fn new(alloc: Global, geometry: Geometry) -> Result<Space, AllocError>
        ensures { IfOk result (λ space. space ≡ empty_space geometry) }
    {
        let pool = Pool::new(alloc, geometry)?;
        Ok(Space {
            alloc,
            pool,
            arenas: BTreeMap::new(alloc),
            waiting: VecDeque::new(alloc),
        })
    }

    /// The sizes of its region.
    pub fn geometry(&self) -> Geometry
        ensures value { result ≡ self.now.pool.geometry }
        ensures lawful { IsSpace self.now }
        ensures pool { IsFreeSpace self.now.pool }
    {
        self.pool.geometry()
    }

    /// Does nothing: its clauses state the invariant of every space.
    pub fn invariant_holds(&self)
        ensures arenas { IsSpace self.now }
        ensures pool { IsFreeSpace self.now.pool }
    {
        self.pool.invariant_holds();
    }

    /// How many roots are present.
    pub fn roots(&self) -> u32
        ensures { result ≡ self.now.pool.roots }
    {
        self.pool.roots()
    }

    /// Whether a loader has an arena.
    pub fn is_known(&self, loader: u64) -> bool
        ensures { IsTrue result ↔ IsKnown self.now loader }
    {
        self.arenas.contains_key(&loader)
    }

    /// The chunks of a loader's arena, in order. `None` if it has no arena.
    pub fn chunks(&self, loader: u64) -> Option<&[Chunk]>
        ensures { option_map (λ chunks. chunks.now) result
            ≡ option_map chain_chunks (map.get self.now.arenas loader) }
    {
        match self.arenas.get(&loader) {
            Some(arena) => Some(arena.chunks()),
            None => None,
        }
    }

    /// How many words at the front of a chunk are used, if the loader's arena has the chunk.
    pub fn used_words(&self, loader: u64, chunk: &Chunk) -> Option<u32>
        ensures { result ≡ used_of (arena_of self.now loader) chunk.now }
    {
        self.arenas.get(&loader)?.used_words(chunk)
    }

    /// Gives a loader an empty arena. An `Err` changes nothing.
    pub fn add_loader(&mut self, loader: u64) -> Result<(), AllocError>
        requires { ¬ IsKnown self.old loader }
        ensures ok { OnOk result (self.new ≡ with_arena self.old loader []) }
        ensures err { OnErr result (self.new ≡ self.old) }
    {
        self.arenas.insert(loader, Arena::new(self.alloc))?;
        Ok(())
    }

    /// Finds a place for the words of a record in a loader's arena, as [`Arena::place`] does: after
    /// the used words of its last chunk, or else at the front of a new one. The other arenas and
    /// the waiting chunks are unchanged.
    ///
    /// Fails with `RecordTooLong` if a root chunk doesn't hold the words; else with `RegionFull` if
    /// the last chunk has no room, no chunk of the order needed is free, and all roots are present.
    /// `NoMemory` is returned only if neither applies and the last chunk has no room. An error
    /// changes nothing.
    pub fn place(&mut self, loader: u64, words: u32) -> Result<Place, PlaceRefusal>
        requires known { IsKnown self.old loader }
        requires some { 1 ≤ words }
        ensures placed { IfOk result (λ place. Places (arena_of self.old loader) self.old.pool words
            place (arena_of self.new loader) self.new.pool) }
        ensures others { OnOk result (self.new
            ≡ record (with_arena self.old loader (arena_of self.new loader)) {
              pool = self.new.pool;
            }) }
        ensures inside { IfOk result (λ place. IsInside place × Owns self.new loader place.chunk) }

        ensures too_long { IsErrOf result PlaceRefusal.RecordTooLong
            ↔ (chunk_size self.old.pool.geometry.top < words) }
        ensures full { IsErrOf result PlaceRefusal.RegionFull
            ↔ IsFull (arena_of self.old loader) self.old.pool words }
        ensures memory { IsErrOf result PlaceRefusal.NoMemory
            → ¬ HasRoom (arena_of self.old loader) words }
        ensures err { OnErr result (self.new ≡ self.old) }
    {
        let arena = self.arenas.get_mut(&loader).unwrap();
        arena.place(words, &mut self.pool)
    }

    /// Whether [`place`](Space::place) fails with `RegionFull` for `words` words in a loader's
    /// arena. Doesn't allocate, and leaves the space unchanged.
    pub fn is_full(&mut self, loader: u64, words: u32) -> bool
        requires known { IsKnown self.old loader }
        requires some { 1 ≤ words }
        ensures full { IsTrue result ↔ IsFull (arena_of self.old loader) self.old.pool words }
        ensures left { self.new ≡ self.old }
    {
        let arena = self.arenas.get(&loader).unwrap();
        arena.is_full(words, &mut self.pool)
    }

    /// Adopts the place of a record that was found in a file. It has to be the next one of the
    /// loader's arena: after the used words of its last chunk, or at the front of a free chunk of
    /// the region. Roots are added until that chunk's root is present, and the chunk is taken.
    /// Returns false, and changes nothing, if the place isn't the next one or the chunk isn't free.
    ///
    /// An `Err` leaves the arenas and the waiting chunks unchanged; some of the roots that the
    /// place needs may have been added.
    pub fn adopt(&mut self, loader: u64, place: Place) -> Result<bool, AllocError>
        requires { IsKnown self.old loader }
        ensures next { IfOk result (λ taken. IsTrue taken
            ↔ IsAdoptable (arena_of self.old loader) self.old.pool place) }
        ensures left { IfOk result (λ taken. self.new
            ≡ (if taken then adopted self.old loader place else self.old)) }
        ensures memory { OnErr result (IsAdoptable (arena_of self.old loader) self.old.pool place) }
        ensures err { OnErr result (IsOnTheWay self.old.pool place.chunk.root self.new.pool) }
        ensures others { OnErr result (self.new ≡ record self.old { pool = self.new.pool }) }
    {
        adopt_place(self.arenas.get_mut(&loader).unwrap(), &mut self.pool, place)
    }

    /// Removes the arenas of loaders, one after another. Their chunks, and no others, wait for the
    /// number from then on, after those that wait already, in the order of the loaders; an arena
    /// with no chunks leaves an entry with none. Either all are removed or none, since all memory
    /// is allocated first. An `Err` changes nothing.
    pub fn leave_all(&mut self, loaders: &[u64], number: u64) -> Result<(), AllocError>
        requires known { AllByRecursion (IsKnown self.old) loaders.now }
        requires differ { Pairwise (λ u v. u ≢ v) loaders.now }
        requires last { AllByRecursion (λ (w : WaitingChunks). w.number ≤ number) self.old.waiting }
        ensures ok { OnOk result (self.new ≡ left_by_all self.old number loaders.now) }
        ensures err { OnErr result (self.new ≡ self.old) }
    {
        self.waiting.reserve(loaders.len())?;
        leave_each(&mut self.arenas, &mut self.waiting, loaders, number);
        Ok(())
    }

    /// Whether [`tighten`](Space::tighten) returns `None` for a loader. Doesn't allocate, and
    /// leaves the space unchanged.
    pub fn is_tight(&mut self, loader: u64) -> bool
        requires { IsKnown self.old loader }
        ensures tight { IsTrue result ↔ IsTight (arena_of self.old loader) self.old.pool }
        ensures left { self.new ≡ self.old }
    {
        let arena = self.arenas.get(&loader).unwrap();
        arena.is_tight(&mut self.pool)
    }

    /// Moves the used words of a loader's last chunk, as [`Arena::tighten`] does. The old chunk,
    /// and no other, waits for the number from then on, after those that wait already. Returns
    /// `None`, and changes nothing, if the words have nowhere to move. An `Err` changes nothing,
    /// and is returned only if the words have somewhere to move.
    pub fn tighten(&mut self, loader: u64, number: u64) -> Result<Option<Moved>, AllocError>
        requires known { IsKnown self.old loader }
        requires last { AllByRecursion (λ (w : WaitingChunks). w.number ≤ number) self.old.waiting }
        ensures ok { IfOk result (MovesOrStays self.old loader number self.new) }
        ensures err { OnErr result ((self.new ≡ self.old)
            × ¬ IsTight (arena_of self.old loader) self.old.pool) }
    {
        let Some(left) = reserve_left(self.alloc, &mut self.waiting) else {
            return if self.is_tight(loader) {
                Ok(None)
            } else {
                Err(AllocError)
            };
        };
        let chain = self.arenas.get_mut(&loader).unwrap();
        let Some(moved) = chain.tighten(&mut self.pool) else {
            return Ok(None);
        };
        wait_behind(&mut self.waiting, left, moved.from, number);
        Ok(Some(moved))
    }

    /// Frees the chunks that wait for at most this number. The others keep waiting.
    pub fn learn(&mut self, number: u64)
        ensures { self.new ≡ learnt self.old number }
    {
        free_due(&mut self.pool, &mut self.waiting, number);
    }
}

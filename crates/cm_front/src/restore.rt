//! Makes the cache that a file holds.

ghost use Rattle.std.specs.Prelude.{◌≡◌, ℕ, ◌≤◌, ◌^◌, [], IfOk, OnOk};
ghost use Rattle.cm_pool.specs.Geometry.{IsGeometry};
ghost use Rattle.cm_state.specs.State.{words_show};
ghost use Rattle.cm_state.specs.Entries.{AreCacheRows};
ghost use Rattle.cm_group.specs.Groups.{AreRight};
ghost use Rattle.cm_front.specs.Restoring.{IsSpaceOf, CanTake, RestoresRow, Restores};

use crate::front::Front;
use crate::unsealed::Unsealed;
use cm_commands::Prepared;
use cm_layout::Row;
use cm_pool::{Geometry, roots_are_free};
use cm_rows::LiveRows;
use cm_space::{Space, each_word_has_its_place, roots_reach_what_is_adopted};
use std::alloc::{AllocError, Global};

impl Front {
    /// The cache of a new file: it has no loaders, and no command was accepted yet. It is an `Err`
    /// only if an allocation failed.
    pub fn new(alloc: Global, geometry: Geometry) -> Result<Front, AllocError>
        ensures { IfOk result (Restores (record { sizes = geometry; rows = [] }) 0) }
    {
        let book = LiveRows::new(alloc, geometry)?;
        Front::restore(alloc, geometry, book, 0)
    }

    /// The cache of these rows, as recovery finds them: all commands up to `number` are durable,
    /// nothing is to be handed out, and as many roots are present as the rows use. It is an `Err`,
    /// and there is no cache, only if an allocation failed.
    pub fn restore(
        alloc: Global,
        geometry: Geometry,
        book: LiveRows<Prepared>,
        number: u64,
    ) -> Result<Front, AllocError>
        requires sizes { book.sizes ≡ geometry }
        requires rows { AreCacheRows words_show book.sizes number book.rows }
        requires right { AreRight book.rows }
        requires last { number ≤ 2 ^ 63 }
        ensures { IfOk result (λ front. Restores book number front) }
    {
        geometry.invariant_holds();
        let mut space = Space::new(alloc, geometry)?;
        space.invariant_holds();
        take_rows(&mut space, &book)?;
        Ok(Front {
            alloc,
            book,
            space,
            unsealed: Unsealed::new(alloc),
            number,
            sealed: number,
            learnt: number,
            is_broken: false,
            is_closed: false,
        })
    }
}

// RestoresRow rows into a space that has none.
fn take_rows(space: &mut Space, book: &LiveRows<Prepared>) -> Result<(), AllocError>
    requires lawful { IsGeometry book.now.sizes }
    requires none { IsSpaceOf book.now.sizes [] space.old }
    requires rows { (n : ℕ) × AreCacheRows words_show book.now.sizes n book.now.rows }
    ensures { OnOk result (IsSpaceOf book.now.sizes book.now.rows space.new) }
{
    roots_are_free();
    each_word_has_its_place();
    roots_reach_what_is_adopted();
    let mut rows = book.walk();
    while let Some(row) = rows.next() {
        take_row(space, row)?;
    }
    Ok(())
}

// RestoresRow one more row: a loader gets an arena, and a class's place is adopted.
fn take_row(space: &mut Space, row: &Row<Prepared>) -> Result<(), AllocError>
    requires { CanTake row.now space.old }
    ensures { OnOk result (RestoresRow row.now space.old space.new) }
{
    match row {
        Row::Loader(row) => space.add_loader(row.number)?,
        Row::Class(row, _) => {
            let _taken = space.adopt(row.loader, row.place)?; // it can be taken
        }
    }
    space.invariant_holds();
    Ok(())
}

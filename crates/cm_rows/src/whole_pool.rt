//! A pool with all roots of a region.

ghost use Rattle.std.specs.Prelude.{IfOk, []};
ghost use Rattle.cm_rows.specs.Held.{PoolHolds};

use cm_pool::{Geometry, Pool};
use std::alloc::{AllocError, Global};

/// A pool with all roots of a region, all free.
pub fn whole_pool(alloc: Global, geometry: Geometry) -> Result<Pool, AllocError>
    ensures { IfOk result (λ pool. PoolHolds geometry pool []) }
{
    let mut pool = Pool::new(alloc, geometry)?;
    for _root in 0..geometry.roots() {
        let _added = pool.add_root()?; // there is room for it
    }
    Ok(pool)
}

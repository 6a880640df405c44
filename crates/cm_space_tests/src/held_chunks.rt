// Chunks that a test holds while a pool has the others, so that it gives back only what it took.
ghost use Rattle.std.specs.Prelude.{◌<◌, vec_len};
ghost use Rattle.cm_pool.specs.Held.{AreHeld};

use cm_pool::{Chunk, Pool};
use std::alloc::AllocError;

// Takes the first chunk of an order, and holds it.
pub fn hold(pool: &mut Pool, held: &mut Vec<Chunk>, order: u32) -> Result<Option<Chunk>, AllocError>
    requires { AreHeld pool.old held.old.items }
    ensures { AreHeld pool.new held.new.items }
{
    held.reserve(1)?;
    if order > pool.geometry().top() {
        return Ok(None);
    }
    let Some(chunk) = pool.alloc(order) else {
        return Ok(None);
    };
    held.push(chunk).unwrap();
    Ok(Some(chunk))
}

// Gives back a chunk that was held.
pub fn give_held(pool: &mut Pool, held: &mut Vec<Chunk>, at: usize) -> Chunk
    requires held { AreHeld pool.old held.old.items }
    requires at { at < vec_len held.old }
    ensures held { AreHeld pool.new held.new.items }
    ensures len { vec_len held.new < vec_len held.old }
{
    let chunk = held.remove(at);
    pool.give(chunk);
    chunk
}

//! Compares a class with the one that a cache has, for C.

ghost use Rattle.std.specs.Prelude.{◌≡◌, pos, false};
ghost use Rattle.cm_record.specs.Names.{class_name_in};
ghost use Rattle.cm_core.specs.Comparing.{Compares, ComparesIn};

use crate::cache::share;
use crate::handle::Handle;
use crate::inner::Inner;
use crate::status::{EMPTY, NO_MEMORY, NONE, OK, OTHER};
use cm_commands::Prepared;
use cm_deferred_disk::DeferredDisk;
use cm_stepped::SteppedSession;
use std::alloc::Global;

// Whether the class of this name that a loader has is the same.
fn compare(
    cache: &SteppedSession<DeferredDisk>,
    loader: &[u8],
    name: &[u8],
    class: &Prepared,
) -> i32
    ensures { Compares cache.now loader.now name.now class.now result }
{
    match cache.find(loader, name) {
        Some(record) => {
            if record.has_same_words(class.record()) {
                OK
            } else {
                OTHER
            }
        }
        None => NONE,
    }
}

// The same, if this is a cache.
fn compare_in(inner: &Inner, loader: &[u8], name: &[u8], class: &Prepared) -> i32
    ensures { ComparesIn inner.now loader.now name.now class.now result }
{
    match inner {
        Inner::Cache(cache) => compare(cache, loader, name, class),
        _ => EMPTY,
    }
}

// Compares a class with the one of its name in the cache that a handle leads to.
fn compare_with(alloc: Global, handle: &mut Handle, loader: &[u8], class: &Prepared) -> i32
    ensures full { handle.new.full ≡ handle.old.full }
{
    let Ok(name) = class.class_name(alloc) else {
        return NO_MEMORY;
    };
    let Some(inner) = handle.take(alloc) else {
        return EMPTY;
    };
    let status = compare_in(&inner, loader, &name, class);
    *handle = Handle::of(inner);
    status
}

/// Whether the class of a prepared class's name is the same.
#[unsafe(no_mangle)]
pub extern "C" fn cmcore_same(
    alloc: Global,
    cache: &mut Handle,
    loader: &[u8],
    prepared: &mut Handle,
) -> i32
    ensures cache { cache.new.full ≡ cache.old.full }
    ensures prepared { prepared.new.full ≡ prepared.old.full }
    ensures refused { prepared.old.full ≡ false → result ≡ pos 25 }
{
    match share(alloc, prepared) {
        Ok(class) => compare_with(alloc, cache, loader, &class),
        Err(status) => status,
    }
}

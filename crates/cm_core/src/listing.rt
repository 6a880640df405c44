//! The names of a cache's loaders and classes, for C.

ghost use Rattle.std.specs.Prelude.{◌≡◌, IfOk, IfErr, length, pos};
ghost use Rattle.cm_core.specs.Handles.{IsUsed};
ghost use Rattle.cm_core.specs.Listing.{ListsLoaders, ListsClasses, TellsName};

use crate::handle::Handle;
use crate::inner::Inner;
use crate::places::bytes_at;
use crate::status::{EMPTY, NO_LOADER, NO_MEMORY, NONE, OK};
use cm_listed_names::{class_names, loader_names};
use std::alloc::Global;

// The names of the loaders, if this is a cache.
fn list_loaders(alloc: Global, inner: &Inner) -> Result<Vec<Vec<u8>>, i32>
    ensures { ListsLoaders inner.now result }
{
    match inner {
        Inner::Cache(cache) => match loader_names(alloc, cache.rows()) {
            Ok(names) => Ok(names),
            Err(_) => Err(NO_MEMORY),
        },
        _ => Err(EMPTY),
    }
}

// The names of the classes of a loader, if this is a cache that has the loader.
fn list_classes(alloc: Global, inner: &Inner, loader: &[u8]) -> Result<Vec<Vec<u8>>, i32>
    ensures { ListsClasses inner.now loader.now result }
{
    match inner {
        Inner::Cache(cache) => match cache.rows().loader(loader) {
            Some(number) => match class_names(alloc, cache.rows(), number) {
                Ok(names) => Ok(names),
                Err(_) => Err(NO_MEMORY),
            },
            None => Err(NO_LOADER),
        },
        _ => Err(EMPTY),
    }
}

// Fills a handle with names.
fn keep(alloc: Global, listed: Result<Vec<Vec<u8>>, i32>, names: &mut Handle) -> i32
    ensures { IfErr listed (λ status. result ≡ status) }
{
    match listed {
        Ok(listed) => names.fill(alloc, Inner::Names(listed)),
        Err(status) => status,
    }
}

/// The names of a cache's loaders.
#[unsafe(no_mangle)]
pub extern "C" fn cmcore_loader_names(alloc: Global, cache: &mut Handle, names: &mut Handle) -> i32
    ensures { IsUsed cache.old.full cache.new.full result }
{
    let Some(inner) = cache.take(alloc) else {
        return EMPTY;
    };
    let listed = list_loaders(alloc, &inner);
    *cache = Handle::of(inner);
    keep(alloc, listed, names)
}

/// The names of the classes of a loader.
#[unsafe(no_mangle)]
pub extern "C" fn cmcore_class_names(
    alloc: Global,
    cache: &mut Handle,
    loader: &[u8],
    names: &mut Handle,
) -> i32
    ensures { IsUsed cache.old.full cache.new.full result }
{
    let Some(inner) = cache.take(alloc) else {
        return EMPTY;
    };
    let listed = list_classes(alloc, &inner, loader);
    *cache = Handle::of(inner);
    keep(alloc, listed, names)
}

// Says where one of the names is, and how long it is.
fn tell_name(inner: &Inner, at: usize, name: &mut *const u8, len: &mut usize) -> i32
    ensures { TellsName inner.now at len.old len.new result }
{
    match inner {
        Inner::Names(names) => match names.get(at) {
            Some(found) => {
                *name = bytes_at(found);
                *len = found.len();
                OK
            }
            None => NONE,
        },
        _ => EMPTY,
    }
}

/// One of the names that a handle leads to.
#[unsafe(no_mangle)]
pub extern "C" fn cmcore_name(
    alloc: Global,
    names: &mut Handle,
    at: usize,
    name: &mut *const u8,
    len: &mut usize,
) -> i32
    ensures { IsUsed names.old.full names.new.full result }
{
    let Some(inner) = names.take(alloc) else {
        return EMPTY;
    };
    let status = tell_name(&inner, at, name, len);
    *names = Handle::of(inner);
    status
}

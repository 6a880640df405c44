//! The device calls that C is to make.

ghost use Rattle.std.specs.Prelude.{◌≡◌, option_map, pos, true};
ghost use Rattle.cm_deferred_disk.specs.Calls.{call_of};
ghost use Rattle.cm_core.specs.Cache.{StepsCache, StepsCalls, StepsInner};
ghost use Rattle.cm_core.specs.Calls.{Shows, ShowsNext, asked_by};
ghost use Rattle.cm_core.specs.Handles.{IsUsed};

use crate::handle::Handle;
use crate::inner::Inner;
use crate::places::bytes_at;
use crate::status::{BAD_SIZES, BROKEN, Damage, EMPTY, NO_MEMORY, OK, of_open_fault};
use cm_deferred_disk::{Call, DeferredDisk};
use cm_pool::Geometry;
use cm_stepped::{CallList, Step, SteppedSession};
use std::alloc::Global;
use std::ptr::null;

/// A device call that is to be made.
#[repr(C)]
pub struct NextCall {
    /// 0 none, 1 a write, 2 a cut, 3 a sync.
    pub kind: u32,
    /// Where a write begins, or the length of a cut.
    pub at: u64,
    /// The bytes of a write.
    pub bytes: *const u8,
    pub len: usize,
}

/// The calls that make an empty file of these sizes.
#[unsafe(no_mangle)]
pub extern "C" fn cmcore_format(
    alloc: Global,
    top: u32,
    roots: u32,
    slots: u32,
    calls: &mut Handle,
) -> i32
    ensures { result ≡ pos 0 → calls.new.full ≡ true }
{
    let Some(geometry) = Geometry::new(top, roots, slots) else {
        return BAD_SIZES;
    };
    match CallList::format(alloc, geometry) {
        Ok(list) => calls.fill(alloc, Inner::Calls(list)),
        Err(_) => NO_MEMORY,
    }
}

/// The calls that bring a file of version 1 up to date.
#[unsafe(no_mangle)]
pub extern "C" fn cmcore_upgrade(
    alloc: Global,
    bytes: &[u8],
    calls: &mut Handle,
    damage: &mut Damage,
) -> i32
    ensures { result ≡ pos 0 → calls.new.full ≡ true }
{
    match CallList::upgrade(alloc, bytes) {
        Ok(list) => calls.fill(alloc, Inner::Calls(list)),
        Err(fault) => of_open_fault(fault, damage),
    }
}

// A step of a cache. The call that it notes is what the disk's device then shows.
fn step_cache(cache: &mut SteppedSession<DeferredDisk>, made: bool, stored: &mut u64) -> i32
    ensures { StepsCache made cache.old cache.new result stored.old stored.new }
{
    match cache.step(made) {
        Ok(Step::Stored(number)) => {
            *stored = number;
            OK
        }
        Ok(_) => OK,
        Err(_) => BROKEN,
    }
}

// A step of calls that are made one after another.
fn step_calls(calls: &mut CallList, made: bool) -> i32
    ensures { StepsCalls made calls.old calls.new result }
{
    match calls.step(made) {
        Ok(()) => OK,
        Err(_) => BROKEN,
    }
}

// A step of a cache or of calls.
fn step(inner: &mut Inner, made: bool, stored: &mut u64) -> i32
    ensures { StepsInner made inner.old inner.new result stored.old stored.new }
{
    match inner {
        Inner::Cache(cache) => step_cache(cache, made, stored),
        Inner::Calls(calls) => step_calls(calls, made),
        _ => EMPTY,
    }
}

/// The next step, which is told whether the call that was to be made was made.
#[unsafe(no_mangle)]
pub extern "C" fn cmcore_step(
    alloc: Global,
    handle: &mut Handle,
    made: bool,
    stored: &mut u64,
) -> i32
    ensures { IsUsed handle.old.full handle.new.full result }
{
    let Some(mut inner) = handle.take(alloc) else {
        return EMPTY;
    };
    let status = step(&mut inner, made, stored);
    *handle = Handle::of(inner);
    status
}

// Says which call is to be made, if one is.
fn show(noted: Option<Call<'_>>, next: &mut NextCall)
    ensures { Shows (option_map call_of noted.entry) next.new }
{
    next.at = 0;
    next.bytes = null();
    next.len = 0;
    match noted {
        None => next.kind = 0,
        Some(Call::Write { at, bytes }) => {
            next.kind = 1;
            next.at = at;
            next.bytes = bytes_at(bytes);
            next.len = bytes.len();
        }
        Some(Call::Cut { len }) => {
            next.kind = 2;
            next.at = len;
        }
        Some(Call::Sync) => next.kind = 3,
    }
}

/// The call that a cache notes, if one is to be made.
fn noted_by(cache: &SteppedSession<DeferredDisk>) -> Option<Call<'_>>
    ensures { option_map call_of result ≡ asked_by cache.now }
{
    cache.noted()?.device().call()
}

// Says which call is to be made, of a cache or of calls.
fn show_next(inner: &Inner, next: &mut NextCall) -> i32
    ensures { ShowsNext inner.now result next.old next.new }
{
    match inner {
        Inner::Cache(cache) => show(noted_by(cache), next),
        Inner::Calls(calls) => show(calls.call(), next),
        _ => return EMPTY,
    }
    OK
}

/// The device call that is to be made now.
#[unsafe(no_mangle)]
pub extern "C" fn cmcore_next_call(alloc: Global, handle: &mut Handle, next: &mut NextCall) -> i32
    ensures { IsUsed handle.old.full handle.new.full result }
{
    let Some(inner) = handle.take(alloc) else {
        return EMPTY;
    };
    let status = show_next(&inner, next);
    *handle = Handle::of(inner);
    status
}

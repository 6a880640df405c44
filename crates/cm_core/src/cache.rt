//! A cache for C.

ghost use Rattle.std.specs.Prelude.{◌≡◌, IfErr, IfOk, Some, Err, pos, true, false};
ghost use Rattle.std.specs.Arc.{arc_value};
ghost use Rattle.cm_commands.specs.Commands.{change_asked};
ghost use Rattle.cm_core.specs.Cache.{Accepts, Changes, class_in, unshared, LooksUp, LooksIn};
ghost use Rattle.cm_core.specs.Cache.{words_given, stats_of, TellsStats};
ghost use Rattle.cm_core.specs.Handles.{IsUsed};

use crate::handle::Handle;
use crate::inner::Inner;
use crate::status::{Damage, EMPTY, NO_MEMORY, NONE, OK, of_bytes_fault, of_refusal};
use cm_commands::{Command, Names, Prepared, Refusal};
use cm_deferred_disk::DeferredDisk;
use cm_record::Record;
use cm_stepped::{SteppedSession, open_bytes};
use std::alloc::Global;
use std::sync::Arc;

/// Opens the cache that these bytes hold.
#[unsafe(no_mangle)]
pub extern "C" fn cmcore_open(
    alloc: Global,
    bytes: &[u8],
    cache: &mut Handle,
    damage: &mut Damage,
) -> i32
    ensures { result ≡ pos 0 → cache.new.full ≡ true }
{
    match open_bytes(alloc, bytes) {
        Ok(session) => cache.fill(alloc, Inner::Cache(session)),
        Err(fault) => of_bytes_fault(fault, damage),
    }
}

// Accepts a command.
fn accept(cache: &mut SteppedSession<DeferredDisk>, command: Command<'_>, number: &mut u64) -> i32
    ensures { Accepts (change_asked command.entry) cache.old cache.new result number.old
        number.new }
{
    match cache.accept(command) {
        Ok(accepted) => {
            *number = accepted;
            OK
        }
        Err(refusal) => of_refusal(&refusal),
    }
}

// Accepts a command, if this is a cache.
fn change_inner(inner: &mut Inner, command: Command<'_>, number: &mut u64) -> i32
    ensures { Changes (change_asked command.entry) inner.old inner.new result number.old
        number.new }
{
    match inner {
        Inner::Cache(cache) => accept(cache, command, number),
        _ => EMPTY,
    }
}

// Accepts a command for the cache that a handle leads to.
fn change(alloc: Global, handle: &mut Handle, command: Command<'_>, number: &mut u64) -> i32
    ensures { IsUsed handle.old.full handle.new.full result }
{
    let Some(mut inner) = handle.take(alloc) else {
        return EMPTY;
    };
    let status = change_inner(&mut inner, command, number);
    *handle = Handle::of(inner);
    status
}

#[unsafe(no_mangle)]
pub extern "C" fn cmcore_add_loader(
    alloc: Global,
    cache: &mut Handle,
    loader: &[u8],
    number: &mut u64,
) -> i32
    ensures { IsUsed cache.old.full cache.new.full result }
{
    change(alloc, cache, Command::AddLoader(loader), number)
}

#[unsafe(no_mangle)]
pub extern "C" fn cmcore_unload(
    alloc: Global,
    cache: &mut Handle,
    loader: &[u8],
    number: &mut u64,
) -> i32
    ensures { IsUsed cache.old.full cache.new.full result }
{
    change(alloc, cache, Command::Unload(loader), number)
}

#[unsafe(no_mangle)]
pub extern "C" fn cmcore_tighten(
    alloc: Global,
    cache: &mut Handle,
    loader: &[u8],
    number: &mut u64,
) -> i32
    ensures { IsUsed cache.old.full cache.new.full result }
{
    change(alloc, cache, Command::Tighten(loader), number)
}

#[unsafe(no_mangle)]
pub extern "C" fn cmcore_unload_all(
    alloc: Global,
    cache: &mut Handle,
    loaders: &[u8],
    number: &mut u64,
) -> i32
    ensures { IsUsed cache.old.full cache.new.full result }
{
    let command = Command::UnloadAll(Names::from_words(loaders));
    change(alloc, cache, command, number)
}

// A share of the class, if this is one.
fn share_class(inner: &Inner) -> Result<Prepared, i32>
    ensures shared { IfOk result (λ class. class_in inner.now ≡ Some class) }
    ensures status { IfErr result (λ status. status ≡ unshared (class_in inner.now)) }
{
    match inner {
        Inner::Prepared(class) => match class.share() {
            Ok(class) => Ok(class),
            Err(_) => Err(NO_MEMORY),
        },
        _ => Err(EMPTY),
    }
}

/// A share of the class that a handle leads to.
pub(crate) fn share(alloc: Global, handle: &mut Handle) -> Result<Prepared, i32>
    ensures full { handle.new.full ≡ handle.old.full }
    ensures refused { handle.old.full ≡ false → result ≡ Err (pos 25) }
{
    let Some(inner) = handle.take(alloc) else {
        return Err(EMPTY);
    };
    let shared = share_class(&inner);
    *handle = Handle::of(inner);
    shared
}

#[unsafe(no_mangle)]
pub extern "C" fn cmcore_define(
    alloc: Global,
    cache: &mut Handle,
    loader: &[u8],
    prepared: &mut Handle,
    number: &mut u64,
) -> i32
    ensures prepared { IsUsed prepared.old.full prepared.new.full result }
    ensures cache { cache.new.full ≡ cache.old.full }
{
    match share(alloc, prepared) {
        Ok(class) => change(alloc, cache, Command::Define(loader, class), number),
        Err(status) => status,
    }
}

// A share of the record of a class.
fn look_up(
    cache: &SteppedSession<DeferredDisk>,
    loader: &[u8],
    class: &[u8],
) -> Result<Arc<Record, Global>, i32>
    ensures { LooksUp cache.now loader.now class.now (words_given (λ r. arc_value r) result) }
{
    match cache.find(loader, class) {
        Some(record) => match record.clone() {
            Ok(record) => Ok(record),
            Err(_) => Err(NO_MEMORY),
        },
        None => Err(NONE),
    }
}

// A share of the record of a class, if this is a cache.
fn look_in(inner: &Inner, loader: &[u8], class: &[u8]) -> Result<Arc<Record, Global>, i32>
    ensures { LooksIn inner.now loader.now class.now (words_given (λ r. arc_value r) result) }
{
    match inner {
        Inner::Cache(cache) => look_up(cache, loader, class),
        _ => Err(EMPTY),
    }
}

#[unsafe(no_mangle)]
pub extern "C" fn cmcore_find(
    alloc: Global,
    cache: &mut Handle,
    loader: &[u8],
    class: &[u8],
    record: &mut Handle,
) -> i32
    ensures cache { IsUsed cache.old.full cache.new.full result }
    ensures record { result ≡ pos 0 → record.new.full ≡ true }
{
    let Some(inner) = cache.take(alloc) else {
        return EMPTY;
    };
    let found = look_in(&inner, loader, class);
    *cache = Handle::of(inner);
    match found {
        Ok(found) => record.fill(alloc, Inner::Record(found)),
        Err(status) => status,
    }
}

/// What a cache says of itself.
#[repr(C)]
pub struct Stats {
    /// The number of the last command that was accepted.
    pub accepted: u64,
    /// The number of the last command that is known to be stored.
    pub stored: u64,
    pub top: u32,
    pub roots: u32,
    pub slots: u32,
    /// How many loaders and classes live.
    pub live: usize,
    /// How many slots they take of a half of the journal; half of them is the limit.
    pub live_slots: usize,
}

// What a cache says of itself.
fn tell(session: &SteppedSession<DeferredDisk>, stats: &mut Stats)
    ensures { stats.new ≡ stats_of session.now }
{
    let geometry = session.geometry();
    stats.accepted = session.accepted();
    stats.stored = session.stored();
    stats.top = geometry.top();
    stats.roots = geometry.roots();
    stats.slots = geometry.slots();
    stats.live = session.rows().len();
    stats.live_slots = session.rows().slots();
}

// What this says of itself, if it is a cache.
fn tell_stats(inner: &Inner, stats: &mut Stats) -> i32
    ensures { TellsStats inner.now result stats.old stats.new }
{
    match inner {
        Inner::Cache(session) => {
            tell(session, stats);
            OK
        }
        _ => EMPTY,
    }
}

#[unsafe(no_mangle)]
pub extern "C" fn cmcore_get_stats(alloc: Global, cache: &mut Handle, stats: &mut Stats) -> i32
    ensures { IsUsed cache.old.full cache.new.full result }
{
    let Some(inner) = cache.take(alloc) else {
        return EMPTY;
    };
    let status = tell_stats(&inner, stats);
    *cache = Handle::of(inner);
    status
}

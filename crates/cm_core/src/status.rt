//! The numbers that the exports answer.

ghost use Rattle.std.specs.Prelude.{◌≡◌, pos};
ghost use Rattle.cm_commands.specs.Refusals.{refusal_number};
ghost use Rattle.cm_core.specs.Status.{open_status, bytes_status};
ghost use Rattle.cm_core.specs.Damage.{damage_told, bytes_damage};

use cm_commands::Refusal;
use cm_stepped::BytesFault;
use cm_verdict::{FileFault, OpenFault};

/// It is done.
pub const OK: i32 = 0;

/// No loader has this name.
pub const NO_LOADER: i32 = 3;

/// An allocation failed.
pub const NO_MEMORY: i32 = 9;

/// The device failed earlier.
pub const BROKEN: i32 = 10;

/// A size is outside its limits.
pub const BAD_SIZES: i32 = 20;

/// The bytes are no cache.
pub const NOT_A_CACHE: i32 = 21;

/// The bytes are a damaged cache.
pub const DAMAGED: i32 = 22;

/// The bytes are a cache of version 1.
pub const OLDER: i32 = 23;

/// There is none.
pub const NONE: i32 = 24;

/// A handle is empty, or leads to something else.
pub const EMPTY: i32 = 25;

/// The bytes are longer than a file may be.
pub const TOO_LONG: i32 = 26;

/// There is more than the caller has room for.
pub const NO_ROOM: i32 = 27;

/// Another class has this name.
pub const OTHER: i32 = 28;

/// The first damage of a file: its number, and the slot where it was found.
#[repr(C)]
pub struct Damage {
    pub what: u32,
    pub slot: u32,
}

/// The number of a refusal, as in a reply of `cmcache apply`.
pub(crate) fn of_refusal(refusal: &Refusal) -> i32
    ensures { result ≡ pos (refusal_number refusal.now) }
{
    i32::from(refusal.number())
}

/// The number for a file that isn't opened.
pub(crate) fn of_open_fault(fault: OpenFault, damage: &mut Damage) -> i32
    ensures status { result ≡ open_status fault }
    ensures damage { damage.new ≡ damage_told damage.old fault }
{
    match fault {
        OpenFault::File(FileFault::NotACache) => NOT_A_CACHE,
        OpenFault::File(FileFault::Damaged { what, slot }) => {
            damage.what = u32::from(what.number());
            damage.slot = slot;
            DAMAGED
        }
        OpenFault::Device => TOO_LONG,
        OpenFault::NoMemory => NO_MEMORY,
    }
}

/// The number for the bytes of a file that aren't opened.
pub(crate) fn of_bytes_fault(fault: BytesFault, damage: &mut Damage) -> i32
    ensures status { result ≡ bytes_status fault }
    ensures damage { damage.new ≡ bytes_damage damage.old fault }
{
    match fault {
        BytesFault::Older => OLDER,
        BytesFault::Fault(fault) => of_open_fault(fault, damage),
    }
}

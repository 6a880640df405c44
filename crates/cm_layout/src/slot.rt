//! What slots have in common.

ghost use Rattle.std.specs.Prelude.{◌≡◌, ◌≤◌, ◌==◌, ◌↔◌, IsTrue, length, take, get_or};
ghost use Rattle.cm_layout.specs.Offsets.{slot_size};

use crate::kind;

/// The byte that opens a gate. Any other byte leaves it shut.
pub const OPEN_GATE: u8 = 0xA5;

/// The length of a slot in bytes.
pub const SLOT_BYTES: usize = 64;

/// Where a head has its gate.
pub(crate) const GATE_AT: usize = 0;

/// Where a slot says what it is.
pub(crate) const KIND_AT: usize = 1;

/// The length of a superblock in bytes. Its last one is its gate.
pub const SUPERBLOCK_BYTES: usize = 4096;

/// The first of slots that follow one another.
pub fn front_slot(slots: &[u8]) -> &[u8; SLOT_BYTES]
    requires { slot_size ≤ length slots.now }
    ensures { result.now ≡ take slot_size slots.now }
{
    match slots.first_chunk::<SLOT_BYTES>() {
        Some(slot) => slot,
        None => unreachable!(),
    }
}

/// Whether a slot is a continuation slot: it holds the end of the name of the loader before it.
pub fn is_rest(slot: &[u8; SLOT_BYTES]) -> bool
    ensures { result ≡ (get_or slot.now 1 0 == 22) }
{
    slot[KIND_AT] == kind::REST
}

/// Whether two slots have the same bytes.
pub(crate) fn is_same_slot(a: &[u8; SLOT_BYTES], b: &[u8; SLOT_BYTES]) -> bool
    ensures { IsTrue result ↔ (a.now ≡ b.now) }
{
    a.as_slice() == b.as_slice()
}

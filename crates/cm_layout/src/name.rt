//! Names of loaders, and names as slots have room for them.

ghost use Rattle.std.specs.Prelude.{◌≡◌, ◌≤◌, ◌-◌, ◌↔◌, length, take, drop, IsSome, IfSome};
ghost use Rattle.std.specs.List.{list_all};
ghost use Rattle.cm_layout.specs.Names.{is_loader_name, is_visible, is_long as is_long_name};
ghost use Rattle.cm_layout.specs.Names.{name_room, long_name_room, slots_of_name, limit_of};
ghost use Rattle.cm_layout.specs.Slots.{padded};

use crate::heads::OLDEST_VERSION;
use std::marker::Model;

/// How many bytes of a name a loader's own slot has room for.
pub const NAME_ROOM: usize = 48;

/// How many bytes of a name there is room for with the slot that follows.
pub const LONG_NAME_ROOM: usize = 96;

/// How many bytes a loader's name has at most.
pub const NAME_LIMIT: usize = LONG_NAME_ROOM;

/// A name that one slot or two have room for, kept in place.
#[derive(Clone, Copy, Debug)]
pub struct SlotName {
    bytes: [u8; LONG_NAME_ROOM],
    len: usize,
}

impl Model for SlotName {
    ghost use Rattle.std.specs.Prelude.{◌≡◌, ◌≤◌, ◌-◌, ◌++◌, List, ℕ, length, take};
    ghost use Rattle.std.proofs.Common.{ap, sym, ◌∙◌, arith, length-take-le};
    ghost use Rattle.cm_layout.specs.Names.{long_name_room};
    ghost use Rattle.cm_layout.specs.Zeros.{zeros};

    ghost Value = { List ℕ };

    ghost view = { λ n. take n.len n.bytes };

    ghost invariant = { λ n. (n.len ≤ long_name_room) × (length n.bytes ≡ long_name_room)
        × (n.bytes ≡ take n.len n.bytes ++ zeros (long_name_room - n.len)) };

    ghost inverse = { λ name. record {
      bytes = name ++ zeros (long_name_room - length name);
      len = length name;
    } };

    ghost inverse_ok = { λ n h i.
        let fits = length-take-le n.len n.bytes (omega (arith, h.0, h.1)) in record {
          bytes =
              (ap (λ len. take n.len n.bytes ++ zeros (long_name_room - len)) fits ∙ sym h.2) i;
          len = fits i;
        } };
}

impl SlotName {
    /// The name of these bytes, or `None` if two slots have no room for them.
    pub fn new(bytes: &[u8]) -> Option<SlotName>
        ensures fits { IsSome result ↔ (length bytes.now ≤ long_name_room) }
        ensures value { IfSome result (λ n. n ≡ bytes.now) }
    {
        if bytes.len() > LONG_NAME_ROOM {
            return None;
        }
        let mut kept = [0; LONG_NAME_ROOM];
        kept[..bytes.len()].copy_from_slice(bytes);
        Some(SlotName {
            bytes: kept,
            len: bytes.len(),
        })
    }

    /// The name's bytes.
    pub fn as_bytes(&self) -> &[u8]
        ensures value { result.now ≡ self.now }
        ensures fits { length self.now ≤ long_name_room }
    {
        &self.bytes[..self.len]
    }

    /// Whether the name continues in the slot after its loader's.
    pub fn is_long(&self) -> bool
        ensures { result ≡ is_long_name self.now }
    {
        self.as_bytes().len() > NAME_ROOM
    }

    /// How many slots a loader of this name takes.
    pub fn slots(&self) -> usize
        ensures { result ≡ slots_of_name self.now }
    {
        slots_of_name(self.as_bytes())
    }

    /// As much of the name as its loader's own slot has room for, and zeros after a shorter one.
    pub(crate) fn front(&self) -> &[u8]
        ensures bytes { result.now ≡ take name_room (padded self.now) }
        ensures count { length result.now ≡ name_room }
    {
        &self.bytes[..NAME_ROOM]
    }

    /// The part of the name in the continuation slot, with zeros after it up to the room there.
    pub(crate) fn rest(&self) -> &[u8]
        ensures bytes { result.now ≡ drop name_room (padded self.now) }
        ensures count { length result.now ≡ long_name_room - name_room }
    {
        &self.bytes[NAME_ROOM..]
    }
}

/// How many slots a loader of this name takes: a name that its own slot has no room for continues
/// in one more.
pub fn slots_of_name(name: &[u8]) -> usize
    ensures { result ≡ slots_of_name name.now }
{
    if name.len() > NAME_ROOM { 2 } else { 1 }
}

/// How many bytes a loader's name has at most in entries of this version: version 1 has no
/// continuation slots.
pub(crate) fn name_limit_of(version: u16) -> usize
    ensures { result ≡ limit_of version }
{
    if version == OLDEST_VERSION {
        NAME_ROOM
    } else {
        NAME_LIMIT
    }
}

/// Whether each byte is a visible character of ASCII.
fn are_visible(bytes: &[u8]) -> bool
    ensures { result ≡ list_all is_visible bytes.now }
{
    bytes.iter().all(|byte| *byte >= 0x21 && *byte <= 0x7E)
}

/// Whether these bytes are a loader's name: 1 to 96 of them, each from 21 to 7E (hexadecimal).
pub fn is_loader_name(name: &[u8]) -> bool
    ensures { result ≡ is_loader_name name.now }
{
    !name.is_empty() && name.len() <= NAME_LIMIT && are_visible(name)
}

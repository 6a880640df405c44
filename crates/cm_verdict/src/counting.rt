//! Which half of the journal counts.

ghost use Rattle.std.specs.Prelude.{◌≡◌, Some, IfOk};
ghost use Rattle.cm_layout.specs.Frames.{IsGoodHead};
ghost use Rattle.cm_verdict.specs.Faults.{at_slot as at_slot_of};
ghost use Rattle.cm_verdict.specs.Found.{is_good_head as is_good_head_of};
ghost use Rattle.cm_verdict.specs.Found.{is_version as is_version_of};
ghost use Rattle.cm_verdict.specs.Found.{open_head as open_head_of, which_half as which_half_of};
ghost use Rattle.cm_verdict.specs.Found.{counting_half as counting_half_of};
ghost use Rattle.cm_verdict.specs.Walk.{first_slot as first_slot_of};

use crate::decode::half_head_in;
use crate::fault::{Damage, FileFault};
use cm_layout::{
    ENTRY_VERSION, Half, HalfHead, LAST_NUMBER, OLDEST_VERSION, OPEN_GATE, SLOT_BYTES, row_limit,
};
use cm_pool::Geometry;

/// The half that counts, with its head.
#[derive(Clone, Copy, Debug, PartialEq, Eq)]
pub struct Counting {
    pub half: Half,
    pub head: HalfHead,
}

// Whether entries of this version are read.
fn is_version(version: u16) -> bool
    ensures { result ≡ is_version_of version }
{
    version >= OLDEST_VERSION && version <= ENTRY_VERSION
}

// Whether the head of a half is good.
fn is_good_head(geometry: Geometry, head: &HalfHead) -> bool
    ensures { result ≡ is_good_head_of geometry head.now }
{
    is_version(head.version)
        && head.live as usize <= row_limit(geometry)
        && head.base <= LAST_NUMBER
        && head.epoch >= 1
        && head.epoch <= head.base + u64::from(head.version)
}

// The head of a half, if it is open, by its slot 0.
#[tactic(auto, unfolding(crate::specs::Found::open_head))]
fn open_head(geometry: Geometry, slot: &[u8; SLOT_BYTES]) -> Result<Option<HalfHead>, Damage>
    ensures { result ≡ open_head_of geometry slot.now }
{
    if slot[0] != OPEN_GATE {
        return Ok(None);
    }
    let Some(head) = half_head_in(slot) else {
        return Err(Damage::Head);
    };
    if !is_good_head(geometry, &head) {
        return Err(Damage::Head);
    }
    Ok(Some(head))
}

// The open half of greater epoch.
fn which_half(zero: Option<HalfHead>, one: Option<HalfHead>) -> Result<Counting, Damage>
    ensures { result ≡ which_half_of zero one }
{
    match zero {
        None => match one {
            None => Err(Damage::Halves),
            Some(head) => Ok(Counting {
                half: Half::One,
                head,
            }),
        },
        Some(head) => match one {
            None => Ok(Counting {
                half: Half::Zero,
                head,
            }),
            Some(other) => later_half(head, other),
        },
    }
}

// Of two open halves, the one of greater epoch.
fn later_half(zero: HalfHead, one: HalfHead) -> Result<Counting, Damage>
    ensures { result ≡ which_half_of (Some zero) (Some one) }
{
    if zero.epoch == one.epoch {
        return Err(Damage::Halves);
    }
    if one.epoch < zero.epoch {
        return Ok(Counting {
            half: Half::Zero,
            head: zero,
        });
    }
    Ok(Counting {
        half: Half::One,
        head: one,
    })
}

// A damage, with the slot where it was found.
fn at_slot<T>(slot: u32, found: Result<T, Damage>) -> Result<T, FileFault>
    ensures { result ≡ at_slot_of slot found }
{
    match found {
        Ok(value) => Ok(value),
        Err(what) => Err(FileFault::Damaged { what, slot }),
    }
}

// The half that counts, by slot 0 of both halves.
fn chosen_half(
    geometry: Geometry,
    head_0: &[u8; SLOT_BYTES],
    head_1: &[u8; SLOT_BYTES],
) -> Result<Counting, FileFault>
    ensures { result ≡ counting_half_of geometry head_0.now head_1.now }
{
    let zero = at_slot(0, open_head(geometry, head_0))?;
    let one = at_slot(geometry.slots(), open_head(geometry, head_1))?;
    at_slot(0, which_half(zero, one))
}

/// The half that counts, by slot 0 of both halves: the open one of greater epoch. The head of each
/// open half has to be good; that of half 0 is checked first. If none is open, or both have the
/// same epoch, no half counts.
pub fn counting_half(
    geometry: Geometry,
    head_0: &[u8; SLOT_BYTES],
    head_1: &[u8; SLOT_BYTES],
) -> Result<Counting, FileFault>
    ensures found { result ≡ counting_half_of geometry head_0.now head_1.now }
    ensures good { IfOk result (λ c. IsGoodHead geometry c.head) }
{
    chosen_half(geometry, head_0, head_1)
}

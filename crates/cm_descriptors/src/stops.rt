//! The first byte that ends a name, searched for in many bytes at a time.
ghost use Rattle.std.specs.Prelude.{◌≡◌, ◌+◌, ◌≤◌, not, length, take, drop};
ghost use Rattle.std.specs.List.{prefix_len};
ghost use Rattle.cm_descriptors.specs.Marks.{is_no_stop, first_set};

use std::simd::prelude::*;

const LANES: usize = 16;

/// The place of the lowest bit that is set, or the number of lanes.
#[inline(always)]
fn first_set(mask: u64, lanes: usize) -> usize
    ensures { result ≡ first_set mask lanes }
{
    if mask == 0 {
        lanes
    } else {
        mask.trailing_zeros() as usize
    }
}

/// How many of the sixteen bytes from a place are before the first `.`, `;` or `[`.
#[inline(always)]
fn run_of_sixteen(bytes: &[u8], at: usize) -> usize
    requires { at + LANES ≤ length bytes.now }
    ensures { result ≡ prefix_len is_no_stop (take 16 (drop at bytes.now)) }
{
    let lanes = u8x16::from_slice(&bytes[at..]);
    let stop = lanes.simd_eq(u8x16::splat(b'.'))
        | lanes.simd_eq(u8x16::splat(b';'))
        | lanes.simd_eq(u8x16::splat(b'['));
    first_set(stop.to_bitmask(), LANES)
}

/// The place of the first stop among sixteen bytes or more. The last sixteen may overlap with
/// others.
fn first_stop_of_many(bytes: &[u8]) -> usize
    requires { LANES ≤ length bytes.now }
    ensures { result ≡ prefix_len is_no_stop bytes.now }
{
    for place in 0..bytes.len() / LANES {
        let run = run_of_sixteen(bytes, LANES * place);
        if run < LANES {
            return LANES * place + run;
        }
    }
    let at = bytes.len() - LANES;
    at + run_of_sixteen(bytes, at)
}

/// Whether a byte is a `.`, a `;` or a `[`.
fn is_stop(byte: u8) -> bool
    ensures { not result ≡ is_no_stop byte }
{
    matches!(byte, b'.' | b';' | b'[')
}

/// The place of the first stop among a few bytes, one by one.
fn first_stop_of_few(bytes: &[u8]) -> usize
    ensures { result ≡ prefix_len is_no_stop bytes.now }
{
    for (place, byte) in bytes.iter().enumerate() {
        if is_stop(*byte) {
            return place;
        }
    }
    bytes.len()
}

/// The place of the first `.`, `;` or `[`; the number of bytes if there is none.
pub(crate) fn first_stop(bytes: &[u8]) -> usize
    ensures { result ≡ prefix_len is_no_stop bytes.now }
{
    if bytes.len() >= LANES {
        first_stop_of_many(bytes)
    } else {
        first_stop_of_few(bytes)
    }
}

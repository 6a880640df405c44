//! Whether names joined by `/` are a class name, checked for many bytes at a time.
ghost use Rattle.std.specs.Prelude.{◌≡◌, ◌+◌, ◌≤◌, true, length, take, drop};
ghost use Rattle.std.specs.List.{list_all};
ghost use Rattle.cm_descriptors.specs.Forms.{is_class_name};
ghost use Rattle.cm_descriptors.specs.Marks.{is_no_stop, not_both_slashes, neighbours};

use crate::names::are_joined_names;
use std::simd::prelude::*;

const LANES: usize = 16;

/// Sixteen bytes, and the byte after each.
const SPAN: usize = 17;

/// Eight bytes, and the byte after each.
const HALF_SPAN: usize = 9;

/// Whether no two slashes are adjacent among the seventeen bytes from a place.
#[inline(always)]
fn seventeen_are_apart(bytes: &[u8], at: usize) -> bool
    requires { at + SPAN ≤ length bytes.now }
    ensures { result ≡ list_all not_both_slashes (take 16 (drop at (neighbours bytes.now))) }
{
    let slashes = u8x16::from_slice(&bytes[at..]).simd_eq(u8x16::splat(b'/'));
    let behind = u8x16::from_slice(&bytes[at + 1..]).simd_eq(u8x16::splat(b'/'));
    (slashes & behind).to_bitmask() == 0
}

/// Whether no two slashes are adjacent among the nine bytes from a place.
#[inline(always)]
fn nine_are_apart(bytes: &[u8], at: usize) -> bool
    requires { at + HALF_SPAN ≤ length bytes.now }
    ensures { result ≡ list_all not_both_slashes (take 8 (drop at (neighbours bytes.now))) }
{
    let slashes = u8x8::from_slice(&bytes[at..]).simd_eq(u8x8::splat(b'/'));
    let behind = u8x8::from_slice(&bytes[at + 1..]).simd_eq(u8x8::splat(b'/'));
    (slashes & behind).to_bitmask() == 0
}

/// Whether no two slashes are adjacent in seventeen bytes or more. The last seventeen may overlap
/// with others.
fn many_are_apart(bytes: &[u8]) -> bool
    requires { SPAN ≤ length bytes.now }
    ensures { result ≡ list_all not_both_slashes (neighbours bytes.now) }
{
    let mut apart = seventeen_are_apart(bytes, bytes.len() - SPAN);
    for place in 0..(bytes.len() - 2) / LANES {
        apart &= seventeen_are_apart(bytes, LANES * place);
    }
    apart
}

/// Whether no two slashes are adjacent in nine bytes or more.
fn slashes_are_apart(bytes: &[u8]) -> bool
    requires { HALF_SPAN ≤ length bytes.now }
    ensures { result ≡ list_all not_both_slashes (neighbours bytes.now) }
{
    if bytes.len() >= SPAN {
        many_are_apart(bytes)
    } else {
        nine_are_apart(bytes, 0) & nine_are_apart(bytes, bytes.len() - HALF_SPAN)
    }
}

/// Whether bytes with no `.`, `;` or `[` are a class name: a slash is neither the first nor the
/// last of them, and no two are adjacent.
pub(crate) fn are_names(bytes: &[u8]) -> bool
    requires { list_all is_no_stop bytes.now ≡ true }
    ensures { result ≡ is_class_name bytes.now }
{
    if bytes.len() < HALF_SPAN {
        return are_joined_names(bytes);
    }
    (bytes[0] != b'/') & (bytes[bytes.len() - 1] != b'/') & slashes_are_apart(bytes)
}

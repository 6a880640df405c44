//! Which kinds of bytes are among some bytes, checked many bytes at a time.
ghost use Rattle.std.specs.Prelude.{◌≡◌, ◌+◌, ◌≤◌, [], ◌∷◌, length, take, drop};
ghost use Rattle.cm_descriptors.specs.Marks.{marks_of, both_marks};

use std::simd::prelude::*;

const LANES: usize = 16;

const HALF_LANES: usize = 8;

/// Which kinds of bytes don't occur among some bytes.
#[derive(Clone, Copy, Debug)]
pub(crate) struct ByteMarks {
    /// Each byte is a character by itself.
    pub(crate) plain: bool,
    pub(crate) no_slash: bool,
    /// No `.`, `;` or `[`.
    pub(crate) no_stop: bool,
    /// No `<` and no `>`.
    pub(crate) no_angle: bool,
}

impl ByteMarks {
    /// The marks of these bytes and of others together.
    #[inline(always)]
    #[tactic(auto, unfolding(crate::specs::Marks::both_marks))]
    fn and(self, other: ByteMarks) -> ByteMarks
        ensures { result ≡ both_marks self other }
    {
        ByteMarks {
            plain: self.plain & other.plain,
            no_slash: self.no_slash & other.no_slash,
            no_stop: self.no_stop & other.no_stop,
            no_angle: self.no_angle & other.no_angle,
        }
    }
}

/// The marks of the sixteen bytes from a place.
#[inline(always)]
#[tactic(auto, unfolding(crate::specs::Marks::marks_of))]
fn marks_of_sixteen(bytes: &[u8], at: usize) -> ByteMarks
    requires { at + LANES ≤ length bytes.now }
    ensures { result ≡ marks_of (take 16 (drop at bytes.now)) }
{
    let lanes = u8x16::from_slice(&bytes[at..]);
    let odd = lanes.simd_eq(u8x16::splat(0)) | lanes.simd_gt(u8x16::splat(0x7f));
    let slash = lanes.simd_eq(u8x16::splat(b'/'));
    let stop = lanes.simd_eq(u8x16::splat(b'.'))
        | lanes.simd_eq(u8x16::splat(b';'))
        | lanes.simd_eq(u8x16::splat(b'['));
    let angle = lanes.simd_eq(u8x16::splat(b'<')) | lanes.simd_eq(u8x16::splat(b'>'));
    ByteMarks {
        plain: odd.to_bitmask() == 0,
        no_slash: slash.to_bitmask() == 0,
        no_stop: stop.to_bitmask() == 0,
        no_angle: angle.to_bitmask() == 0,
    }
}

/// The marks of the eight bytes from a place.
#[inline(always)]
#[tactic(auto, unfolding(crate::specs::Marks::marks_of))]
fn marks_of_eight(bytes: &[u8], at: usize) -> ByteMarks
    requires { at + HALF_LANES ≤ length bytes.now }
    ensures { result ≡ marks_of (take 8 (drop at bytes.now)) }
{
    let lanes = u8x8::from_slice(&bytes[at..]);
    let odd = lanes.simd_eq(u8x8::splat(0)) | lanes.simd_gt(u8x8::splat(0x7f));
    let slash = lanes.simd_eq(u8x8::splat(b'/'));
    let stop = lanes.simd_eq(u8x8::splat(b'.'))
        | lanes.simd_eq(u8x8::splat(b';'))
        | lanes.simd_eq(u8x8::splat(b'['));
    let angle = lanes.simd_eq(u8x8::splat(b'<')) | lanes.simd_eq(u8x8::splat(b'>'));
    ByteMarks {
        plain: odd.to_bitmask() == 0,
        no_slash: slash.to_bitmask() == 0,
        no_stop: stop.to_bitmask() == 0,
        no_angle: angle.to_bitmask() == 0,
    }
}

#[tactic(auto, unfolding(crate::specs::Marks::marks_of))]
fn marks_of_byte(byte: u8) -> ByteMarks
    ensures { result ≡ marks_of (byte ∷ []) }
{
    ByteMarks {
        plain: (byte >= 0x01) & (byte <= 0x7f),
        no_slash: byte != b'/',
        no_stop: (byte != b'.') & (byte != b';') & (byte != b'['),
        no_angle: (byte != b'<') & (byte != b'>'),
    }
}

/// The marks of a few bytes, one by one.
fn marks_of_few(bytes: &[u8]) -> ByteMarks
    ensures { result ≡ marks_of bytes.now }
{
    let mut marks = ByteMarks {
        plain: true,
        no_slash: true,
        no_stop: true,
        no_angle: true,
    };
    for byte in bytes {
        marks = marks.and(marks_of_byte(*byte));
    }
    marks
}

/// The marks of sixteen bytes or more. The last sixteen may overlap with others.
fn marks_of_many(bytes: &[u8]) -> ByteMarks
    requires { LANES ≤ length bytes.now }
    ensures { result ≡ marks_of bytes.now }
{
    let mut marks = marks_of_sixteen(bytes, bytes.len() - LANES);
    for place in 0..(bytes.len() - 1) / LANES {
        marks = marks.and(marks_of_sixteen(bytes, LANES * place));
    }
    marks
}

/// Which kinds of bytes don't occur among these.
pub(crate) fn marks_of(bytes: &[u8]) -> ByteMarks
    ensures { result ≡ marks_of bytes.now }
{
    if bytes.len() >= LANES {
        marks_of_many(bytes)
    } else if bytes.len() >= HALF_LANES {
        marks_of_eight(bytes, 0).and(marks_of_eight(bytes, bytes.len() - HALF_LANES))
    } else {
        marks_of_few(bytes)
    }
}

//! Readers of numbers and of lists of bytes, big-endian. Each returns what it read and the bytes
//! that are left.
ghost use Rattle.std.specs.Prelude.{◌≡◌, ◌<◌, ◌≤◌, ◌*◌, ℕ, length, IfOk};
ghost use Rattle.cm_class.specs.Spelling.{heading};
ghost use Rattle.cm_class.specs.Reading.{GivesExactly, number_at, byte_at, bytes_at, sized_at};
ghost use Rattle.cm_class.specs.Reading.{literal_at, expected_at, count_at};

use crate::stop::Stop;
use byteorder::{BigEndian, ByteOrder};

/// The magic number, minor version 0 and major version 52 (JVMS 4.1).
pub const HEADING: [u8; 8] = [0xCA, 0xFE, 0xBA, 0xBE, 0, 0, 0, 52];

pub(crate) fn read_u8(bytes: &[u8]) -> Result<(u8, &[u8]), Stop>
    ensures { GivesExactly (λ x. (x.0, x.1.now)) result (byte_at bytes.now) }
{
    match bytes {
        [] => Err(Stop::Short),
        [byte, rest @ ..] => Ok((*byte, rest)),
    }
}

pub(crate) fn read_u16(bytes: &[u8]) -> Result<(u16, &[u8]), Stop>
    ensures { GivesExactly (λ x. (x.0, x.1.now)) result (number_at 2 bytes.now) }
{
    if bytes.len() < 2 {
        return Err(Stop::Short);
    }
    Ok((BigEndian::read_u16(bytes), &bytes[2..]))
}

pub(crate) fn read_u32(bytes: &[u8]) -> Result<(u32, &[u8]), Stop>
    ensures { GivesExactly (λ x. (x.0, x.1.now)) result (number_at 4 bytes.now) }
{
    if bytes.len() < 4 {
        return Err(Stop::Short);
    }
    Ok((BigEndian::read_u32(bytes), &bytes[4..]))
}

pub(crate) fn read_u64(bytes: &[u8]) -> Result<(u64, &[u8]), Stop>
    ensures { GivesExactly (λ x. (x.0, x.1.now)) result (number_at 8 bytes.now) }
{
    if bytes.len() < 8 {
        return Err(Stop::Short);
    }
    Ok((BigEndian::read_u64(bytes), &bytes[8..]))
}

/// How many items to make room for, given their count and how many bytes each item takes at least:
/// no more items than the bytes can spell, so that a false count doesn't reserve memory.
pub(crate) fn room_for(count: u16, least: usize, bytes: &[u8]) -> usize
    requires { 0 < least }
    ensures within { result ≤ count }
    ensures there { result * least ≤ length bytes.now }
    ensures all { (n : ℕ) → n ≤ count → n * least ≤ length bytes.now → n ≤ result }
{
    usize::from(count).min(bytes.len() / least)
}

/// The first `len` bytes, and those after them.
fn front(len: usize, bytes: &[u8]) -> Result<(&[u8], &[u8]), Stop>
    ensures { GivesExactly (λ x. (x.0.now, x.1.now)) result (bytes_at len bytes.now) }
{
    if bytes.len() < len {
        return Err(Stop::Short);
    }
    Ok(bytes.split_at(len))
}

/// A Utf8: bytes preceded by their length in two bytes.
#[tactic(auto, unfolding(crate::specs::Reading::sized_at))]
pub(crate) fn read_utf8(bytes: &[u8]) -> Result<(&[u8], &[u8]), Stop>
    ensures { GivesExactly (λ x. (x.0.now, x.1.now)) result (sized_at 2 bytes.now) }
{
    let (len, rest) = read_u16(bytes)?;
    front(usize::from(len), rest)
}

/// Bytes preceded by their length in four bytes.
#[tactic(auto, unfolding(crate::specs::Reading::sized_at))]
pub(crate) fn content(bytes: &[u8]) -> Result<(&[u8], &[u8]), Stop>
    ensures { GivesExactly (λ x. (x.0.now, x.1.now)) result (sized_at 4 bytes.now) }
{
    let (len, rest) = read_u32(bytes)?;
    front(len as usize, rest)
}

/// What follows this one byte.
fn skip_byte(expected: u8, bytes: &[u8]) -> Result<&[u8], Stop>
    ensures { GivesExactly (λ x. (tt, x.now)) result (literal_at expected bytes.now) }
{
    match bytes {
        [] => Err(Stop::Short),
        [byte, rest @ ..] if *byte == expected => Ok(rest),
        _ => Err(Stop::Bad(bytes.len())),
    }
}

/// What follows the heading.
pub(crate) fn skip_heading(bytes: &[u8]) -> Result<&[u8], Stop>
    ensures { GivesExactly (λ x. (tt, x.now)) result (expected_at heading bytes.now) }
{
    let mut rest = bytes;
    for expected in &HEADING {
        rest = skip_byte(*expected, rest)?;
    }
    Ok(rest)
}

/// The count of the pool, which is one more than its last index. A count of 0 has no spelling.
#[tactic(auto, unfolding(crate::specs::Reading::count_at))]
pub(crate) fn pool_count(bytes: &[u8]) -> Result<(u16, &[u8]), Stop>
    ensures count { GivesExactly (λ x. (x.0, x.1.now)) result (count_at bytes.now) }
    ensures positive { IfOk result (λ x. 0 < x.0) }
{
    let (count, rest) = read_u16(bytes)?;
    if count == 0 {
        return Err(Stop::Bad(rest.len() + 1));
    }
    Ok((count, rest))
}

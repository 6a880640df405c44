//! Class names in scripts: bytes 0x21 to 0x7E except `%` as they are, and each other byte as `%`
//! and two hexadecimal digits.

ghost use Rattle.std.specs.Prelude.{◌≡◌, ◌++◌, ◌<◌, OnOk, ◌∷◌, ℕ, List, IfOk, IfErr, IfSome};
ghost use Rattle.std.specs.Prelude.{IsErrOf, Some, None};
ghost use Rattle.cm_lines.specs.Escapes.{named_by, IsDigitAwaited, IsDigitRead, spelled_from};
ghost use Rattle.cm_lines.specs.Escapes.{spelled_after, is_plain, escaped, unescaped, escaped_byte};
ghost use Rattle.cm_lines.specs.Escapes.{digit_value, upper_digit};

use std::alloc::{AllocError, Global};
use thiserror::Error;

/// Why a word is no class name.
#[derive(Clone, Copy, Debug, PartialEq, Eq, Error)]
pub enum NameFault {
    /// It isn't the one spelling of a name.
    #[error("not the spelling of a name")]
    BadEscape,
    /// An allocation failed.
    #[error("out of memory")]
    NoMemory,
}

/// Whether a byte stands for itself.
fn is_plain_byte(byte: u8) -> bool
    ensures { result ≡ is_plain byte }
{
    byte >= 0x21 && byte <= 0x7E && byte != b'%'
}

/// The value of a hexadecimal digit, in either case.
fn value_of_digit(digit: u8) -> Option<u8>
    ensures value { result ≡ digit_value digit }
    ensures small { IfSome result (λ v. v < 16) }
{
    match digit {
        b'0'..=b'9' => Some(digit - b'0'),
        b'A'..=b'F' => Some(digit - b'A' + 10),
        b'a'..=b'f' => Some(digit - b'a' + 10),
        _ => None,
    }
}

/// The digit of a value below 16, upper case.
fn digit_of_value(value: u8) -> u8
    requires { value < 16 }
    ensures { result ≡ upper_digit value }
{
    if value < 10 {
        b'0' + value
    } else {
        b'A' + (value - 10)
    }
}

/// Appends a name's spelling. After an `Err`, if an allocation failed, a part of it may have been
/// appended.
pub fn escape_into(out: &mut Vec<u8>, name: &[u8]) -> Result<(), AllocError>
    ensures ok { OnOk result (out.new.items ≡ out.old.items ++ escaped name.now) }
{
    for byte in name {
        escape_byte_into(out, *byte)?;
    }
    Ok(())
}

fn escape_byte_into(out: &mut Vec<u8>, byte: u8) -> Result<(), AllocError>
    ensures { OnOk result (out.new.items ≡ out.old.items ++ escaped_byte byte) }
{
    if is_plain_byte(byte) {
        out.push(byte)?;
    } else {
        out.extend_from_slice(&[b'%', digit_of_value(byte / 16), digit_of_value(byte % 16)])?;
    }
    Ok(())
}

/// What is read next in a spelling.
#[derive(Clone, Copy, Debug, PartialEq, Eq)]
enum Awaited {
    /// A byte that stands for itself, or a `%`.
    Any,
    /// The first digit after a `%`.
    High,
    /// The second digit, after one of this value.
    Low(u8),
}

/// The name that a word spells. `BadEscape` is returned exactly if it spells none.
pub fn unescape(alloc: Global, word: &[u8]) -> Result<Vec<u8>, NameFault>
    ensures name { IfOk result (λ name. unescaped word.now ≡ Some name.items) }
    ensures bad { IsErrOf result NameFault.BadEscape → unescaped word.now ≡ None }
{
    let mut name = Vec::new(alloc);
    let mut awaited = Awaited::Any;
    for byte in word {
        match advance(&mut name, awaited, *byte) {
            Ok(next) => awaited = next,
            Err(fault) => return Err(fault),
        }
    }
    if awaited == Awaited::Any {
        Ok(name)
    } else {
        Err(NameFault::BadEscape)
    }
}

fn advance(name: &mut Vec<u8>, awaited: Awaited, byte: u8) -> Result<Awaited, NameFault>
    requires { IsDigitAwaited awaited }
    ensures spelled { IfOk result
        (λ next. (text : List ℕ)
        → named_by name.new.items (spelled_from next text)
        ≡ named_by name.old.items (spelled_from awaited (byte ∷ text))) }
    ensures digit { IfOk result IsDigitAwaited }
    ensures bad { IsErrOf result NameFault.BadEscape → (text : List ℕ)
        → spelled_from awaited (byte ∷ text) ≡ None }
{
    match read_byte(awaited, byte) {
        Ok(Read::Awaits(next)) => Ok(next),
        Ok(Read::Byte(value)) => match name.push(value) {
            Ok(()) => Ok(Awaited::Any),
            Err(_) => Err(NameFault::NoMemory),
        },
        Err(fault) => Err(fault),
    }
}

/// What one byte of a spelling means.
enum Read {
    Awaits(Awaited),
    Byte(u8),
}

fn read_byte(awaited: Awaited, byte: u8) -> Result<Read, NameFault>
    requires { IsDigitAwaited awaited }
    ensures spelled { (text : List ℕ)
        → spelled_from awaited (byte ∷ text) ≡ spelled_after result text }
    ensures digit { IfOk result IsDigitRead }
    ensures refused { IfErr result (λ e. e ≡ NameFault.BadEscape) }
{
    match awaited {
        Awaited::Any if is_plain_byte(byte) => Ok(Read::Byte(byte)),
        Awaited::Any if byte == b'%' => Ok(Read::Awaits(Awaited::High)),
        Awaited::Any => Err(NameFault::BadEscape),
        Awaited::High => match value_of_digit(byte) {
            Some(value) => Ok(Read::Awaits(Awaited::Low(value))),
            None => Err(NameFault::BadEscape),
        },
        Awaited::Low(high) => match value_of_digit(byte) {
            Some(low) if !is_plain_byte(16 * high + low) => Ok(Read::Byte(16 * high + low)),
            _ => Err(NameFault::BadEscape),
        },
    }
}

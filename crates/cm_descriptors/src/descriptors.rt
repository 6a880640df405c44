//! Descriptors of fields and methods.
ghost use Rattle.std.specs.Prelude.{◌≡◌, true, [], ◌∷◌, IfSome, IfNone, length, option_copied};
ghost use Rattle.std.specs.Prelude.{option_map};
ghost use Rattle.cm_descriptors.specs.Forms.{is_base_type, after_class, after_field};
ghost use Rattle.cm_descriptors.specs.Forms.{is_field_descriptor};
ghost use Rattle.cm_descriptors.specs.Forms.{begins_with, units_of_first, parameters};
ghost use Rattle.cm_descriptors.specs.Forms.{is_return_descriptor, method_units, ends_in_void};

use crate::joined::are_names;
use crate::stops::first_stop;

/// The most dimensions of an array (JVMS 4.4.1).
const MAX_DIMENSIONS: usize = 255;

/// B C D F I J S Z
fn is_base_type(byte: u8) -> bool
    ensures { result ≡ is_base_type byte }
{
    matches!(byte, b'B' | b'C' | b'D' | b'F' | b'I' | b'J' | b'S' | b'Z')
}

/// The first byte, and the bytes after it.
pub fn first(bytes: &[u8]) -> Option<(u8, &[u8])>
    ensures some { IfSome result (λ x. bytes.now ≡ x.0 ∷ x.1.now) }
    ensures none { IfNone result (bytes.now ≡ []) }
{
    match bytes {
        [] => None,
        [byte, rest @ ..] => Some((*byte, rest)),
    }
}

/// The bytes after a class name and its `;`.
fn skip_class_name(bytes: &[u8]) -> Option<&[u8]>
    ensures { option_copied result ≡ after_class true bytes.now }
{
    let (name, rest) = bytes.split_at(first_stop(bytes));
    let (byte, behind) = first(rest)?;
    if byte == b';' && are_names(name) {
        Some(behind)
    } else {
        None
    }
}

/// The bytes after a field descriptor that is no array.
#[tactic(auto, unfolding(crate::specs::Forms::after_field))]
fn skip_element(bytes: &[u8]) -> Option<&[u8]>
    ensures { option_copied result ≡ after_field 0 bytes.now }
{
    let (byte, rest) = first(bytes)?;
    if byte == b'L' {
        skip_class_name(rest)
    } else if is_base_type(byte) {
        Some(rest)
    } else {
        None
    }
}

/// The bytes after a field descriptor (JVMS 4.3.2), of at most 255 dimensions.
fn skip_field(bytes: &[u8]) -> Option<&[u8]>
    ensures { option_copied result ≡ after_field 255 bytes.now }
{
    let mut rest = bytes;
    for _ in 0..MAX_DIMENSIONS {
        let (byte, inner) = first(rest)?;
        if byte != b'[' {
            return skip_element(rest);
        }
        rest = inner;
    }
    skip_element(rest)
}

/// Whether the bytes are a field descriptor (JVMS 4.3.2).
#[tactic(auto, unfolding(crate::specs::Forms::is_field_descriptor))]
pub fn is_field_descriptor(bytes: &[u8]) -> bool
    ensures { result ≡ is_field_descriptor bytes.now }
{
    match skip_field(bytes) {
        Some(rest) => rest.is_empty(),
        None => false,
    }
}

/// Whether there are bytes, and the first is this one.
pub fn begins_with(byte: u8, bytes: &[u8]) -> bool
    ensures { result ≡ begins_with byte bytes.now }
{
    match bytes {
        [first, ..] => *first == byte,
        [] => false,
    }
}

/// A long or a double takes two units, everything else one.
fn units_of_first(bytes: &[u8]) -> usize
    ensures { result ≡ units_of_first bytes.now }
{
    if begins_with(b'D', bytes) || begins_with(b'J', bytes) {
        2
    } else {
        1
    }
}

/// The units of the parameters up to `)`, and the bytes after it.
fn parameters(bytes: &[u8]) -> Option<(usize, &[u8])>
    ensures { option_map (λ x. (x.0, x.1.now)) result ≡ parameters (length bytes.now) bytes.now }
{
    let mut units = 0;
    let mut rest = bytes;
    for _ in 0..bytes.len() {
        let (byte, behind) = first(rest)?;
        if byte == b')' {
            return Some((units, behind));
        }
        units += units_of_first(rest);
        rest = skip_field(rest)?;
    }
    None
}

/// Whether the bytes are `V` or a field descriptor, with nothing after it.
fn is_return_descriptor(bytes: &[u8]) -> bool
    ensures { result ≡ is_return_descriptor bytes.now }
{
    bytes == b"V".as_slice() || is_field_descriptor(bytes)
}

/// The units of a method descriptor's parameters (JVMS 4.3.3), at most 255; `None` if the bytes are
/// no method descriptor.
#[tactic(auto, unfolding(crate::specs::Forms::method_units))]
pub fn method_units(bytes: &[u8]) -> Option<u8>
    ensures { result ≡ method_units bytes.now }
{
    let (byte, rest) = first(bytes)?;
    if byte != b'(' {
        return None;
    }
    let (units, rest) = parameters(rest)?;
    if is_return_descriptor(rest) && units <= 255 {
        Some(units as u8)
    } else {
        None
    }
}

/// Whether a method descriptor returns nothing.
pub fn ends_in_void(bytes: &[u8]) -> bool
    ensures { result ≡ ends_in_void bytes.now }
{
    match bytes.last() {
        Some(byte) => *byte == b'V',
        None => false,
    }
}

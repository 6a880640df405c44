//! Numbers in an attribute's content. Each reader returns what it read and the bytes after it.
ghost use Rattle.std.specs.Prelude.{◌≡◌, option_copied, option_map};
ghost use Rattle.cm_attributes.specs.Contents.{u2_of, u4_of, past, is_whole};

/// A number of two bytes.
pub fn read_u2(bytes: &[u8]) -> Option<(u16, &[u8])>
    ensures { option_map (λ x. (x.0, x.1.now)) result ≡ u2_of bytes.now }
{
    match bytes {
        [high, low, rest @ ..] => Some((u16::from_be_bytes([*high, *low]), rest)),
        _ => None,
    }
}

/// A number of four bytes.
pub fn read_u4(bytes: &[u8]) -> Option<(u32, &[u8])>
    ensures { option_map (λ x. (x.0, x.1.now)) result ≡ u4_of bytes.now }
{
    match bytes {
        [a, b, c, d, rest @ ..] => Some((u32::from_be_bytes([*a, *b, *c, *d]), rest)),
        _ => None,
    }
}

/// The bytes after the first `len`.
pub fn skip(len: usize, bytes: &[u8]) -> Option<&[u8]>
    ensures { option_copied result ≡ past len bytes.now }
{
    if bytes.len() < len {
        return None;
    }
    Some(bytes.split_at(len).1)
}

/// Whether everything was read, and nothing is left.
pub fn is_whole(rest: Option<&[u8]>) -> bool
    ensures { result ≡ is_whole (option_copied rest.entry) }
{
    match rest {
        Some(rest) => rest.is_empty(),
        None => false,
    }
}

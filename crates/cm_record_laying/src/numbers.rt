//! The numbers and bytes that bytes begin with. Each reader returns `None` if there are too few.
ghost use Rattle.std.specs.Prelude.{◌≡◌, ◌<◌, ◌^◌, ◌++◌, length, IfSome};
ghost use Rattle.cm_class.specs.Spelling.{u1, u2, u4, u8, AreBytes};

pub(crate) fn read_u8(bytes: &[u8]) -> Option<(u8, &[u8])>
    ensures { IfSome result (λ x. (bytes.now ≡ u1 x.0 ++ x.1.now) × (x.0 < 2 ^ 8)) }
{
    let (byte, rest) = bytes.split_first()?;
    Some((*byte, rest))
}

pub(crate) fn read_u16(bytes: &[u8]) -> Option<(u16, &[u8])>
    ensures { IfSome result (λ x. (bytes.now ≡ u2 x.0 ++ x.1.now) × (x.0 < 2 ^ 16)) }
{
    let (two, rest) = bytes.split_first_chunk::<2>()?;
    Some((u16::from_be_bytes(*two), rest))
}

pub(crate) fn read_u32(bytes: &[u8]) -> Option<(u32, &[u8])>
    ensures { IfSome result (λ x. (bytes.now ≡ u4 x.0 ++ x.1.now) × (x.0 < 2 ^ 32)) }
{
    let (four, rest) = bytes.split_first_chunk::<4>()?;
    Some((u32::from_be_bytes(*four), rest))
}

pub(crate) fn read_u64(bytes: &[u8]) -> Option<(u64, &[u8])>
    ensures { IfSome result (λ x. (bytes.now ≡ u8 x.0 ++ x.1.now) × (x.0 < 2 ^ 64)) }
{
    let (eight, rest) = bytes.split_first_chunk::<8>()?;
    Some((u64::from_be_bytes(*eight), rest))
}

/// The first `len` bytes, and those after them.
pub(crate) fn read_bytes(len: usize, bytes: &[u8]) -> Option<(&[u8], &[u8])>
    ensures parts { IfSome result (λ x. bytes.now ≡ x.0.now ++ x.1.now) }
    ensures len { IfSome result (λ x. length x.0.now ≡ len) }
    ensures bytes { IfSome result (λ x. AreBytes x.0.now) }
{
    if bytes.len() < len {
        return None;
    }
    Some(bytes.split_at(len))
}

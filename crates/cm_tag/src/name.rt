//! Names of loaders with a tag.

ghost use Rattle.std.specs.Prelude.{◌≡◌, ◌++◌, codes, IfOk, true, drop, length, ◌+◌};
ghost use Rattle.std.specs.List.{list_all};
ghost use Rattle.std.specs.Str.{bytes_eq};
ghost use Rattle.std.specs.String.{string_bytes};
ghost use Rattle.hex.specs.Hex.{encode_lower};
ghost use Rattle.cm_tag.specs.Names.{is_digit, is_tagged};

/// How many digits a tag has.
const DIGITS: usize = 16;

/// Whether each byte is a hexadecimal digit, in lower case.
fn are_digits(bytes: &[u8]) -> bool
    ensures { result ≡ list_all is_digit bytes.now }
{
    bytes
        .iter()
        .all(|byte| matches!(*byte, b'0'..=b'9' | b'a'..=b'f'))
}

/// Whether a loader's name is this one with an `@` and a tag after it.
pub fn is_tagged(name: &[u8], base: &[u8]) -> bool
    ensures { result ≡ is_tagged name.now base.now }
{
    name.len() == base.len() + 1 + DIGITS
        && &name[..base.len()] == base
        && name[base.len()] == b'@'
        && are_digits(&name[base.len() + 1..])
}

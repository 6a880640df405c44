//! Words, numbers and flags, of which replies are made.

ghost use Rattle.std.specs.Prelude.{◌≡◌, ◌++◌, IfOk, OnOk};
ghost use Rattle.std.specs.Fmt.{decimal};
ghost use Rattle.cm_tool.specs.Texts.{flags_text};

use cm_lines::push_number;
use std::alloc::{AllocError, Global};

pub fn text(alloc: Global, bytes: &[u8]) -> Result<Vec<u8>, AllocError>
    ensures { IfOk result (λ text. text.items ≡ bytes.now) }
{
    Vec::from_slice(alloc, bytes)
}

/// A word and a number.
pub fn word_with_number(alloc: Global, word: &[u8], number: u64) -> Result<Vec<u8>, AllocError>
    ensures { IfOk result (λ text. text.items ≡ word.now ++ decimal number) }
{
    let mut line = text(alloc, word)?;
    push_number(&mut line, number)?;
    Ok(line)
}

/// Flags as four hexadecimal digits.
pub fn push_flags(alloc: Global, line: &mut Vec<u8>, flags: u16) -> Result<(), AllocError>
    ensures { OnOk result (line.new.items ≡ line.old.items ++ flags_text flags) }
{
    let digits = hex::encode(alloc, [(flags / 256) as u8, (flags % 256) as u8])?;
    line.extend_from_slice(digits.as_bytes())
}

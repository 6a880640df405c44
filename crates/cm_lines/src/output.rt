//! Writes line by line.

ghost use Rattle.std.specs.Prelude.{◌≡◌, ◌≤◌, [], length, take, IfOk, OnOk, OnErr, IfErr};
ghost use Rattle.std.specs.Io.KnownBytes.{Appends};
ghost use Rattle.cm_lines.specs.Streams.{WritesPart};

use crate::bound::MOST_STEPS;
use crate::fault::LineFault;
use std::io::{ErrorKind, Write};

/// Writes a line, which includes its newline, and flushes the writer. After an `Err`, which is
/// `Output`, a beginning of it is written, or all of it.
pub fn write_line<W: Write>(writer: &mut W, line: &[u8]) -> Result<(), LineFault>
    ensures ok { OnOk result (Appends (W.contents writer.old) (W.contents writer.new) line.now) }
    ensures err { OnErr result
        (WritesPart (W.contents writer.old) (W.contents writer.new) line.now) }
    ensures fault { IfErr result (λ e. e ≡ LineFault.Output) }
{
    write_whole(writer, line)?;
    match writer.flush() {
        Ok(()) => Ok(()),
        Err(_) => Err(LineFault::Output),
    }
}

/// `write_all`, which also says what is written if it fails.
fn write_whole<W: Write>(writer: &mut W, text: &[u8]) -> Result<(), LineFault>
    ensures ok { OnOk result (Appends (W.contents writer.old) (W.contents writer.new) text.now) }
    ensures err { OnErr result
        (WritesPart (W.contents writer.old) (W.contents writer.new) text.now) }
    ensures fault { IfErr result (λ e. e ≡ LineFault.Output) }
{
    let mut rest = text;
    'writes: for _ in 0..MOST_STEPS {
        if rest.is_empty() {
            return Ok(());
        }
        let count = write_some(writer, rest)?;
        let (_, behind) = rest.split_at(count);
        rest = behind;
    }
    Err(LineFault::Output)
}

/// Writes a beginning of the text, or nothing if a signal interrupted it.
fn write_some<W: Write>(writer: &mut W, text: &[u8]) -> Result<usize, LineFault>
    ensures within { IfOk result (λ count. count ≤ length text.now) }
    ensures ok { IfOk result
        (λ count. Appends (W.contents writer.old) (W.contents writer.new) (take count text.now)) }
    ensures err { OnErr result (Appends (W.contents writer.old) (W.contents writer.new) []) }
    ensures fault { IfErr result (λ e. e ≡ LineFault.Output) }
{
    match writer.write(text) {
        Ok(0) => Err(LineFault::Output),
        Ok(count) => Ok(count),
        Err(error) if error.kind() == ErrorKind::Interrupted => Ok(0),
        Err(_) => Err(LineFault::Output),
    }
}

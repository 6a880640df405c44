//! Reads a script line by line.

ghost use Rattle.std.specs.Prelude.{◌≡◌, ◌≢◌, ◌≤◌, ℕ, List, length, take, IfOk, IfErr};
ghost use Rattle.cm_lines.specs.Streams.{IsPiece, TakesPiece, ReadsLine, Grows};

use crate::bound::MOST_STEPS;
use crate::cutting::cut;
use crate::fault::LineFault;
use crate::line_buffer::LineBuffer;
use std::alloc::AllocError;
use std::io::{BufRead, ErrorKind};

/// Where a piece of a line ends.
enum Piece {
    /// At the script's end: there are no more bytes.
    End,
    /// Inside the line.
    More,
    /// At a newline, which is consumed too.
    Newline,
}

/// Reads up to and including the next newline, and returns whether there was a line: the last
/// newline of a script is optional. What `line` held before is dropped.
///
/// `Input` if the reader fails, `NoMemory` if an allocation failed. It is then unspecified how much
/// was consumed.
pub fn read_line<R: BufRead>(reader: &mut R, line: &mut LineBuffer) -> Result<bool, LineFault>
    ensures read { IfOk result
        (ReadsLine (R.remaining reader.old) (R.remaining reader.new) line.new) }
    ensures fault { IfErr result (λ e. e ≢ LineFault.Output) }
{
    line.clear();
    'pieces: for _ in 0..MOST_STEPS {
        match take_piece(reader, line)? {
            Piece::More => {}
            Piece::Newline => return Ok(true),
            Piece::End => return Ok(line.has_bytes()),
        }
    }
    Err(LineFault::Input)
}

/// Takes what the reader has buffered of the line.
fn take_piece<R: BufRead>(reader: &mut R, line: &mut LineBuffer) -> Result<Piece, LineFault>
    ensures piece { IfOk result (λ piece. (bytes : List ℕ)
        × TakesPiece (R.remaining reader.old) (R.remaining reader.new) piece bytes
        × Grows line.old line.new bytes) }
    ensures fault { IfErr result (λ e. e ≢ LineFault.Output) }
{
    let shown = match reader.fill_buf() {
        Ok(shown) => shown,
        Err(error) if error.kind() == ErrorKind::Interrupted => return Ok(Piece::More),
        Err(_) => return Err(LineFault::Input),
    };
    let (count, piece) = match push_shown(line, shown) {
        Ok(pushed) => pushed,
        Err(_) => return Err(LineFault::NoMemory),
    };
    reader.consume(count);
    Ok(piece)
}

/// Adds what precedes the first newline, and returns how many bytes that is with the newline.
fn push_shown(line: &mut LineBuffer, shown: &[u8]) -> Result<(usize, Piece), AllocError>
    ensures within { IfOk result (λ pushed. pushed.0 ≤ length shown.now) }
    ensures piece { IfOk result (λ pushed. (bytes : List ℕ)
        × IsPiece pushed.1 (take pushed.0 shown.now) bytes
        × Grows line.old line.new bytes) }
    ensures end { IfOk result (λ pushed. pushed.1 ≡ Piece.End → length shown.now ≡ 0) }
{
    if shown.is_empty() {
        return Ok((0, Piece::End));
    }
    match cut(shown, b'\n') {
        Some((front, _)) => {
            line.push(front)?;
            Ok((front.len() + 1, Piece::Newline))
        }
        None => {
            line.push(shown)?;
            Ok((shown.len(), Piece::More))
        }
    }
}

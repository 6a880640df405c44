//! Scripts: lines are read and run, and their replies written, one after another.

ghost use Rattle.std.specs.Prelude.{◌≡◌, ◌≢◌, ◌||◌, IfOk, IfErr};
ghost use Rattle.cm_guards.specs.Calls.{LeavesOnly};
ghost use Rattle.cm_session.specs.Moves.{SessionMatches};
ghost use Rattle.cm_lines.specs.Streams.{io, ReadsLine};
ghost use Rattle.cm_tool.specs.Replies.{is_refused, is_unsure};
ghost use Rattle.cm_tool.specs.Runs.{TakesTurn, IsRun};
ghost use Rattle.cm_tool.specs.Serving.{ServesFrom, Progresses, MayProgress};

use crate::ReplyKind;
use crate::ahead::Ahead;
use crate::answer::answer;
use cm_disk::Disk;
use cm_lines::{LineBuffer, LineFault, MOST_STEPS, read_line, write_line};
use cm_session::Session;
use std::alloc::Global;
use std::io::{BufRead, Write};

/// The result of a script.
#[derive(Clone, Copy, Debug, PartialEq, Eq)]
pub struct Outcome {
    /// Some line was refused.
    pub refused: bool,
    /// The device failed before a command's receipt, and the script ended there.
    pub unsure: bool,
}

impl Outcome {
    /// The same with one more reply.
    fn with_reply(self, kind: ReplyKind) -> Outcome
        ensures refused { result.refused ≡ (self.refused || is_refused kind) }
        ensures unsure { result.unsure ≡ (self.unsure || is_unsure kind) }
    {
        Outcome {
            refused: self.refused || matches!(kind, ReplyKind::Refused),
            unsure: self.unsure || matches!(kind, ReplyKind::Unsure),
        }
    }
}

/// Runs a script on a session in which everything accepted is durable: reads its lines, and writes
/// the reply to each as soon as it is made. Of lines that are read ahead it may be known what they
/// define.
///
/// A line ends at a newline; the last newline is optional. The run ends at an unsure command, since
/// no further one would be accepted. It is an `Err` if the reader fails (`Input`), if the writer
/// fails (`Output`), or if an allocation failed for a line or a reply (`NoMemory`): what was
/// acknowledged is durable.
pub fn run_script<A: Ahead, R: BufRead, W: Write, D: Disk>(
    alloc: Global,
    ahead: &mut A,
    reader: &mut R,
    writer: &mut W,
    session: &mut Session<D>,
) -> Result<Outcome, LineFault>
    requires { A.may_look }
    ensures machine { ServesFrom D.view (IsRun (LeavesOnly D.view) session.old.committer.sizes
        (io (R.remaining reader.old) (W.contents writer.old) (W.contents writer.new)) result)
        (λ k next. SessionMatches next session.new) session.old session.new }
    ensures sizes { session.new.committer.sizes ≡ session.old.committer.sizes }
{
    let mut line = LineBuffer::new(alloc);
    let mut outcome = Outcome {
        refused: false,
        unsure: false,
    };
    'lines: for _ in 0..MOST_STEPS {
        match run_line(alloc, ahead, reader, writer, session, &mut line) {
            Ok(Some(kind)) => {
                outcome = outcome.with_reply(kind);
                if outcome.unsure {
                    return Ok(outcome);
                }
            }
            Ok(None) => return Ok(outcome),
            Err(fault) => return Err(fault),
        }
    }
    session.images(); // so the proof knows what a crash leaves now
    Err(LineFault::Input)
}

/// Takes a line, and says what a crash may have left at each moment of it.
fn run_line<A: Ahead, R: BufRead, W: Write, D: Disk>(
    alloc: Global,
    ahead: &mut A,
    reader: &mut R,
    writer: &mut W,
    session: &mut Session<D>,
    line: &mut LineBuffer,
) -> Result<Option<ReplyKind>, LineFault>
    requires { A.may_look }
    ensures machine { ServesFrom D.view
        (TakesTurn session.old.committer.sizes (R.remaining reader.new)
        (io (R.remaining reader.old) (W.contents writer.old) (W.contents writer.new)) result)
        (λ k. Progresses D.view k session.old session.new) session.old session.new }
    ensures sizes { session.new.committer.sizes ≡ session.old.committer.sizes }
{
    let turned = take_line(alloc, ahead, reader, writer, session, line);
    session.images(); // so the proof knows what a crash leaves now
    turned
}

/// Reads a line, runs it and writes its reply. `None` says that there was no line.
fn take_line<A: Ahead, R: BufRead, W: Write, D: Disk>(
    alloc: Global,
    ahead: &mut A,
    reader: &mut R,
    writer: &mut W,
    session: &mut Session<D>,
    line: &mut LineBuffer,
) -> Result<Option<ReplyKind>, LineFault>
    requires { A.may_look }
    ensures machine { ServesFrom D.view
        (TakesTurn session.old.committer.sizes (R.remaining reader.new)
        (io (R.remaining reader.old) (W.contents writer.old) (W.contents writer.new)) result)
        (λ k. MayProgress D.view k session.old session.new) session.old session.new }
    ensures sizes { session.new.committer.sizes ≡ session.old.committer.sizes }
{
    match next_line(alloc, ahead, reader, line) {
        Ok(true) => {}
        Ok(false) => return Ok(None),
        Err(fault) => return Err(fault),
    }
    let defined = ahead.defined(line);
    let reply = match answer(alloc, session, line, defined) {
        Ok(reply) => reply,
        Err(_) => return Err(LineFault::NoMemory),
    };
    match write_line(writer, &reply.line) {
        Ok(()) => Ok(Some(reply.kind)),
        Err(fault) => Err(fault),
    }
}

/// Reads a line, once the lines that the reader shows were looked at. Returns whether there was
/// one.
fn next_line<A: Ahead, R: BufRead>(
    alloc: Global,
    ahead: &mut A,
    reader: &mut R,
    line: &mut LineBuffer,
) -> Result<bool, LineFault>
    requires { A.may_look }
    ensures read { IfOk result
        (ReadsLine (R.remaining reader.old) (R.remaining reader.new) line.new) }
    ensures fault { IfErr result (λ e. e ≢ LineFault.Output) }
{
    ahead.look(alloc, reader)?;
    read_line(reader, line)
}

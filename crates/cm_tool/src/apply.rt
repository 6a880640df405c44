//! Runs scripts on the cache of a disk.

ghost use Rattle.std.specs.Prelude.{◌<◌, IfOk, IfErr};
ghost use Rattle.cm_guards.specs.Calls.{LeavesOnly};
ghost use Rattle.cm_session.specs.Opening.{OpensSession};
ghost use Rattle.cm_lines.specs.Streams.{io};
ghost use Rattle.cm_tool.specs.Runs.{IsAnswered};
ghost use Rattle.cm_tool.specs.Serving.{medium};
ghost use Rattle.cm_tool.specs.Applied.{RunsFromOpened, ApplyStops};

use crate::ahead::{Ahead, LinesAhead, NothingAhead};
use crate::script::{Outcome, run_script};
use cm_disk::Disk;
use cm_lines::LineFault;
use cm_recover::NotOpened;
use cm_session::Session;
use cm_verdict::OpenFault;
use std::alloc::Global;
use std::io::{BufRead, Write};
use std::thread::Threads;
use thiserror::Error;

/// Why a script isn't run to its end.
#[derive(Clone, Copy, Debug, PartialEq, Eq, Error)]
pub enum ApplyFault {
    /// The disk's cache can't be opened. Nothing was run, and nothing is written.
    #[error("{0}")]
    Open(OpenFault),
    /// The run ended early.
    #[error("{0}")]
    Script(LineFault),
}

/// Opens the cache on a disk, and runs a script on it: reads its lines, and writes the reply to
/// each as soon as it is made. A command's `ok` is written once the command is durable.
///
/// A crash at any moment of a line leaves all that was acknowledged before that line, and nothing
/// that wasn't handed out by its end. While the cache is opened, a crash leaves what it might have
/// left before or, if a file of version 1 is upgraded, what stands for the same cache.
///
/// The disk is handed back in any case. After `Open` it stands for what it stood for before; after
/// `Script` all that was acknowledged is durable.
pub fn apply_script<R: BufRead, W: Write, D: Disk>(
    alloc: Global,
    reader: &mut R,
    writer: &mut W,
    disk: D,
) -> (Result<Outcome, ApplyFault>, D)
    ensures ok { IfOk result.0 (λ outcome.
        RunsFromOpened (LeavesOnly D.view) disk result.1
        (medium D.view disk)
        (medium D.view result.1)
        (λ sizes old new. IsAnswered (LeavesOnly D.view) sizes
        (io (R.remaining reader.old) (W.contents writer.old) (W.contents writer.new))
        outcome old new)) }
    ensures err { IfErr result.0 (ApplyStops (LeavesOnly D.view) disk result.1
        (io (R.remaining reader.old) (W.contents writer.old) (W.contents writer.new))
        (medium D.view disk)
        (medium D.view result.1)) }
{
    let opened = cm_session::open(alloc, disk);
    run_opened(alloc, &mut NothingAhead, reader, writer, opened)
}

/// Opens the cache on a disk, and runs a script on it, with the replies of [`apply_script`] and the
/// same promises: commands are run in the order of their lines, one after another. Several threads,
/// at most this many, judge the file's records when it is opened, and prepare the classes of the
/// lines that the reader has buffered, if these are long enough to be worth a thread.
pub fn apply_threads<T, R, W, D>(
    rt: &T,
    alloc: Global,
    reader: &mut R,
    writer: &mut W,
    disk: D,
    workers: usize,
) -> (Result<Outcome, ApplyFault>, D)
where
    T: Threads + Sync,
    R: BufRead,
    W: Write,
    D: Disk,
    requires { 0 < workers }
    ensures ok { IfOk result.0 (λ outcome.
        RunsFromOpened (LeavesOnly D.view) disk result.1
        (medium D.view disk)
        (medium D.view result.1)
        (λ sizes old new. IsAnswered (LeavesOnly D.view) sizes
        (io (R.remaining reader.old) (W.contents writer.old) (W.contents writer.new))
        outcome old new)) }
    ensures err { IfErr result.0 (ApplyStops (LeavesOnly D.view) disk result.1
        (io (R.remaining reader.old) (W.contents writer.old) (W.contents writer.new))
        (medium D.view disk)
        (medium D.view result.1)) }
{
    let opened = cm_session::open_in_threads(rt, alloc, disk, workers);
    let mut ahead = LinesAhead::new(rt, alloc, workers);
    run_opened(alloc, &mut ahead, reader, writer, opened)
}

/// Runs a script on a session, if a disk's cache was opened for it, and hands back its disk,
/// whatever the result of the script.
fn run_opened<A, R, W, D>(
    alloc: Global,
    ahead: &mut A,
    reader: &mut R,
    writer: &mut W,
    opened: Result<Session<D>, NotOpened<D>>,
) -> (Result<Outcome, ApplyFault>, D)
where
    A: Ahead,
    R: BufRead,
    W: Write,
    D: Disk,
    requires { A.may_look }
    ensures ok { (disk : D) → OpensSession D.view disk opened → IfOk result.0 (λ outcome.
        RunsFromOpened (LeavesOnly D.view) disk result.1
        (medium D.view disk)
        (medium D.view result.1)
        (λ sizes old new. IsAnswered (LeavesOnly D.view) sizes
        (io (R.remaining reader.old) (W.contents writer.old) (W.contents writer.new))
        outcome old new)) }
    ensures err { (disk : D) → OpensSession D.view disk opened → IfErr result.0
        (ApplyStops (LeavesOnly D.view) disk result.1
        (io (R.remaining reader.old) (W.contents writer.old) (W.contents writer.new))
        (medium D.view disk)
        (medium D.view result.1)) }
{
    let mut session = match opened {
        Ok(session) => session,
        Err(NotOpened { fault, disk }) => return (Err(ApplyFault::Open(fault)), disk),
    };
    let result = run_script(alloc, ahead, reader, writer, &mut session);
    session.images();
    match result {
        Ok(outcome) => (Ok(outcome), session.into_disk()),
        Err(fault) => (Err(ApplyFault::Script(fault)), session.into_disk()),
    }
}

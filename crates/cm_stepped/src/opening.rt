//! Opens a file for a caller that makes the device calls.

ghost use Rattle.std.specs.Prelude.{IfOk, IfErr};
ghost use Rattle.cm_pool.specs.Geometry.{Sizes};
ghost use Rattle.cm_verdict.specs.Verdict.{verdict};
ghost use Rattle.cm_verdict.specs.Opening.{IsFaultIn};
ghost use Rattle.cm_recover.specs.Opened.{OpensThrough};
ghost use Rattle.cm_commands.specs.Machine.{Machine};
ghost use Rattle.cm_session.specs.Images.{StandsForSome};
ghost use Rattle.cm_session.specs.Moves.{IsOutside};
ghost use Rattle.cm_stepped.specs.Opening.{Opened, Begins, disk_of, MeetsDevice};

use crate::stepped::SteppedSession;
use cm_disk::Disk;
use cm_recover::NotOpened;
use std::alloc::Global;

/// Opens the cache of a file, as [`cm_session::open`] does. The disk has noted the calls of opening
/// by then: a sync, and those that upgrade a file of version 1. All of them are to be made before
/// the first step.
///
/// No call is asked for yet, and all commands that the file stands for are reported as stored.
pub fn open<D: Disk>(alloc: Global, disk: D) -> Result<SteppedSession<D>, NotOpened<D>>
    ensures opened { (sizes : Sizes) (k : Machine) → StandsForSome sizes k (D.view.contents disk)
        → IfOk result (Opened D.view sizes (D.view.contents disk) k) }
    ensures begins { IfOk result (Begins (D.view.contents disk)) }
    ensures stands { (sizes : Sizes) (k : Machine) → StandsForSome sizes k (D.view.contents disk)
        → IfErr result (λ e. IsOutside e.fault) }
    ensures fault { IfErr result (λ e. IsFaultIn e.fault (verdict (D.view.contents disk))) }
    ensures run { OpensThrough D.view disk (disk_of result) (MeetsDevice result) }
{
    let session = match cm_session::open(alloc, disk) {
        Ok(session) => session,
        Err(not_opened) => return Err(not_opened),
    };
    let number = session.number();
    Ok(SteppedSession {
        session,
        asked: None,
        accepted: number,
        stored: number,
        is_broken: false,
    })
}

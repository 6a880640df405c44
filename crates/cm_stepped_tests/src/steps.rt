//! Steps of a cache, with each call made by the test.

use crate::device::make;
use crate::files::new_file;
use cm_commands::{Command, Refusal};
use cm_deferred_disk::DeferredDisk;
use cm_samples::class;
use cm_stepped::{Broken, Step, SteppedSession, open_bytes};
use std::alloc::Global;
use std::test::*;
use std::thread;

/// More steps than any test takes.
const MOST: u64 = 1_000;

/// The cache of a file.
fn open(alloc: Global, file: &[u8]) -> Result<SteppedSession<DeferredDisk>, Fail> {
    Ok(open_bytes(alloc, file).ok().ok_or("not opened")?)
}

/// Accepts a loader `a` with the class `A`.
fn accept_two(alloc: Global, session: &mut SteppedSession<DeferredDisk>) -> Result<(), Fail> {
    let _loader = session
        .accept(Command::AddLoader(b"a"))
        .ok()
        .ok_or("no loader")?;
    let _class = session
        .accept(Command::Define(b"a", class(alloc, b"A")?))
        .ok()
        .ok_or("no class")?;
    Ok(())
}

/// Makes the call that is asked for, if one is.
fn make_noted(session: &SteppedSession<DeferredDisk>, file: &mut Vec<u8>) -> Result<bool, Fail> {
    let Some(disk) = session.noted() else {
        return Ok(false);
    };
    match disk.device().call() {
        Some(call) => {
            make(file, call)?;
            Ok(true)
        }
        None => Ok(false),
    }
}

/// Makes this many calls, and gives the last number that was reported as stored.
fn run(
    session: &mut SteppedSession<DeferredDisk>,
    file: &mut Vec<u8>,
    calls: u64,
) -> Result<u64, Fail> {
    let mut made = 0;
    for _ in 0..MOST {
        if session.step(true).ok().ok_or("broken")? == Step::Idle {
            break;
        }
        if made == calls {
            break;
        }
        if make_noted(session, file)? {
            made = made.saturating_add(1);
        }
    }
    Ok(session.stored())
}

/// Whether the file has the class.
fn has_class(alloc: Global, file: &[u8]) -> Result<bool, Fail> {
    Ok(open(alloc, file)?.find(b"a", b"A").is_some())
}

#[test]
fn what_was_told_is_in_the_file_after_each_call(rt: HostRuntime) -> Result<(), Fail> {
    let alloc = rt.alloc();
    for calls in 0..20 {
        let mut file = new_file(alloc)?;
        let mut session = open(alloc, &file)?;
        accept_two(alloc, &mut session)?;
        assert!(rt; session.accepted() == 2);
        assert!(rt; session.find(b"a", b"A").is_some());
        let stored = run(&mut session, &mut file, calls)?;
        assert!(rt; stored == 0 || has_class(alloc, &file)?);
        assert!(rt; calls < 19 || stored == 2);
    }
    Ok(())
}

#[test]
fn nothing_is_told_past_a_call_that_failed(rt: HostRuntime) -> Result<(), Fail> {
    let alloc = rt.alloc();
    let file = new_file(alloc)?;
    let mut session = open(alloc, &file)?;
    assert!(rt; session.step(false) == Ok(Step::Idle));
    accept_two(alloc, &mut session)?;
    assert!(rt; session.step(false) == Ok(Step::Call));
    assert!(rt; session.noted().is_some());
    assert!(rt; session.step(false) == Err(Broken));
    assert!(rt; session.noted().is_none());
    assert!(rt; session.step(true) == Err(Broken));
    assert!(rt; session.stored() == 0);
    assert!(rt; session.accept(Command::AddLoader(b"b")) == Err(Refusal::Broken));
    assert!(rt; session.find(b"a", b"A").is_some());
    Ok(())
}

#[test]
fn a_session_may_go_to_another_thread(rt: HostRuntime) -> Result<(), Fail> {
    let alloc = rt.alloc();
    let mut session = open(alloc, &new_file(alloc)?)?;
    accept_two(alloc, &mut session)?;
    let (accepted, _nothing) = thread::join(&rt, move || session.accepted(), || ());
    assert!(rt; accepted == 2);
    Ok(())
}

//! Scripts whose classes several threads prepare.

ghost use Rattle.std.specs.Prelude.{◌<◌};

use crate::disks::{are_replies, new_disk, replies};
use cm_samples::CLASS_A_TEXT;
use cm_tool::apply_threads;
use std::alloc::Global;
use std::test::*;
use std::thread::Threads;

/// How often two lines stand that define class A: often enough for several threads.
const TIMES: usize = 1_500;

/// How many bytes follow the class in the second line.
const TOO_MANY: usize = 1_000;

/// Appends the two lines that define class A: as it is, and with bytes after it.
fn push_lines(script: &mut Vec<u8>) -> Result<(), Fail> {
    for part in [
        b"define a ".as_slice(),
        CLASS_A_TEXT,
        b"\ndefine a ",
        CLASS_A_TEXT,
    ] {
        script.extend_from_slice(part)?;
    }
    for _ in 0..TOO_MANY {
        script.extend_from_slice(b"00")?;
    }
    script.push(b'\n')?;
    Ok(())
}

/// A script with a class that is defined once, and then refused.
fn long_script(alloc: Global) -> Result<Vec<u8>, Fail> {
    let mut script = b"loader a\nfind a A\n".to_vec(alloc)?;
    for _ in 0..TIMES {
        push_lines(&mut script)?;
    }
    script.extend_from_slice(b"find a A\nunload a")?;
    Ok(script)
}

/// Whether a run by this many workers has the outcome and the replies of one worker, and leaves the
/// cache after three commands.
fn is_the_same<T: Threads + Sync>(
    rt: &T,
    alloc: Global,
    script: &[u8],
    workers: usize,
) -> Result<bool, Fail>
    requires { 0 < workers }
{
    let (wanted, outcome, _disk) = replies(alloc, script, new_disk(alloc)?);
    let mut reader = script;
    let mut written = Vec::new(alloc);
    let disk = new_disk(alloc)?;
    let (run, left) = apply_threads(rt, alloc, &mut reader, &mut written, disk, workers);
    let is_same = run == outcome && written.as_slice() == wanted.as_slice();
    Ok(is_same && are_replies(alloc, left, b"find a A\nloader b\n", b"none\nok 4\n"))
}

#[test]
fn any_number_of_workers_replies_the_same(rt: HostRuntime) -> Result<(), Fail> {
    let script = long_script(rt.alloc())?;
    for workers in [1, 2, 4, 16] {
        assert!(rt; is_the_same(&rt, rt.alloc(), &script, workers)?);
    }
    Ok(())
}

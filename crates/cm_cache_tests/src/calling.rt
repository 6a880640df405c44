//! One thread's calls of a running cache, as tables of calls and results.

use crate::fused::calls_to_open;
use crate::running::{formatted, ready};
use cm_disk::FuseDisk;
use cm_library::{Cache, Counts, Disk, Finished, Geometry, Names, Naming, Pass, Refusal, Work};
use cm_samples::{class, new_disk};
use std::alloc::Global;
use std::sync::Wait;
use std::test::*;
use std::thread::Threads;

/// A call. Loaders have names of one letter, and `A` is the only class.
#[derive(Clone, Copy)]
enum Call {
    AddLoader(u8),
    Define(u8),
    Unload(u8),
    Tighten(u8),
    UnloadAll(&'static [&'static [u8]]),
    Find(u8),
    Stop,
}

/// Its result.
#[derive(Clone, Copy, Debug, PartialEq, Eq)]
enum Answer {
    Number(u64),
    Refused(Refusal),
    Found,
    Nothing,
    Done,
}

fn answer_to(answer: Result<u64, Refusal>) -> Answer {
    match answer {
        Ok(number) => Answer::Number(number),
        Err(refusal) => Answer::Refused(refusal),
    }
}

fn define<K: Naming, R: Wait>(
    rt: &R,
    alloc: Global,
    cache: &Cache<K>,
    pass: &mut Pass<K>,
    loader: u8,
) -> Result<u64, Refusal> {
    cache.define(rt, pass, &[loader], class(alloc, b"A")?)
}

fn make_call<K: Naming, R: Wait>(
    rt: &R,
    alloc: Global,
    cache: &Cache<K>,
    pass: &mut Pass<K>,
    call: Call,
) -> Answer {
    match call {
        Call::AddLoader(name) => answer_to(cache.add_loader(rt, pass, &[name])),
        Call::Define(loader) => answer_to(define(rt, alloc, cache, pass, loader)),
        Call::Unload(name) => answer_to(cache.unload(rt, pass, &[name])),
        Call::Tighten(name) => answer_to(cache.tighten(rt, pass, &[name])),
        Call::UnloadAll(names) => answer_to(cache.unload_all(rt, pass, Names::new(names))),
        Call::Find(name) => match cache.find(rt, &[name], b"A") {
            Ok(Some(_)) => Answer::Found,
            Ok(None) => Answer::Nothing,
            Err(_) => Answer::Done,
        },
        Call::Stop => {
            cache.stop(rt);
            Answer::Done
        }
    }
}

/// These calls, through one pass.
#[derive(Drop)]
struct Calls(&'static [Call]);

impl<R: Wait> Work<R> for Calls {
    type Output = Result<Vec<Answer>, Fail>;

    ghost may_run = { λ _. Unit {0} };

    ghost keeps = { λ _ _ _. Unit {0} };

    fn run<K: Naming>(
        self,
        rt: &R,
        alloc: Global,
        cache: &Cache<K>,
        pass: &mut Pass<K>,
    ) -> Result<Vec<Answer>, Fail> {
        let Calls(calls) = self;
        let mut answers = Vec::new(alloc);
        for one in calls {
            answers.push(make_call(rt, alloc, cache, pass, *one))?;
        }
        Ok(answers)
    }
}

fn run<R, D>(
    rt: &R,
    alloc: Global,
    disk: D,
    calls: &'static [Call],
) -> Result<(Counts, Vec<Answer>), Fail>
where
    R: Threads + Wait + Copy + Send + Sync + 'static,
    D: Disk + Drop + Send + 'static,
{
    let Finished {
        output,
        counts,
        disk: _,
    } = ready(rt, alloc, disk)?.run(rt, alloc, Calls(calls))?;
    Ok((counts, output?))
}

const STOPPED: &[Call] = &[
    Call::AddLoader(b'a'),
    Call::Define(b'a'),
    Call::Stop,
    Call::AddLoader(b'b'),
    Call::Unload(b'a'),
    Call::Tighten(b'a'),
    Call::Find(b'a'),
    Call::Find(b'b'),
];

#[test]
fn a_stopped_cache_refuses_changes_and_finds(rt: HostRuntime) -> Result<(), Fail> {
    let alloc = rt.alloc();
    let (counts, answers) = run(&rt, alloc, formatted(alloc)?, STOPPED)?;
    assert_eq!(rt;
        counts,
        Counts {
            handed: 2,
            committed: 2,
            of_passes: 2,
            missing: 0
        }
    );
    assert_eq!(rt;
        answers.as_slice(),
        [
            Answer::Number(1),
            Answer::Number(2),
            Answer::Done,
            Answer::Refused(Refusal::Closed),
            Answer::Refused(Refusal::Closed),
            Answer::Refused(Refusal::Closed),
            Answer::Found,
            Answer::Nothing,
        ]
        .as_slice()
    );
    Ok(())
}

/// What loader `a` leaves lies before the chunk of `b`.
const MOVED: &[Call] = &[
    Call::AddLoader(b'a'),
    Call::AddLoader(b'b'),
    Call::Define(b'a'),
    Call::Define(b'b'),
    Call::Tighten(b'b'),
    Call::Unload(b'a'),
    Call::Tighten(b'b'),
    Call::Find(b'b'),
    Call::Tighten(b'b'),
];

#[test]
fn a_move_is_stored_and_changes_nothing_that_is_found(rt: HostRuntime) -> Result<(), Fail> {
    let alloc = rt.alloc();
    let (counts, answers) = run(&rt, alloc, formatted(alloc)?, MOVED)?;
    assert_eq!(rt;
        counts,
        Counts {
            handed: 6,
            committed: 6,
            of_passes: 6,
            missing: 0
        }
    );
    assert_eq!(rt;
        answers.as_slice(),
        [
            Answer::Number(1),
            Answer::Number(2),
            Answer::Number(3),
            Answer::Number(4),
            Answer::Refused(Refusal::NoMove),
            Answer::Number(5),
            Answer::Number(6),
            Answer::Found,
            Answer::Refused(Refusal::NoMove),
        ]
        .as_slice()
    );
    Ok(())
}

const TOGETHER: &[Call] = &[
    Call::AddLoader(b'a'),
    Call::AddLoader(b'b'),
    Call::Define(b'a'),
    Call::Define(b'b'),
    Call::UnloadAll(&[b"a", b"c"]),
    Call::UnloadAll(&[b"a", b"a"]),
    Call::UnloadAll(&[]),
    Call::Find(b'a'),
    Call::UnloadAll(&[b"b", b"a"]),
    Call::Find(b'a'),
    Call::Find(b'b'),
];

#[test]
fn several_loaders_go_at_once_or_not_at_all(rt: HostRuntime) -> Result<(), Fail> {
    let alloc = rt.alloc();
    let (counts, answers) = run(&rt, alloc, formatted(alloc)?, TOGETHER)?;
    assert_eq!(rt;
        counts,
        Counts {
            handed: 5,
            committed: 5,
            of_passes: 5,
            missing: 0
        }
    );
    assert_eq!(rt;
        answers.as_slice(),
        [
            Answer::Number(1),
            Answer::Number(2),
            Answer::Number(3),
            Answer::Number(4),
            Answer::Refused(Refusal::NoLoader),
            Answer::Refused(Refusal::BadList),
            Answer::Refused(Refusal::BadList),
            Answer::Found,
            Answer::Number(5),
            Answer::Nothing,
            Answer::Nothing,
        ]
        .as_slice()
    );
    Ok(())
}

/// The region is eight chunks of the least size, and each loader with a class takes one at least.
const FULL: &[Call] = &[
    Call::AddLoader(b'a'),
    Call::Define(b'a'),
    Call::AddLoader(b'b'),
    Call::Define(b'b'),
    Call::AddLoader(b'c'),
    Call::Define(b'c'),
    Call::AddLoader(b'd'),
    Call::Define(b'd'),
    Call::AddLoader(b'e'),
    Call::Define(b'e'),
    Call::AddLoader(b'f'),
    Call::Define(b'f'),
    Call::AddLoader(b'g'),
    Call::Define(b'g'),
    Call::AddLoader(b'h'),
    Call::Define(b'h'),
    Call::AddLoader(b'i'),
    Call::Define(b'i'),
    Call::Find(b'i'),
    Call::Unload(b'a'),
    Call::Define(b'i'),
    Call::Find(b'i'),
];

#[test]
fn a_full_region_is_reported_as_such(rt: HostRuntime) -> Result<(), Fail> {
    let alloc = rt.alloc();
    let disk = new_disk(alloc, Geometry::new(3, 1, 256).ok_or("sizes")?)?;
    let (counts, answers) = run(&rt, alloc, disk, FULL)?;
    assert_eq!(rt;
        counts,
        Counts {
            handed: 19,
            committed: 19,
            of_passes: 19,
            missing: 0
        }
    );
    let last = answers.as_slice().get(16..).ok_or("too few answers")?;
    assert_eq!(rt;
        last,
        [
            Answer::Number(17),
            Answer::Refused(Refusal::RegionFull),
            Answer::Nothing,
            Answer::Number(18),
            Answer::Number(19),
            Answer::Found,
        ]
        .as_slice()
    );
    Ok(())
}

const BROKEN: &[Call] = &[
    Call::AddLoader(b'a'),
    Call::AddLoader(b'b'),
    Call::Find(b'a'),
];

#[test]
fn a_device_that_fails_leaves_a_call_unsure(rt: HostRuntime) -> Result<(), Fail> {
    let alloc = rt.alloc();
    let (calls, disk) = calls_to_open(alloc, formatted(alloc)?);
    let (counts, answers) = run(&rt, alloc, FuseDisk::new(disk, calls, 0), BROKEN)?;
    assert_eq!(rt;
        counts,
        Counts {
            handed: 1,
            committed: 0,
            of_passes: 1,
            missing: 0
        }
    );
    assert_eq!(rt;
        answers.as_slice(),
        [
            Answer::Refused(Refusal::Unsure(1)),
            Answer::Refused(Refusal::Broken),
            Answer::Nothing,
        ]
        .as_slice()
    );
    Ok(())
}

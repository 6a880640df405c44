//! Replies to commands and requests, letter by letter.

use cm_commands::{BadClass, Refusal, prepare};
use cm_rules::{Broken, Rule, Spot};
use cm_samples::CLASS_A;
use cm_tool::{Reply, ReplyKind};
use std::alloc::AllocError;
use std::process::Abort;
use std::test::Fail;

fn tells(reply: &Reply, kind: ReplyKind, line: &[u8]) -> bool {
    reply.kind == kind && reply.line.as_slice() == line
}

/// Checks that there is a reply, of this kind and with this line.
fn is_told(
    rt: &impl Abort,
    reply: Result<Reply, AllocError>,
    kind: ReplyKind,
    line: &[u8],
) -> Result<(), AllocError> {
    let reply = reply?;
    assert!(rt; tells(&reply, kind, line));
    Ok(())
}

#[test]
fn commands_that_are_done_are_told(rt: HostRuntime) -> Result<(), AllocError> {
    let alloc = rt.alloc();
    is_told(&rt, Reply::ok(alloc, 1), ReplyKind::Done, b"ok 1\n")?;
    is_told(&rt, Reply::ok(alloc, 10), ReplyKind::Done, b"ok 10\n")?;
    is_told(
        &rt,
        Reply::ok_class(alloc, 2, b"A"),
        ReplyKind::Done,
        b"ok 2 A\n",
    )?;
    is_told(
        &rt,
        Reply::ok_class(alloc, 2, b"\xc3\xa9"),
        ReplyKind::Done,
        b"ok 2 %C3%A9\n",
    )?;
    is_told(&rt, Reply::none(alloc), ReplyKind::Done, b"none\n")
}

#[test]
fn a_class_is_told_with_its_flags_and_its_super_class(rt: HostRuntime) -> Result<(), Fail> {
    let class = prepare(rt.alloc(), &CLASS_A).ok().ok_or("class A")?;
    let reply = Reply::class(rt.alloc(), b"A", class.record());
    let line = b"class A flags 0021 super java/lang/Object words 16\n";
    Ok(is_told(&rt, reply, ReplyKind::Done, line)?)
}

static REFUSED: [(Refusal, &[u8]); 22] = [
    (Refusal::BadName, b"refused 1 name\n"),
    (Refusal::LoaderExists, b"refused 2 loader exists\n"),
    (Refusal::NoLoader, b"refused 3 no loader\n"),
    (Refusal::ClassExists, b"refused 4 class exists\n"),
    (Refusal::RecordTooLong, b"refused 5 record too long\n"),
    (Refusal::RegionFull, b"refused 6 region full\n"),
    (Refusal::JournalFull, b"refused 7 journal full\n"),
    (Refusal::NoMove, b"refused 8 no move\n"),
    (Refusal::NoMemory, b"refused 9 memory\n"),
    (Refusal::Broken, b"refused 10 broken\n"),
    (Refusal::Closed, b"refused 11 closed\n"),
    (Refusal::NumbersSpent, b"refused 12 numbers spent\n"),
    (
        Refusal::BadClass(BadClass::Truncated),
        b"refused 14 truncated\n",
    ),
    (
        Refusal::BadClass(BadClass::Trailing(53)),
        b"refused 14 trailing 53\n",
    ),
    (
        Refusal::BadClass(BadClass::Malformed(5)),
        b"refused 14 malformed 5\n",
    ),
    (
        Refusal::BadClass(BadClass::Rule(Broken {
            rule: Rule::Utf8Form,
            spot: Spot::Pool(5),
        })),
        b"refused 14 V1 pool 5\n",
    ),
    (
        Refusal::BadClass(BadClass::Rule(Broken {
            rule: Rule::EntryKinds,
            spot: Spot::This,
        })),
        b"refused 14 V2 this\n",
    ),
    (
        Refusal::BadClass(BadClass::Rule(Broken {
            rule: Rule::SuperClass,
            spot: Spot::Super,
        })),
        b"refused 14 V12 super\n",
    ),
    (
        Refusal::BadClass(BadClass::Rule(Broken {
            rule: Rule::FieldTwice,
            spot: Spot::Field(1),
        })),
        b"refused 14 V15 field 1\n",
    ),
    (
        Refusal::BadClass(BadClass::Rule(Broken {
            rule: Rule::MethodUnits,
            spot: Spot::Method(0),
        })),
        b"refused 14 V17 method 0\n",
    ),
    (
        Refusal::BadClass(BadClass::Rule(Broken {
            rule: Rule::ClassAttributes,
            spot: Spot::Attribute(1),
        })),
        b"refused 14 V23 attribute 1\n",
    ),
    (Refusal::BadLine, b"refused 15 line\n"),
];

#[test]
fn refusals_are_told_by_number_and_text(rt: HostRuntime) -> Result<(), AllocError> {
    for (refusal, line) in &REFUSED {
        is_told(
            &rt,
            Reply::refused(rt.alloc(), *refusal),
            ReplyKind::Refused,
            line,
        )?;
    }
    let reply = Reply::bad_line(rt.alloc());
    is_told(&rt, reply, ReplyKind::Refused, b"refused 15 line\n")
}

#[test]
fn an_unsure_command_is_not_refused(rt: HostRuntime) -> Result<(), AllocError> {
    let alloc = rt.alloc();
    is_told(
        &rt,
        Reply::unsure(alloc, 2),
        ReplyKind::Unsure,
        b"unsure 2\n",
    )?;
    let refusal = Reply::refused(alloc, Refusal::Unsure(2));
    is_told(&rt, refusal, ReplyKind::Unsure, b"unsure 2\n")
}

//! Scripts and the replies to them.

use crate::disks::{has_one_loader, new_disk, new_disk_of, replies};
use cm_disk::{Disk, FuseDisk, SimDisk};
use cm_samples::CLASS_A_TEXT;
use cm_tool::{ApplyFault, Outcome, apply_script};
use cm_verdict::{FileFault, OpenFault};
use std::alloc::Global;
use std::io::BufReader;
use std::test::*;

const FINE: Outcome = Outcome {
    refused: false,
    unsure: false,
};

const REFUSED: Outcome = Outcome {
    refused: true,
    unsure: false,
};

const UNSURE: Outcome = Outcome {
    refused: false,
    unsure: true,
};

/// A script in which `@` stands for class A.
pub fn expand(alloc: Global, script: &[u8]) -> Result<Vec<u8>, Fail> {
    let mut text = Vec::new(alloc);
    for byte in script {
        if *byte == b'@' {
            text.extend_from_slice(CLASS_A_TEXT)?;
        } else {
            text.push(*byte)?;
        }
    }
    Ok(text)
}

/// Scripts, and the replies to each.
const CASES: [(&[u8], &[u8]); 14] = [
    (b"", b""),
    (b"loader app", b"ok 1\n"),
    (
        b"loader app\ndefine app @\nfind app A\n",
        b"ok 1\nok 2 A\nclass A flags 0021 super java/lang/Object words 16\n",
    ),
    (b"define app\n", b"refused 15 line\n"),
    (b"define app 0\n", b"refused 15 line\n"),
    (b"define nobody @\n", b"refused 3 no loader\n"),
    (
        b"loader a\ndefine a @00\n",
        b"ok 1\nrefused 14 trailing 53\n",
    ),
    (
        b"loader a\nloader b\ndefine a @\ndefine b @\ndefine a @\n",
        b"ok 1\nok 2\nok 3 A\nok 4 A\nrefused 4 class exists\n",
    ),
    (
        b"loader a\nloader a\nloader \x7f\nunload b\n",
        b"ok 1\nrefused 2 loader exists\nrefused 1 name\nrefused 3 no loader\n",
    ),
    // names of 48 and 49 bytes, of 96 and 97
    (
        b"loader mmmmmmmmmmmmmmmmmmmmmmmmmmmmmmmmmmmmmmmmmmmmmmmm\n\
            loader mmmmmmmmmmmmmmmmmmmmmmmmmmmmmmmmmmmmmmmmmmmmmmmmm\n\
            define mmmmmmmmmmmmmmmmmmmmmmmmmmmmmmmmmmmmmmmmmmmmmmmmm @\n\
            find mmmmmmmmmmmmmmmmmmmmmmmmmmmmmmmmmmmmmmmmmmmmmmmm A\n\
            find mmmmmmmmmmmmmmmmmmmmmmmmmmmmmmmmmmmmmmmmmmmmmmmmm A\n\
            loader nnnnnnnnnnnnnnnnnnnnnnnnnnnnnnnnnnnnnnnnnnnnnnnn\
            nnnnnnnnnnnnnnnnnnnnnnnnnnnnnnnnnnnnnnnnnnnnnnnn\n\
            loader nnnnnnnnnnnnnnnnnnnnnnnnnnnnnnnnnnnnnnnnnnnnnnnn\
            nnnnnnnnnnnnnnnnnnnnnnnnnnnnnnnnnnnnnnnnnnnnnnnnn\n\
            find nnnnnnnnnnnnnnnnnnnnnnnnnnnnnnnnnnnnnnnnnnnnnnnn\
            nnnnnnnnnnnnnnnnnnnnnnnnnnnnnnnnnnnnnnnnnnnnnnnnn A\n\
            unload nnnnnnnnnnnnnnnnnnnnnnnnnnnnnnnnnnnnnnnnnnnnnnnn\
            nnnnnnnnnnnnnnnnnnnnnnnnnnnnnnnnnnnnnnnnnnnnnnnn\n",
        b"ok 1\nok 2\nok 3 A\nnone\nclass A flags 0021 super java/lang/Object words 16\n\
            ok 4\nrefused 1 name\nnone\nok 5\n",
    ),
    (
        b"tighten a\nloader a\ntighten a\ndefine a @\ntighten a\ntighten \x7f\ntighten\n",
        b"refused 3 no loader\nok 1\nrefused 8 no move\nok 2 A\nrefused 8 no move\n\
            refused 1 name\nrefused 15 line\n",
    ),
    (
        b"loader a\ndefine a @\nunload a\nfind a A\nloader a\nfind a A\nfind a %41\n",
        b"ok 1\nok 2 A\nok 3\nnone\nok 4\nnone\nrefused 15 line\n",
    ),
    (
        b"loader a\nloader b\ndefine a @\ndefine b @\nunloadall a c\nunloadall a a\n\
            unloadall b a\nfind a A\n",
        b"ok 1\nok 2\nok 3 A\nok 4 A\nrefused 3 no loader\nrefused 16 list\nok 5\nnone\n",
    ),
    (
        b"unloadall a b c d e f g h\nunloadall\nunloadall a \xff a\nunloadall a \xff\n",
        b"refused 16 list\nrefused 15 line\nrefused 16 list\nrefused 1 name\n",
    ),
];

/// The result of a script on a new disk, and whether these are the replies.
fn answer_to(
    alloc: Global,
    script: &[u8],
    wanted: &[u8],
) -> Result<(Result<Outcome, ApplyFault>, bool), Fail> {
    let (written, outcome, _disk) = replies(alloc, script, new_disk(alloc)?);
    Ok((outcome, written.as_slice() == wanted))
}

/// Whether these are the replies to a script in which `@` stands for class A.
fn is_answered(alloc: Global, script: &[u8], wanted: &[u8]) -> Result<bool, Fail> {
    let script = expand(alloc, script)?;
    let (_outcome, is_answered) = answer_to(alloc, &script, wanted)?;
    Ok(is_answered)
}

#[test]
fn scripts_are_answered(rt: HostRuntime) -> Result<(), Fail> {
    for (script, wanted) in &CASES {
        assert!(rt; is_answered(rt.alloc(), script, wanted)?);
    }
    Ok(())
}

#[test]
fn a_refused_line_shows_in_the_outcome(rt: HostRuntime) -> Result<(), Fail> {
    let alloc = rt.alloc();
    let fine = answer_to(alloc, b"loader a\n", b"ok 1\n")?;
    assert_eq!(rt; fine, (Ok(FINE), true));
    let replies = b"ok 1\nrefused 2 loader exists\n";
    let refused = answer_to(alloc, b"loader a\nloader a\n", replies)?;
    assert_eq!(rt; refused, (Ok(REFUSED), true));
    Ok(())
}

/// Whether the cache on a disk has the class, and nothing of its loader after an unloading.
fn finds_class_and_unloads(alloc: Global, disk: SimDisk) -> bool {
    let (written, outcome, _disk) = replies(alloc, b"find app A\nunload app\nfind app A", disk);
    let wanted = b"class A flags 0021 super java/lang/Object words 16\nok 3\nnone\n".as_slice();
    outcome == Ok(FINE) && written.as_slice() == wanted
}

/// Whether a loader and its class are stored on a new disk, and found by another script.
fn goes_on(alloc: Global, script: &[u8]) -> Result<bool, Fail> {
    let (written, outcome, mut disk) = replies(alloc, script, new_disk(alloc)?);
    let is_stored = outcome == Ok(FINE) && disk.len() == Ok(790_528);
    let is_answered = written.as_slice() == b"ok 1\nok 2 A\n".as_slice();
    Ok(is_stored && is_answered && finds_class_and_unloads(alloc, disk))
}

#[test]
fn a_second_script_goes_on_where_the_first_ended(rt: HostRuntime) -> Result<(), Fail> {
    let script = expand(rt.alloc(), b"loader app\ndefine app @\n")?;
    assert!(rt; goes_on(rt.alloc(), &script)?);
    Ok(())
}

/// The result of a script that is read in pieces of three bytes, and whether these are the replies.
fn answer_to_pieces(
    alloc: Global,
    script: &[u8],
    wanted: &[u8],
) -> Result<(Result<Outcome, ApplyFault>, bool), Fail> {
    let disk = new_disk(alloc)?;
    let mut reader = BufReader::with_capacity(alloc, 3, script)?;
    let mut written = Vec::new(alloc);
    let (outcome, _disk) = apply_script(alloc, &mut reader, &mut written, disk);
    Ok((outcome, written.as_slice() == wanted))
}

#[test]
fn a_script_is_read_in_pieces(rt: HostRuntime) -> Result<(), Fail> {
    let script = expand(rt.alloc(), b"loader app\n\ndefine app @\nfind app A")?;
    let replies = b"ok 1\nrefused 15 line\nok 2 A\n\
          class A flags 0021 super java/lang/Object words 16\n";
    let answer = answer_to_pieces(rt.alloc(), &script, replies)?;
    assert_eq!(rt; answer, (Ok(REFUSED), true));
    Ok(())
}

#[test]
fn a_disk_without_a_cache_is_refused(rt: HostRuntime) -> Result<(), Fail> {
    let alloc = rt.alloc();
    let (written, outcome, mut disk) = replies(alloc, b"loader a\n", SimDisk::new(alloc));
    let left = (written.len(), disk.len());
    assert_eq!(rt;
        outcome,
        Err(ApplyFault::Open(OpenFault::File(FileFault::NotACache)))
    );
    assert_eq!(rt; left, (0, Ok(0)));
    Ok(())
}

/// The reply to adding a loader that has this result.
fn reply_for(outcome: Result<Outcome, ApplyFault>) -> &'static [u8] {
    match outcome {
        Err(_) => b"",
        Ok(UNSURE) => b"unsure 1\n",
        Ok(_) => b"ok 1\n",
    }
}

/// The result of adding a loader if the device fails after this many calls, and whether the reply
/// says so, and the loader exists.
fn add_behind(alloc: Global, pass: u64) -> Result<(Result<Outcome, ApplyFault>, [bool; 2]), Fail> {
    let disk = FuseDisk::new(new_disk(alloc)?, pass, 0);
    let (written, outcome, disk) = replies(alloc, b"loader a\n", disk);
    let is_replied = written.as_slice() == reply_for(outcome);
    let is_there = has_one_loader(alloc, disk.into_inner());
    Ok((outcome, [is_replied, is_there]))
}

/// A loader takes four calls: its entry is written, synced, its gate written, and synced again.
/// If the last of them fails, the file holds it, and it is there when the file is opened again.
#[test]
fn a_command_is_unsure_where_the_device_fails(rt: HostRuntime) -> Result<(), Fail> {
    let mut unsure = 0u32;
    for pass in 0..100 {
        let (outcome, [is_replied, is_there]) = add_behind(rt.alloc(), pass)?;
        assert!(rt; is_replied, "{pass} calls");
        match outcome {
            Err(fault) => {
                assert_eq!(rt; fault, ApplyFault::Open(OpenFault::Device));
            }
            Ok(UNSURE) => {
                unsure = unsure.saturating_add(1);
                assert_eq!(rt; is_there, unsure == 4);
            }
            other => {
                assert_eq!(rt; other, Ok(FINE));
                assert_eq!(rt; unsure, 4);
                return Ok(());
            }
        }
    }
    Err("no run met no failure".into())
}

/// For three commands, if the device fails after this many calls: whether the second is unsure and
/// has the last reply, and whether the first is stored.
fn add_three_behind(alloc: Global, pass: u64) -> Result<[bool; 2], Fail> {
    let disk = FuseDisk::new(new_disk(alloc)?, pass, 0);
    let (written, outcome, disk) = replies(alloc, b"loader a\nloader b\nloader c\n", disk);
    let is_second = written.as_slice() == b"ok 1\nunsure 2\n".as_slice();
    let is_there = has_one_loader(alloc, disk.into_inner());
    Ok([outcome == Ok(UNSURE) && is_second, is_there])
}

#[test]
fn nothing_follows_an_unsure_command(rt: HostRuntime) -> Result<(), Fail> {
    for pass in 0..100 {
        let [is_second, is_there] = add_three_behind(rt.alloc(), pass)?;
        if is_second {
            assert!(rt; is_there);
            return Ok(());
        }
    }
    Err("the second command was never unsure".into())
}

/// The same bytes `count` times.
fn repeat(alloc: Global, bytes: &[u8], count: usize) -> Result<Vec<u8>, Fail> {
    let mut all = Vec::new(alloc);
    for _ in 0..count {
        all.extend_from_slice(bytes)?;
    }
    Ok(all)
}

/// The result of a script on a new disk of 256 slots in each half, and whether these are the last
/// replies.
fn end_of(
    alloc: Global,
    script: &[u8],
    last: &[u8],
) -> Result<(Result<Outcome, ApplyFault>, bool), Fail> {
    let (written, outcome, _disk) = replies(alloc, script, new_disk_of(alloc, 256)?);
    Ok((outcome, written.as_slice().ends_with(last)))
}

// A half has room for 127 of them.
#[test]
fn a_script_of_1200_commands_is_done(rt: HostRuntime) -> Result<(), Fail> {
    let script = repeat(rt.alloc(), b"loader a\nunload a\n", 600)?;
    let end = end_of(rt.alloc(), &script, b"ok 1199\nok 1200\n")?;
    assert_eq!(rt; end, (Ok(FINE), true));
    Ok(())
}

fn loader_line(alloc: Global, number: u32) -> Result<String, Fail> {
    Ok(format!(in alloc; "loader l{number}\n")?)
}

/// A script that adds loaders of this many names, then unloads the first, and adds it again with
/// another.
fn loaders(alloc: Global, count: u32) -> Result<Vec<u8>, Fail> {
    let mut script = Vec::new(alloc);
    for number in 0..count {
        script.extend_from_slice(loader_line(alloc, number)?.as_bytes())?;
    }
    script.extend_from_slice(b"unload l0\nloader l0\nloader z\n")?;
    Ok(script)
}

#[test]
fn a_journal_is_full_of_what_lives(rt: HostRuntime) -> Result<(), Fail> {
    let script = loaders(rt.alloc(), 129)?;
    let last = b"ok 127\nok 128\nrefused 7 journal full\nok 129\nok 130\nrefused 7 journal full\n";
    let end = end_of(rt.alloc(), &script, last)?;
    assert_eq!(rt; end, (Ok(REFUSED), true));
    Ok(())
}

#[test]
fn a_script_of_70000_lines_is_answered(rt: HostRuntime) -> Result<(), Fail> {
    let script = repeat(rt.alloc(), b"find nobody A\n", 70_000)?;
    let replies = repeat(rt.alloc(), b"none\n", 70_000)?;
    let answer = answer_to(rt.alloc(), &script, &replies)?;
    assert_eq!(rt; answer, (Ok(FINE), true));
    Ok(())
}

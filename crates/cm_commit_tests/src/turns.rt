//! Groups of commands as values, so that a test is a table of groups with how many device calls
//! each takes, and of moments at which a crash comes.

use crate::events::{Exchange, Happens, Told};
use cm_commands::Refusal;

/// Bytes that names of loaders have: 91 of them, each once.
const LETTERS: &[u8] = b"!#$%&'()*+-./0123456789:;<=>?@ABCDEFGHIJKLMNOPQRSTUVWXYZ[]^_`\
    abcdefghijklmnopqrstuvwxyz{|}~";

/// The same bytes, each twice.
const TWICE: &[u8] = b"!#$%&'()*+-./0123456789:;<=>?@ABCDEFGHIJKLMNOPQRSTUVWXYZ[]^_`\
    abcdefghijklmnopqrstuvwxyz{|}~\
    !#$%&'()*+-./0123456789:;<=>?@ABCDEFGHIJKLMNOPQRSTUVWXYZ[]^_`\
    abcdefghijklmnopqrstuvwxyz{|}~";

/// The name of a loader by its turn: of 181 consecutive ones no two are the same.
pub fn name(turn: usize) -> &'static [u8] {
    let at = turn % 181;
    let (from, long) = if at < 91 { (at, 1) } else { (at - 91, 2) };
    LETTERS.get(from..from + long).unwrap_or(&[])
}

/// A name of 96 bytes by its turn: of 86 consecutive ones no two are the same.
pub fn long_name(turn: usize) -> &'static [u8] {
    let at = turn % 86;
    TWICE.get(at..at + 96).unwrap_or(&[])
}

/// A group: how many of the oldest loaders are unloaded, how many are then added, and how many
/// device calls it takes.
pub type Turn = (usize, usize, usize);

/// How many times a group is made.
pub type Run = (usize, Turn);

/// How a group is stopped: after this many device calls; in the next, if it says how many bytes
/// that call stores; and what happens then.
pub type Stop = (usize, Option<usize>, Happens);

const FULL: Told = Told::Refused(Refusal::JournalFull);

/// Whose turn it is: how many loaders were added and unloaded, and the number of the last command.
#[derive(Clone, Copy)]
pub struct Course {
    pub come: usize,
    pub gone: usize,
    pub number: u64,
}

/// Nothing was added yet.
pub const START: Course = Course {
    come: 0,
    gone: 0,
    number: 0,
};

impl Course {
    fn next_number(&mut self) -> Told {
        self.number = self.number.wrapping_add(1);
        Told::Number(self.number)
    }

    // The oldest loader is unloaded.
    fn go(&mut self) -> Exchange {
        let gone = self.gone;
        self.gone = gone.wrapping_add(1);
        (Happens::Goes(name(gone)), self.next_number())
    }

    // The next loader is added.
    fn come(&mut self) -> Exchange {
        let come = self.come;
        self.come = come.wrapping_add(1);
        (Happens::Comes(name(come)), self.next_number())
    }
}

fn push_commands(
    list: &mut Vec<Exchange>,
    course: &mut Course,
    goes: usize,
    comes: usize,
) -> Option<()> {
    for _loader in 0..goes {
        list.push(course.go()).ok()?;
    }
    for _loader in 0..comes {
        list.push(course.come()).ok()?;
    }
    Some(())
}

// Device calls that are no group's last.
fn push_calls(list: &mut Vec<Exchange>, calls: usize) -> Option<()> {
    for _call in 0..calls {
        list.push((Happens::Advance, Told::Working)).ok()?;
    }
    Some(())
}

// The commands of a group, which is handed out.
fn push_group(
    list: &mut Vec<Exchange>,
    course: &mut Course,
    goes: usize,
    comes: usize,
) -> Option<()> {
    let first = course.number.wrapping_add(1);
    push_commands(list, course, goes, comes)?;
    list.push((Happens::Seal, Told::Group(first, course.number)))
        .ok()
}

// A group that is handed out and stored, and learnt.
fn push_turn(list: &mut Vec<Exchange>, course: &mut Course, turn: Turn) -> Option<()> {
    let (goes, comes, calls) = turn;
    push_group(list, course, goes, comes)?;
    push_calls(list, calls.saturating_sub(1))?;
    list.push((Happens::Advance, Told::Done(course.number)))
        .ok()?;
    list.push((Happens::Learn, Told::Learnt(course.number)))
        .ok()
}

/// The file is opened again, and has the oldest loader and the newest one, if any is live.
pub fn push_opening(list: &mut Vec<Exchange>, course: &Course) -> Option<()> {
    list.push((Happens::Reopen, Told::Opened(course.number)))
        .ok()?;
    if course.gone < course.come {
        let exists = Told::Refused(Refusal::LoaderExists);
        list.push((Happens::Comes(name(course.gone)), exists)).ok()?;
        let newest = course.come.saturating_sub(1);
        list.push((Happens::Comes(name(newest)), exists)).ok()?;
    }
    Some(())
}

// A group this many times; after each the file is opened again if `opens` says so.
fn push_run(list: &mut Vec<Exchange>, course: &mut Course, run: Run, opens: bool) -> Option<()> {
    let (times, turn) = run;
    for _time in 0..times {
        push_turn(list, course, turn)?;
        if opens {
            push_opening(list, course)?;
        }
    }
    Some(())
}

/// Groups one after another; after each the file is opened again if `opens` says so.
pub fn push_runs(
    list: &mut Vec<Exchange>,
    course: &mut Course,
    runs: &[Run],
    opens: bool,
) -> Option<()> {
    for run in runs {
        push_run(list, course, *run, opens)?;
    }
    Some(())
}

// A fault, if the next call is to fail after storing this many bytes.
fn push_fault(list: &mut Vec<Exchange>, stores: Option<usize>) -> Option<()> {
    if let Some(stores) = stores {
        list.push((Happens::Fault(stores), Told::Armed)).ok()?;
        list.push((Happens::Advance, Told::DeviceFailed)).ok()?;
    }
    Some(())
}

/// A group is handed out, after which there is no room for one more loader, and stopped: the file
/// is as if the group had never existed.
pub fn push_stop(
    list: &mut Vec<Exchange>,
    course: &Course,
    group: (usize, usize),
    stop: &Stop,
) -> Option<()> {
    let (calls, stores, end) = *stop;
    let mut asked = *course;
    push_group(list, &mut asked, group.0, group.1)?;
    list.push((Happens::Comes(name(asked.come)), FULL)).ok()?;
    push_calls(list, calls)?;
    push_fault(list, stores)?;
    list.push((end, Told::Opened(course.number))).ok()
}

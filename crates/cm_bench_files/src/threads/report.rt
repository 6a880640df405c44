//! What is printed.

use crate::file::Counts as CallCounts;
use crate::threads::defining::Looks;
use crate::threads::mixing::{Answer, Asked, Step};
use crate::threads::running::Outcome;
use crate::threads::scene::Scene;
use anyhow::Result;
use cm_library::Counts;
use std::alloc::{AllocError, Global};

/// Prints what was counted when the cache was closed.
pub fn print_counts(rt: &impl Print, counts: Counts) -> Result<()> {
    let Counts {
        handed,
        committed,
        of_passes,
        missing,
    } = counts;
    println!(rt; "handed {handed} committed {committed} of_passes {of_passes} missing {missing}")?;
    Ok(())
}

/// What a call requests: its verb, its loaders, and the number of its class, from 0.
fn asked_text(alloc: Global, scene: &Scene<'_>, asked: Asked) -> Result<String, AllocError> {
    let name = |loader| scene.loader(loader);
    match asked {
        Asked::Loader(loader) => format!(in alloc; "loader {}", name(loader)),
        Asked::Unload(loader) => format!(in alloc; "unload {}", name(loader)),
        Asked::Tighten(loader) => format!(in alloc; "tighten {}", name(loader)),
        Asked::UnloadAll(first, second) => {
            format!(in alloc; "unloadall {} {}", name(first), name(second))
        }
        Asked::Define(loader, class) => format!(in alloc; "define {} {class}", name(loader)),
        Asked::Find(loader, class) => format!(in alloc; "find {} {class}", name(loader)),
    }
}

fn answer_text(alloc: Global, answer: Answer) -> Result<String, AllocError> {
    match answer {
        Answer::Number(number) => format!(in alloc; "ok {number}"),
        Answer::Unsure(number) => format!(in alloc; "unsure {number}"),
        Answer::Refused(number) => format!(in alloc; "refused {number}"),
        Answer::Words(words) => format!(in alloc; "words {words}"),
        Answer::Nothing => String::from_str(alloc, "none"),
    }
}

/// Prints a call of a thread, with its result if it has returned. The line is written at once, so
/// that lines of several threads don't mix.
pub fn print_live(
    rt: &impl Print,
    alloc: Global,
    scene: &Scene<'_>,
    thread: u32,
    asked: Asked,
    answer: Option<Answer>,
) -> Result<()> {
    let asked = asked_text(alloc, scene, asked)?;
    let line = match answer {
        Some(answer) => {
            let answer = answer_text(alloc, answer)?;
            format!(in alloc; "{thread} {asked}: {answer}\n")?
        }
        None => format!(in alloc; "{thread} {asked}\n")?,
    };
    print!(rt; "{line}")?;
    Ok(())
}

fn print_step(rt: &impl Print, alloc: Global, scene: &Scene<'_>, step: Step) -> Result<()> {
    let asked = asked_text(alloc, scene, step.asked)?;
    let answer = answer_text(alloc, step.answer)?;
    println!(rt; "{asked}: {answer}")?;
    Ok(())
}

/// Prints each call of each thread with its result, in the thread's order, and what was counted.
pub fn print_steps(
    rt: &(impl Print + AllocGlobal),
    scene: &Scene<'_>,
    outcomes: &[Outcome],
    counts: Counts,
) -> Result<()> {
    for outcome in outcomes {
        if let Outcome::Steps(steps) = outcome {
            println!(rt; "thread")?;
            for step in steps {
                print_step(rt, rt.alloc(), scene, *step)?;
            }
        }
    }
    print_counts(rt, counts)
}

/// Prints the result of each line, with its number, from 1, thread by thread, and what was counted.
pub fn print_replies(
    rt: &(impl Print + AllocGlobal),
    outcomes: &[Outcome],
    counts: Counts,
) -> Result<()> {
    for outcome in outcomes {
        if let Outcome::Replies(replies) = outcome {
            println!(rt; "thread")?;
            for reply in replies {
                let answer = answer_text(rt.alloc(), reply.answer)?;
                println!(rt; "{}: {answer}", reply.line.saturating_add(1))?;
            }
        }
    }
    print_counts(rt, counts)
}

/// What threads did together.
#[derive(Clone, Copy)]
struct Sums {
    stored: u64,
    looks: Looks,
}

fn add_up(outcomes: &[Outcome]) -> Sums {
    let mut stored = 0u64;
    let mut looks = Looks::NONE;
    for outcome in outcomes {
        match outcome {
            Outcome::Stored(more) => stored = stored.wrapping_add(*more),
            Outcome::Looks(more) => looks.join(*more),
            Outcome::Steps(_) | Outcome::Replies(_) => {}
        }
    }
    Sums { stored, looks }
}

/// Prints how many commands were stored and, if times are requested, in how many syncs and
/// nanoseconds, and what a lookup took.
pub fn print_sums(
    rt: &impl Print,
    outcomes: &[Outcome],
    counts: Counts,
    calls: CallCounts,
    time: Option<u128>,
) -> Result<()> {
    let Sums { stored, looks } = add_up(outcomes);
    print!(rt; "stored {stored} ")?;
    print_counts(rt, counts)?;
    if let Some(time) = time {
        let syncs = calls.syncs;
        println!(rt; "stored with {syncs} syncs in {time} ns")?;
        print_looks(rt, looks)?;
    }
    Ok(())
}

fn print_looks(rt: &impl Print, looks: Looks) -> Result<()> {
    let (calls, found) = (looks.calls, looks.found);
    let each = looks.time.as_nanos() / (calls as u128).max(1);
    let longest = looks.longest.as_nanos();
    println!(rt; "looked up {calls} found {found} in {each} ns each, {longest} ns at most")?;
    Ok(())
}

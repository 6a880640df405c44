//! From the words of a command line to what it requests.
ghost use Rattle.std.specs.Prelude.{◌≡◌, ◌≢◌, ◌<◌, ◌≤◌, ◌⊎◌, IfOk, IfSome, Some, Contains};
ghost use Rattle.std.specs.Prelude.{None, codes, map};
ghost use Rattle.clap.specs.Words.{first_value, found_of, kind_of};
ghost use Rattle.clap.specs.declared.error.kind.ErrorKind.TheVariants.{DisplayHelp, DisplayVersion};
ghost use Rattle.clap.specs.declared.error.kind.ErrorKind.TheVariants.{OutOfMemory};
ghost use Rattle.clap.specs.declared.error.kind.ErrorKind.TheVariants.{ValueValidation};
ghost use Rattle.cm_arguments.specs.Action.{IsOfWords, IsHelp, IsUsageError, most_workers};
ghost use Rattle.cm_arguments.specs.declared.fault.UsageFault.TheVariants.{NoMemory};

use crate::command::{APPLY, CHECK, FILE, FORMAT, LIST, MEMORY, MEMORY_WORD, TRIM, whole_command};
use crate::number::{ROOTS, SLOTS, TOP, WORKERS};
use crate::{Action, UsageFault};
use clap::ArgMatches;
use clap::error::{Error, ErrorKind};
use cm_pool::Geometry;
use std::alloc::{AllocError, Global};

/// Reads the words of a command line, which begin after the program's name.
///
/// # Errors
/// [`UsageFault::Help`] if they request help; [`UsageFault::Words`] if they are wrong, or a number
/// is outside its limits; [`UsageFault::NoMemory`] if an allocation failed.
pub fn parse<'a>(alloc: Global, words: &'a [&'a str]) -> Result<Action<'a>, UsageFault>
    ensures { IfOk result (IsOfWords words.now) }
{
    let matches = match whole_command(alloc)?.try_get_matches_from(words) {
        Ok(matches) => matches,
        Err(error) => return Err(fault_of(alloc, &error)),
    };
    match action_of(&matches, words) {
        Some(action) => Ok(action),
        None => Err(wrong_words(alloc, "unknown command")),
    }
}

/// The fault of words that can't be read at all, as when one of them isn't UTF-8: its text begins
/// with `why` and says how the program is used.
pub fn wrong_words(alloc: Global, why: &str) -> UsageFault
    ensures no_help { ¬ IsHelp result }
{
    match usage_error(alloc, why) {
        Ok(error) => fault_of(alloc, &error),
        Err(_) => UsageFault::NoMemory,
    }
}

fn usage_error(alloc: Global, why: &str) -> Result<Error, AllocError>
    ensures { IfOk result (λ error. kind_of error ≡ ValueValidation) }
{
    whole_command(alloc)?.error(ErrorKind::ValueValidation, why)
}

fn fault_of(alloc: Global, error: &Error) -> UsageFault
    ensures memory { kind_of error.now ≡ OutOfMemory → result ≡ NoMemory }
    ensures help { IsHelp result
        → (kind_of error.now ≡ DisplayHelp) ⊎ (kind_of error.now ≡ DisplayVersion) }
    ensures words { IsUsageError result
        → (kind_of error.now ≢ DisplayHelp) × (kind_of error.now ≢ DisplayVersion) }
{
    if error.kind() == ErrorKind::OutOfMemory {
        return UsageFault::NoMemory;
    }
    match error.to_string(alloc) {
        Ok(text) if error.use_stderr() => UsageFault::Words(text),
        Ok(text) => UsageFault::Help(text),
        Err(_) => UsageFault::NoMemory,
    }
}

/// What the words that `clap` accepted request. None of its clauses says which word is the command
/// or the path, or that a number is within its limits, so this is checked again.
fn action_of<'a>(matches: &ArgMatches<'a>, words: &'a [&'a str]) -> Option<Action<'a>>
    ensures { IfSome result (IsOfWords words.now) }
{
    let (_, given) = matches.subcommand()?;
    let (command, rest) = words.split_first()?;
    match *command {
        FORMAT => Some(Action::Format(path_of(given, rest)?, geometry_of(given)?)),
        CHECK => Some(Action::Check(path_of(given, rest)?)),
        LIST => Some(Action::List(path_of(given, rest)?)),
        TRIM => Some(Action::Trim(path_of(given, rest)?)),
        APPLY => Some(Action::Apply(place_of(given, rest)?, workers_of(given)?)),
        _ => None,
    }
}

/// Where a script is to run, if one is: on the cache in a file, or in memory.
fn place_of<'a>(given: &ArgMatches<'a>, words: &'a [&'a str]) -> Option<Option<&'a str>>
    ensures path { IfSome result (λ path. IfSome path (Contains words.now)) }
    ensures memory { IfSome result (λ path.
        path ≡ None → Contains (map (λ w. w.now) words.now) (codes "--memory")) }
{
    if given.get_flag(MEMORY) {
        find(words, MEMORY_WORD)?;
        return Some(None);
    }
    Some(Some(path_of(given, words)?))
}

fn path_of<'a>(given: &ArgMatches<'a>, words: &'a [&'a str]) -> Option<&'a str>
    ensures word { IfSome result (Contains words.now) }
    ensures given { IfSome result (λ path.
        first_value (found_of given.now) (codes "FILE") ≡ Some path.now) }
{
    find(words, given.get_str(FILE)?)
}

/// The first of the words that is this text.
fn find<'a>(words: &'a [&'a str], text: &str) -> Option<&'a str>
    ensures word { IfSome result (Contains words.now) }
    ensures text { IfSome result (λ word. word.now ≡ text.now) }
{
    words.iter().copied().find(|word| *word == text)
}

fn workers_of(given: &ArgMatches<'_>) -> Option<u32>
    ensures least { IfSome result (λ n. 0 < n) }
    ensures most { IfSome result (λ n. n ≤ most_workers) }
{
    let workers = given.get_one(WORKERS.name)?;
    if workers < WORKERS.least || workers > WORKERS.most {
        return None;
    }
    Some(workers)
}

fn geometry_of(given: &ArgMatches<'_>) -> Option<Geometry> {
    Geometry::new(
        given.get_one(TOP.name)?,
        given.get_one(ROOTS.name)?,
        given.get_one(SLOTS.name)?,
    )
}

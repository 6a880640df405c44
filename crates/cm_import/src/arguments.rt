//! The command line.

use clap::error::{Error, ErrorKind};
use clap::{Arg, ArgAction, ArgMatches, Command, value_parser};
use cm_arguments::{Number, Printed, ROOTS, SLOTS, TOP, WordsFault, print_text, words};
use cm_maintenance::Status;
use std::alloc::{AllocError, Global};
use std::num::NonZeroUsize;
use std::rt::Env;
use std::thread::{Threads, available_parallelism};

const FILE: &str = "FILE";

const LOADER: &str = "LOADER";

const PATHS: &str = "PATH";

const NEW: &str = "new";

const WORKERS: &str = "workers";

const TAG: &str = "tag";

const KEEP: &str = "keep";

const REPLACE: &str = "replace";

const DRY_RUN: &str = "dry-run";

const PRINT_TAG: &str = "print-tag";

const MEMORY: &str = "memory";

/// The most threads that prepare classes.
const MOST_WORKERS: u32 = 16;

/// The sizes of a new file, as far as they are given.
#[derive(Clone, Copy, Debug)]
pub struct Wanted {
    pub top: Option<u32>,
    pub roots: Option<u32>,
    pub slots: Option<u32>,
}

/// What the command line asks for.
#[derive(Debug, Drop)]
pub enum Request {
    /// To import classes.
    Import(Import),
    /// To print the tag of what these paths hold.
    PrintTag(Vec<String>),
    /// To say which sizes of a file hold the classes of these paths.
    Sizes(Vec<String>, NonZeroUsize),
    /// Nothing more: the help or a usage text was printed. The status to end with.
    Printed(Status),
}

/// What becomes of loaders of the same name with another tag.
#[derive(Clone, Copy, Debug, PartialEq, Eq)]
pub enum Others {
    /// They are unloaded once all is imported.
    Unloaded,
    /// They stay.
    Kept,
}

/// To import what the paths hold into a loader of a file's cache.
#[derive(Debug, Drop)]
pub struct Import {
    pub file: String,
    pub loader: String,
    pub paths: Vec<String>,
    /// That the file is made first.
    pub new: Option<Wanted>,
    /// How many threads prepare classes.
    pub workers: NonZeroUsize,
    /// That the tag of what the paths hold stands after the loader's name.
    pub tag: Option<Others>,
    /// That the loader is made anew if it has a class that the paths don't have.
    pub replaces: bool,
    /// That nothing is done, and only said what would be.
    pub is_dry: bool,
}

fn word<'a>(alloc: Global, name: &'a str, help: &'a str) -> Arg<'a> {
    Arg::new(alloc, name)
        .value_name(name)
        .help(help)
        .required(true)
        .action(ArgAction::Set)
}

/// A number that only a new file may have.
fn size<'a>(alloc: Global, number: Number, help: &'a str) -> Result<Arg<'a>, AllocError> {
    Arg::new(alloc, number.name)
        .long(number.name)
        .value_name("N")
        .help(help)
        .action(ArgAction::Set)
        .value_parser(value_parser!(u32).range(i64::from(number.least)..=i64::from(number.most)))
        .requires_arg(NEW)
}

/// A word that is there or not.
fn flag<'a>(alloc: Global, name: &'a str, help: &'a str) -> Arg<'a> {
    Arg::new(alloc, name)
        .long(name)
        .help(help)
        .action(ArgAction::SetTrue)
}

/// Something else that is done with paths.
fn alone<'a>(alloc: Global, name: &'a str, help: &'a str) -> Arg<'a> {
    Arg::new(alloc, name)
        .long(name)
        .value_name(PATHS)
        .num_args(1..)
        .help(help)
        .action(ArgAction::Set)
        .exclusive(true)
}

/// With which sizes a new file is made.
fn with_sizes<'a>(alloc: Global, command: Command<'a>) -> Result<Command<'a>, AllocError> {
    command
        .arg(flag(
            alloc,
            NEW,
            "Make FILE first, with an empty cache; it must not exist",
        ))?
        .arg(size(
            alloc,
            TOP,
            "With --new: the order of a root: it has 128 * 2^N words",
        )?)?
        .arg(size(
            alloc,
            ROOTS,
            "With --new: the most roots that the cache may have",
        )?)?
        .arg(size(
            alloc,
            SLOTS,
            "With --new: the slots in each half of the journal",
        )?)
}

/// What is done with a loader that is there.
fn with_changes<'a>(alloc: Global, command: Command<'a>) -> Result<Command<'a>, AllocError> {
    let replace = flag(
        alloc,
        REPLACE,
        "Make the loader anew if a class of it changed or is gone",
    );
    let dry_run = flag(alloc, DRY_RUN, "Change nothing, and say what would be done");
    let tag = flag(
        alloc,
        TAG,
        "Put @ and the tag of the paths after LOADER; then unload other tags",
    );
    let keep = flag(alloc, KEEP, "With --tag: keep the loaders of other tags");
    command
        .arg(replace)?
        .arg(dry_run.conflicts_with(NEW)?)?
        .arg(tag.conflicts_with(REPLACE)?)?
        .arg(keep.requires_arg(TAG)?)
}

fn whole_command<'a>(alloc: Global) -> Result<Command<'a>, AllocError> {
    let workers = Arg::new(alloc, WORKERS)
        .long(WORKERS)
        .value_name("N")
        .help("The threads that prepare classes [default: the processors]")
        .action(ArgAction::Set)
        .value_parser(value_parser!(u32).range(1..=i64::from(MOST_WORKERS)));
    let print_tag = alone(
        alloc,
        PRINT_TAG,
        "Print the tag of the paths, and do nothing else",
    );
    let memory = alone(
        alloc,
        MEMORY,
        "Print which sizes hold the classes of the paths, without a file",
    );
    let command = Command::new(alloc, "cm_import")
        .about("Import the classes of files, folders and jars into a loader of a cache file")
        .bin_name("cm_import")?
        .arg(word(alloc, FILE, "The cache file"))?
        .arg(word(alloc, LOADER, "The loader; it is added if it isn't there"))?
        .arg(word(alloc, PATHS, "Class files, folders and jars").num_args(1..))?;
    with_changes(alloc, with_sizes(alloc, command)?)?
        .arg(workers)?
        .arg(print_tag)?
        .arg(memory)
}

/// Prints the help, or what is wrong with the words.
fn print_instead(rt: &(impl Print + Eprint), text: &Error) -> Result<Request, WordsFault> {
    match print_text(rt, text)? {
        Printed::Help => Ok(Request::Printed(Status::Done)),
        Printed::Usage => Ok(Request::Printed(Status::WrongWords)),
    }
}

/// Reads the command line; prints the help, or what is wrong with it.
pub fn read_words<R>(rt: &R) -> Result<Request, WordsFault>
where
    R: Env + Print + Eprint + AllocGlobal + Threads,
{
    let mut command = whole_command(rt.alloc())?;
    let Some(words) = words(rt)? else {
        let text = command.error(ErrorKind::ValueValidation, "an argument is not UTF-8")?;
        return print_instead(rt, &text);
    };
    match command.try_get_matches_from(words.as_slice()) {
        Ok(matches) => Ok(request_of(rt, &matches)?),
        Err(text) => print_instead(rt, &text),
    }
}

/// The words of an argument.
fn words_of(alloc: Global, given: &ArgMatches<'_>, name: &str) -> Result<Vec<String>, AllocError> {
    let mut words = Vec::new(alloc);
    for word in given.get_strs(name).unwrap_or(&[]) {
        words.push(String::from_str(alloc, word)?)?;
    }
    Ok(words)
}

/// What words ask for that `clap` took.
fn request_of<R>(rt: &R, given: &ArgMatches<'_>) -> Result<Request, AllocError>
where
    R: AllocGlobal + Threads,
{
    let tagged = words_of(rt.alloc(), given, PRINT_TAG)?;
    let sized = words_of(rt.alloc(), given, MEMORY)?;
    if !tagged.is_empty() {
        Ok(Request::PrintTag(tagged))
    } else if !sized.is_empty() {
        Ok(Request::Sizes(sized, workers_of(rt, given)))
    } else {
        Ok(Request::Import(import_of(rt, given)?))
    }
}

/// Which import words ask for.
fn import_of<R>(rt: &R, given: &ArgMatches<'_>) -> Result<Import, AllocError>
where
    R: AllocGlobal + Threads,
{
    let alloc = rt.alloc();
    let paths = words_of(alloc, given, PATHS)?;
    Ok(Import {
        file: String::from_str(alloc, given.get_str(FILE).unwrap_or(""))?,
        loader: String::from_str(alloc, given.get_str(LOADER).unwrap_or(""))?,
        paths,
        new: sizes_of_new(given),
        workers: workers_of(rt, given),
        tag: others_of(given),
        replaces: given.get_flag(REPLACE),
        is_dry: given.get_flag(DRY_RUN),
    })
}

/// Whether the loader has a tag, and what then becomes of other ones.
fn others_of(given: &ArgMatches<'_>) -> Option<Others> {
    if !given.get_flag(TAG) {
        return None;
    }
    if given.get_flag(KEEP) {
        Some(Others::Kept)
    } else {
        Some(Others::Unloaded)
    }
}

/// The sizes of a new file, if one is to be made.
fn sizes_of_new(given: &ArgMatches<'_>) -> Option<Wanted> {
    if !given.get_flag(NEW) {
        return None;
    }
    Some(Wanted {
        top: given.get_one(TOP.name),
        roots: given.get_one(ROOTS.name),
        slots: given.get_one(SLOTS.name),
    })
}

/// The number of workers: as many as there are processors, if none is given.
fn workers_of<R: Threads>(rt: &R, given: &ArgMatches<'_>) -> NonZeroUsize {
    let wanted: Option<u32> = given.get_one(WORKERS);
    let workers = match wanted {
        Some(workers) => workers as usize,
        None => match available_parallelism(rt) {
            Ok(processors) => processors.get(),
            Err(_) => 1,
        },
    };
    NonZeroUsize::new(workers.min(MOST_WORKERS as usize)).unwrap_or(NonZeroUsize::MIN)
}

//! The command line as `clap` reads it.

use crate::number::{ROOTS, SLOTS, TOP, WORKERS};
use clap::{Arg, ArgAction, Command};
use std::alloc::{AllocError, Global};

const PROGRAM: &str = "cmcache";

// The version is that of the newest heading in CHANGELOG.md.
const ABOUT: &str = "A crash-safe cache of class metadata, version 0.2.0";

// The names of the commands and of their arguments.
pub const FORMAT: &str = "format";

pub const CHECK: &str = "check";

pub const LIST: &str = "list";

pub const TRIM: &str = "trim";

pub const APPLY: &str = "apply";

pub const FILE: &str = "FILE";

pub const MEMORY: &str = "memory";

/// How a command line requests it.
pub const MEMORY_WORD: &str = "--memory";

fn file<'a>(alloc: Global, help: &'a str) -> Arg<'a> {
    Arg::new(alloc, FILE)
        .value_name("FILE")
        .help(help)
        .action(ArgAction::Set)
}

fn format_command<'a>(alloc: Global) -> Result<Command<'a>, AllocError> {
    Command::new(alloc, FORMAT)
        .about("Make a new file with an empty cache")
        .arg(file(alloc, "The file to make; it must not exist").required(true))?
        .arg(TOP.arg(alloc))?
        .arg(ROOTS.arg(alloc))?
        .arg(SLOTS.arg(alloc))
}

/// A command that only takes a file.
fn file_command<'a>(
    alloc: Global,
    name: &'a str,
    about: &'a str,
) -> Result<Command<'a>, AllocError> {
    Command::new(alloc, name)
        .about(about)
        .arg(file(alloc, "The cache file").required(true))
}

fn apply_command<'a>(alloc: Global) -> Result<Command<'a>, AllocError> {
    let file = file(alloc, "The cache file")
        .required_unless_present(MEMORY)?
        .conflicts_with(MEMORY)?;
    let memory = Arg::new(alloc, MEMORY)
        .long(MEMORY)
        .help("Use a cache in memory, discarded at the end")
        .action(ArgAction::SetTrue);
    Command::new(alloc, APPLY)
        .about(
            "Run a script from standard input: lines `loader NAME`, `unload NAME`, \
             `unloadall NAME NAME ..`, `tighten NAME`, `define NAME HEX`, `find NAME CLASS`",
        )
        .arg(file)?
        .arg(memory)?
        .arg(WORKERS.arg(alloc))
}

/// The commands that only take a file, and what each does.
const FILE_COMMANDS: [(&str, &str); 3] = [
    (CHECK, "Check a cache file for damage"),
    (LIST, "List the loaders and classes of a cache file"),
    (TRIM, "Truncate a cache file after its last root in use"),
];

/// All commands. The words that it reads begin after the program's name.
pub(crate) fn whole_command<'a>(alloc: Global) -> Result<Command<'a>, AllocError> {
    let mut whole = Command::new(alloc, PROGRAM)
        .about(ABOUT)
        .no_binary_name(true)
        .bin_name(PROGRAM)?
        .subcommand_required(true)
        .subcommand(format_command(alloc)?)?;
    for (name, about) in FILE_COMMANDS {
        whole = whole.subcommand(file_command(alloc, name, about)?)?;
    }
    whole.subcommand(apply_command(alloc)?)
}

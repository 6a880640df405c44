//! The command line.

use anyhow::{Result, bail};
use clap::{Arg, ArgAction, ArgMatches, Command, value_parser};
use std::alloc::{AllocError, Global};
use std::env;
use std::rt::Env;

/// What the command line requests.
#[derive(Clone, Copy, Debug)]
pub enum Request {
    /// To run the steps on class files, each in this many timed passes; with `None`, once, and only
    /// to print counts.
    Classes(Option<u32>),
    /// To print what the records of class files say about methods.
    Methods,
    /// To make calls on accepted caches, in this many timed passes; with `None`, once, and only to
    /// print counts.
    Front(Option<u32>),
    /// Nothing more: the help or a usage text was printed. The value is the exit status.
    Printed(u8),
}

fn passes<'a>(alloc: Global) -> Arg<'a> {
    Arg::new(alloc, "passes")
        .long("passes")
        .value_name("N")
        .help("Run it all N times, and print the best times too")
        .action(ArgAction::Set)
        .value_parser(value_parser!(u32).range(1..))
}

fn methods<'a>(alloc: Global) -> Arg<'a> {
    Arg::new(alloc, "methods")
        .long("methods")
        .help("Print each method's max stack, max locals and code length instead")
        .action(ArgAction::SetTrue)
}

fn classes_command<'a>(alloc: Global) -> Result<Command<'a>, AllocError> {
    Command::new(alloc, "classes")
        .about("Reads, judges and records the classes on standard input")
        .arg(passes(alloc))?
        .arg(methods(alloc))
}

fn front_command<'a>(alloc: Global) -> Result<Command<'a>, AllocError> {
    Command::new(alloc, "front")
        .about("Fills caches and makes calls of each kind on them")
        .arg(passes(alloc))
}

fn whole_command<'a>(alloc: Global) -> Result<Command<'a>, AllocError> {
    Command::new(alloc, "cm_bench")
        .about("What the parts of a cache cost; each class is preceded by its length (4 bytes)")
        .subcommand_required(true)
        .subcommand(classes_command(alloc)?)?
        .subcommand(front_command(alloc)?)
}

/// What the words that `clap` accepted request; `None` if they aren't known.
fn request_of(words: &ArgMatches<'_>) -> Option<Request> {
    let (name, given) = words.subcommand()?;
    match name {
        "classes" if given.get_flag("methods") => Some(Request::Methods),
        "classes" => Some(Request::Classes(given.get_one("passes"))),
        "front" => Some(Request::Front(given.get_one("passes"))),
        _ => None,
    }
}

/// Reads the command line; prints the help, or what is wrong with it.
pub fn read_words(rt: &(impl Env + Print + Eprint + AllocGlobal)) -> Result<Request> {
    let alloc = rt.alloc();
    let words: Vec<String> = env::args(rt)?.collect(alloc)?;
    match whole_command(alloc)?.try_get_matches_from(words.as_slice()) {
        Ok(matches) => match request_of(&matches) {
            Some(request) => Ok(request),
            None => bail!("unknown command"),
        },
        Err(error) => {
            error.print(rt)?;
            Ok(Request::Printed(if error.exit_code() == 0 { 0 } else { 2 }))
        }
    }
}

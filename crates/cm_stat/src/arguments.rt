//! The command line.

use clap::error::{Error, ErrorKind};
use clap::{Arg, ArgAction, Command};
use cm_arguments::{Printed, WordsFault, print_text, words};
use cm_maintenance::Status;
use std::alloc::{AllocError, Global};
use std::rt::Env;

const PROGRAM: &str = "cm_stat";

const FILE: &str = "FILE";

const JSON: &str = "json";

/// What the command line requests.
#[derive(Debug, Drop)]
pub enum Request {
    /// To report on the cache in the file at this path, as JSON or as lines.
    Report { path: String, json: bool },
    /// Nothing more: the help or a usage text was printed. The status to end with.
    Printed(Status),
}

fn whole_command<'a>(alloc: Global) -> Result<Command<'a>, AllocError> {
    let file = Arg::new(alloc, FILE)
        .value_name("FILE")
        .help("The cache file")
        .action(ArgAction::Set)
        .required(true);
    let json = Arg::new(alloc, JSON)
        .long(JSON)
        .help("Print one JSON object")
        .action(ArgAction::SetTrue);
    Command::new(alloc, PROGRAM)
        .bin_name(PROGRAM)?
        .about("Print what takes how much of a cache file, without writing to it")
        .arg(file)?
        .arg(json)
}

/// Prints the help, or what is wrong with the words.
fn print_instead(rt: &(impl Print + Eprint), text: &Error) -> Result<Request, WordsFault> {
    match print_text(rt, text)? {
        Printed::Help => Ok(Request::Printed(Status::Done)),
        Printed::Usage => Ok(Request::Printed(Status::WrongWords)),
    }
}

/// Reads the command line; prints the help, or what is wrong with it.
pub fn read_words(rt: &(impl Env + Print + Eprint + AllocGlobal)) -> Result<Request, WordsFault> {
    let alloc = rt.alloc();
    let mut command = whole_command(alloc)?;
    let Some(words) = words(rt)? else {
        let text = command.error(ErrorKind::ValueValidation, "an argument is not UTF-8")?;
        return print_instead(rt, &text);
    };
    match command.try_get_matches_from(words.as_slice()) {
        Ok(matches) => Ok(Request::Report {
            path: String::from_str(alloc, matches.get_str(FILE).unwrap_or(""))?,
            json: matches.get_flag(JSON),
        }),
        Err(text) => print_instead(rt, &text),
    }
}

//! The command line.

use crate::UNKNOWN;
use clap::error::{Error, ErrorKind};
use clap::{Arg, ArgAction, Command};
use cm_arguments::{Printed, WordsFault, print_text, words};
use std::alloc::{AllocError, Global};
use std::rt::Env;

const DISK: &str = "disk";

/// What the command line requests.
#[derive(Debug, Drop)]
pub enum Request {
    /// To run the simulation on standard input; if there is a path, the final bytes of its disk are
    /// written to that file.
    Run(Option<String>),
    /// Nothing more: the help or a usage text was printed. The status to end with.
    Printed(u8),
}

fn whole_command<'a>(alloc: Global) -> Result<Command<'a>, AllocError> {
    let disk = Arg::new(alloc, DISK)
        .long(DISK)
        .value_name("FILE")
        .help("Write the bytes there that the disk has at the end")
        .action(ArgAction::Set);
    Command::new(alloc, "cm_simulate")
        .about(
            "Run events on a cache in memory: standard input is a line `geometry TOP ROOTS SLOTS` \
             and then events, one a line",
        )
        .arg(disk)
}

/// Prints the help, or what is wrong with the words.
fn print_instead(rt: &(impl Print + Eprint), text: &Error) -> Result<Request, WordsFault> {
    match print_text(rt, text)? {
        Printed::Help => Ok(Request::Printed(0)),
        Printed::Usage => Ok(Request::Printed(UNKNOWN)),
    }
}

/// Reads the command line; prints the help, or what is wrong with it.
pub fn read_words(rt: &(impl Env + Print + Eprint + AllocGlobal)) -> Result<Request, WordsFault> {
    let alloc = rt.alloc();
    let mut command = whole_command(alloc)?;
    let Some(words) = words(rt)? else {
        let text = command.error(ErrorKind::ValueValidation, "an argument is not UTF-8")?;
        return print_instead(rt, &text);
    };
    match command.try_get_matches_from(words.as_slice()) {
        Ok(matches) => match matches.get_str(DISK) {
            Some(path) => Ok(Request::Run(Some(String::from_str(alloc, path)?))),
            None => Ok(Request::Run(None)),
        },
        Err(text) => print_instead(rt, &text),
    }
}

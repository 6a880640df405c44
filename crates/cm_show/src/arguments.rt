//! The command line.

use clap::error::{Error, ErrorKind};
use clap::{Arg, ArgAction, ArgMatches, Command};
use cm_arguments::{Printed, WordsFault, print_text, words};
use cm_lines::{NameFault, unescape};
use cm_maintenance::Status;
use std::alloc::{AllocError, Global};
use std::rt::Env;

const PROGRAM: &str = "cm_show";

const FILE: &str = "FILE";

const LOADER: &str = "LOADER";

const CLASS: &str = "CLASS";

const CONSTANTS: &str = "constants";

const JSON: &str = "json";

const CLASS_FILE: &str = "class-file";

/// A class that is to be shown.
#[derive(Debug, Drop)]
pub struct Wanted {
    pub file: String,
    pub loader: String,
    /// The name's bytes.
    pub class: Vec<u8>,
    /// That its constants are shown too.
    pub constants: bool,
    pub json: bool,
    /// Where its class file is written.
    pub class_file: Option<String>,
}

/// What the command line requests.
#[derive(Debug, Drop)]
pub enum Request {
    /// To show a class.
    Show(Wanted),
    /// Nothing more: the help or a usage text was printed. The status to end with.
    Printed(Status),
}

fn word<'a>(alloc: Global, name: &'a str, help: &'a str) -> Arg<'a> {
    Arg::new(alloc, name)
        .value_name(name)
        .help(help)
        .required(true)
        .action(ArgAction::Set)
}

fn flag<'a>(alloc: Global, name: &'a str, help: &'a str) -> Arg<'a> {
    Arg::new(alloc, name)
        .long(name)
        .help(help)
        .action(ArgAction::SetTrue)
}

fn whole_command<'a>(alloc: Global) -> Result<Command<'a>, AllocError> {
    let class_file = Arg::new(alloc, CLASS_FILE)
        .long(CLASS_FILE)
        .value_name("OUT")
        .help("Write the class file to OUT")
        .action(ArgAction::Set);
    Command::new(alloc, PROGRAM)
        .bin_name(PROGRAM)?
        .about("Print what a cache file holds of a class, without writing to the cache file")
        .arg(word(alloc, FILE, "The cache file"))?
        .arg(word(alloc, LOADER, "The loader's name"))?
        .arg(word(alloc, CLASS, "The class's name, as scripts spell it"))?
        .arg(flag(alloc, CONSTANTS, "Print the constants too"))?
        .arg(flag(alloc, JSON, "Print one JSON object"))?
        .arg(class_file)
}

/// Prints the help, or what is wrong with the words.
fn print_instead(rt: &(impl Print + Eprint), text: &Error) -> Result<Request, WordsFault> {
    match print_text(rt, text)? {
        Printed::Help => Ok(Request::Printed(Status::Done)),
        Printed::Usage => Ok(Request::Printed(Status::WrongWords)),
    }
}

/// The class that the words ask for; `None` if its name isn't spelled as names are.
fn class_wanted(alloc: Global, matches: &ArgMatches) -> Result<Option<Wanted>, AllocError> {
    let class = match unescape(alloc, matches.get_str(CLASS).unwrap_or("").as_bytes()) {
        Ok(name) => name,
        Err(NameFault::BadEscape) => return Ok(None),
        Err(NameFault::NoMemory) => return Err(AllocError),
    };
    let class_file = match matches.get_str(CLASS_FILE) {
        Some(path) => Some(String::from_str(alloc, path)?),
        None => None,
    };
    Ok(Some(Wanted {
        file: String::from_str(alloc, matches.get_str(FILE).unwrap_or(""))?,
        loader: String::from_str(alloc, matches.get_str(LOADER).unwrap_or(""))?,
        class,
        constants: matches.get_flag(CONSTANTS),
        json: matches.get_flag(JSON),
        class_file,
    }))
}

/// Reads the command line; prints the help, or what is wrong with it.
pub fn read_words(rt: &(impl Env + Print + Eprint + AllocGlobal)) -> Result<Request, WordsFault> {
    let alloc = rt.alloc();
    let mut command = whole_command(alloc)?;
    let Some(words) = words(rt)? else {
        let text = command.error(ErrorKind::ValueValidation, "an argument is not UTF-8")?;
        return print_instead(rt, &text);
    };
    let matches = match command.try_get_matches_from(words.as_slice()) {
        Ok(matches) => matches,
        Err(text) => return print_instead(rt, &text),
    };
    match class_wanted(alloc, &matches)? {
        Some(wanted) => Ok(Request::Show(wanted)),
        None => {
            let text = whole_command(alloc)?.error(
                ErrorKind::ValueValidation,
                "CLASS isn't the spelling of a name",
            )?;
            print_instead(rt, &text)
        }
    }
}

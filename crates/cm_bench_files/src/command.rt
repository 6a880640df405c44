//! The command line.

use anyhow::Result;
use clap::{Arg, ArgAction, ArgMatches, Command, value_parser};
use cm_arguments::{ROOTS, SLOTS, TOP};
use cm_pool::Geometry;
use std::alloc::{AllocError, Global};
use std::env;
use std::rt::Env;
use thiserror::Error;

/// The words request nothing that is known.
#[derive(Clone, Copy, Debug, PartialEq, Eq, Error)]
#[error("unknown command")]
struct UnknownWords;

/// How classes are stored in a file.
#[derive(Clone, Copy, Debug)]
pub struct Putting {
    pub geometry: Geometry,
    /// How many classes a commit takes.
    pub group: u32,
}

/// What is done with a file.
#[derive(Clone, Copy, Debug)]
pub enum Task {
    /// The file is made, and the classes on standard input are defined in it.
    Put(Putting),
    /// The file is opened, and each of its classes is looked up.
    Read,
}

/// A task on the file of a path, and whether its times are printed.
#[derive(Debug, Drop)]
pub struct Job {
    pub path: String,
    pub task: Task,
    pub is_timed: bool,
}

/// How threads change a cache for a while.
#[derive(Debug, Drop)]
pub struct Soaking {
    pub path: String,
    pub threads: u32,
    pub seconds: u32,
    /// Whether each call is printed before it is made, and again as it returns.
    pub is_live: bool,
}

/// How threads run a script.
#[derive(Debug, Drop)]
pub struct Scripting {
    pub path: String,
    pub threads: u32,
}

/// How threads define classes in a new file.
#[derive(Debug, Drop)]
pub struct Threading {
    pub path: String,
    pub geometry: Geometry,
    pub threads: u32,
    /// How many threads look up meanwhile.
    pub finders: u32,
    /// Whether the classes are prepared before the time that is measured.
    pub is_prepared: bool,
    pub is_timed: bool,
}

/// What the command line requests.
#[derive(Debug, Drop)]
pub enum Request {
    /// To do a task on a file.
    File(Job),
    /// To have threads change the cache in a file for a while.
    Soak(Soaking),
    /// To have threads run the script on standard input on the cache in a file.
    Script(Scripting),
    /// To have threads define classes in a new file.
    Threads(Threading),
    /// Nothing more: the help or a usage text was printed. The status to end with.
    Printed(u8),
}

/// An option that takes a whole number, with its default and its bounds.
fn number<'a>(
    alloc: Global,
    name: &'a str,
    usual: &'a str,
    bounds: (u32, u32),
    help: &'a str,
) -> Arg<'a> {
    let (least, most) = bounds;
    Arg::new(alloc, name)
        .long(name)
        .value_name("N")
        .help(help)
        .action(ArgAction::Set)
        .default_value(usual)
        .value_parser(value_parser!(u32).range(i64::from(least)..=i64::from(most)))
}

fn file<'a>(alloc: Global, help: &'a str) -> Arg<'a> {
    Arg::new(alloc, "FILE")
        .value_name("FILE")
        .help(help)
        .action(ArgAction::Set)
        .required(true)
}

fn times<'a>(alloc: Global) -> Arg<'a> {
    Arg::new(alloc, "times")
        .long("times")
        .help("Print how long it took, too")
        .action(ArgAction::SetTrue)
}

fn group<'a>(alloc: Global) -> Arg<'a> {
    number(
        alloc,
        "group",
        "1",
        (1, 64),
        "How many classes a commit takes",
    )
}

fn threads<'a>(alloc: Global, usual: &'a str) -> Arg<'a> {
    number(alloc, "threads", usual, (1, 64), "How many threads")
}

fn finders<'a>(alloc: Global) -> Arg<'a> {
    let help = "How many threads look up meanwhile";
    number(alloc, "finders", "0", (0, 64), help)
}

fn unprepared<'a>(alloc: Global) -> Arg<'a> {
    Arg::new(alloc, "unprepared")
        .long("unprepared")
        .help("Prepare each class right before it is defined")
        .action(ArgAction::SetTrue)
}

fn live<'a>(alloc: Global) -> Arg<'a> {
    Arg::new(alloc, "live")
        .long("live")
        .help("Print each call before it is made, and its result as it returns")
        .action(ArgAction::SetTrue)
}

fn put_command<'a>(alloc: Global) -> Result<Command<'a>, AllocError> {
    let args = vec![in alloc;
        file(alloc, "The file to make"),
        times(alloc),
        group(alloc),
        TOP.arg(alloc),
        ROOTS.arg(alloc),
        SLOTS.arg(alloc),
    ]?;
    Command::new(alloc, "put")
        .about("Defines the classes on standard input in a new file")
        .args(args)
}

fn read_command<'a>(alloc: Global) -> Result<Command<'a>, AllocError> {
    Command::new(alloc, "read")
        .about("Opens a file, and looks up each of its classes")
        .arg(file(alloc, "The file to open"))?
        .arg(times(alloc))
}

fn soak_command<'a>(alloc: Global) -> Result<Command<'a>, AllocError> {
    let help = "For how many seconds";
    let args = vec![in alloc;
        file(alloc, "The file to open"),
        threads(alloc, "16"),
        number(alloc, "seconds", "1", (1, 86_400), help),
        live(alloc),
    ]?;
    Command::new(alloc, "soak")
        .about("Has threads define, find and unload the classes on standard input in a file")
        .args(args)
}

fn script_command<'a>(alloc: Global) -> Result<Command<'a>, AllocError> {
    Command::new(alloc, "script")
        .about("Has threads run the lines of the script on standard input, each some of them")
        .arg(file(alloc, "The file to open"))?
        .arg(threads(alloc, "1"))
}

fn threads_command<'a>(alloc: Global) -> Result<Command<'a>, AllocError> {
    let args = vec![in alloc;
        file(alloc, "The file to make"),
        threads(alloc, "1"),
        finders(alloc),
        unprepared(alloc),
        times(alloc),
        TOP.arg(alloc),
        ROOTS.arg(alloc),
        SLOTS.arg(alloc),
    ]?;
    Command::new(alloc, "threads")
        .about("Has threads define the classes on standard input in a new file, one at a time")
        .args(args)
}

/// The verbs of [`Task`].
fn with_tasks<'a>(alloc: Global, command: Command<'a>) -> Result<Command<'a>, AllocError> {
    command
        .subcommand(put_command(alloc)?)?
        .subcommand(read_command(alloc)?)
}

/// The verbs that use a file from several threads.
fn with_threads<'a>(alloc: Global, command: Command<'a>) -> Result<Command<'a>, AllocError> {
    command
        .subcommand(soak_command(alloc)?)?
        .subcommand(script_command(alloc)?)?
        .subcommand(threads_command(alloc)?)
}

fn whole_command<'a>(alloc: Global) -> Result<Command<'a>, AllocError> {
    let command = Command::new(alloc, "cm_bench_files")
        .about("What a cache costs in a file; each class is preceded by its length (4 bytes)")
        .subcommand_required(true);
    with_threads(alloc, with_tasks(alloc, command)?)
}

fn path_of(alloc: Global, given: &ArgMatches<'_>) -> Result<String> {
    let file = given.get_str("FILE").ok_or(UnknownWords)?;
    Ok(String::from_str(alloc, file)?)
}

fn geometry_of(given: &ArgMatches<'_>) -> Option<Geometry> {
    Geometry::new(
        given.get_one(TOP.name)?,
        given.get_one(ROOTS.name)?,
        given.get_one(SLOTS.name)?,
    )
}

fn putting_of(given: &ArgMatches<'_>) -> Option<Putting> {
    Some(Putting {
        geometry: geometry_of(given)?,
        group: given.get_one("group")?,
    })
}

/// The task of a verb; `None` for one that isn't known.
fn task_of(name: &str, given: &ArgMatches<'_>) -> Option<Task> {
    match name {
        "put" => Some(Task::Put(putting_of(given)?)),
        "read" => Some(Task::Read),
        _ => None,
    }
}

fn job_of(alloc: Global, name: &str, given: &ArgMatches<'_>) -> Result<Job> {
    Ok(Job {
        path: path_of(alloc, given)?,
        task: task_of(name, given).ok_or(UnknownWords)?,
        is_timed: given.get_flag("times"),
    })
}

fn soaking_of(alloc: Global, given: &ArgMatches<'_>) -> Result<Soaking> {
    Ok(Soaking {
        path: path_of(alloc, given)?,
        threads: given.get_one("threads").ok_or(UnknownWords)?,
        seconds: given.get_one("seconds").ok_or(UnknownWords)?,
        is_live: given.get_flag("live"),
    })
}

fn scripting_of(alloc: Global, given: &ArgMatches<'_>) -> Result<Scripting> {
    Ok(Scripting {
        path: path_of(alloc, given)?,
        threads: given.get_one("threads").ok_or(UnknownWords)?,
    })
}

fn threading_of(alloc: Global, given: &ArgMatches<'_>) -> Result<Threading> {
    Ok(Threading {
        path: path_of(alloc, given)?,
        geometry: geometry_of(given).ok_or(UnknownWords)?,
        threads: given.get_one("threads").ok_or(UnknownWords)?,
        finders: given.get_one("finders").ok_or(UnknownWords)?,
        is_prepared: !given.get_flag("unprepared"),
        is_timed: given.get_flag("times"),
    })
}

/// What the words that `clap` accepted request.
fn request_of(alloc: Global, words: &ArgMatches<'_>) -> Result<Request> {
    let (name, given) = words.subcommand().ok_or(UnknownWords)?;
    match name {
        "soak" => Ok(Request::Soak(soaking_of(alloc, given)?)),
        "script" => Ok(Request::Script(scripting_of(alloc, given)?)),
        "threads" => Ok(Request::Threads(threading_of(alloc, given)?)),
        _ => Ok(Request::File(job_of(alloc, name, given)?)),
    }
}

/// Reads the command line; prints the help, or what is wrong with it.
pub fn read_words(rt: &(impl Env + Print + Eprint + AllocGlobal)) -> Result<Request> {
    let alloc = rt.alloc();
    let words: Vec<String> = env::args(rt)?.collect(alloc)?;
    match whole_command(alloc)?.try_get_matches_from(words.as_slice()) {
        Ok(matches) => request_of(alloc, &matches),
        Err(error) => {
            error.print(rt)?;
            Ok(Request::Printed(if error.exit_code() == 0 { 0 } else { 2 }))
        }
    }
}

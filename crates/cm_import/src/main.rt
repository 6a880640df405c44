//! `cm_import`: puts the classes of files, folders and jars into a cache's file.
#![tactic(auto)]

mod arguments;
mod batch;
mod differences;
mod feed;
mod files;
mod job;
mod loaders;
mod messages;
mod new_file;
mod open_jar;
mod preparer;
mod progress;
mod report;
mod running;
mod sizes;
mod tags;
mod unloading;
mod version;

use crate::arguments::{Request, read_words};
use crate::messages::fail;
use crate::running::{run_import, say_sizes};
use crate::tags::print_tag;
use cm_maintenance::Status;
use std::fs::{File, Files};
use std::io::IsTerminal;
use std::process::ExitCode;
use std::rt::Env;
use std::thread::Threads;
use std::time::Clock;

fn main(rt: HostRuntime) -> ExitCode {
    let on_terminal = rt.stderr().is_terminal();
    ExitCode::from(run(&rt, on_terminal).number())
}

/// Does what the command line asks for, and gives the status.
fn run<R>(rt: &R, on_terminal: bool) -> Status
where
    R: Env + Print + Eprint + Files<File = File> + AllocGlobal + Clock,
    R: Threads + Copy + Sync,
{
    match read_words(rt) {
        Ok(Request::Import(request)) => run_import(rt, &request, on_terminal),
        Ok(Request::PrintTag(paths)) => print_tag(rt, &paths),
        Ok(Request::Sizes(paths, workers)) => say_sizes(rt, &paths, workers, on_terminal),
        Ok(Request::Printed(status)) => status,
        Err(fault) => fail(rt, fault),
    }
}

//! `cmcache`: a crash-safe cache of class metadata, in a file.
#![tactic(auto)]

mod files;
mod maintenance;
mod memory;
mod scripts;
mod status;
mod words;

use crate::files::{apply_file, format_file};
use crate::maintenance::{check_file, list_file, trim_file};
use crate::memory::apply_in_memory;
use crate::words::{read_words, tell_fault};
use cm_arguments::{Action, UsageFault, parse};
use cm_maintenance::Status;
use std::alloc::{AllocError, Global};
use std::fs::{File, Files};
use std::process::ExitCode;
use std::rt::Env;
use std::thread::Threads;

fn main(rt: HostRuntime) -> ExitCode {
    ExitCode::from(run(&rt).number())
}

/// Does what the command line requests, and returns the status.
fn run<R>(rt: &R) -> Status
where
    R: Env + Input + Print + Eprint + Files<File = File> + AllocGlobal + Threads + Sync,
{
    let words = match read_words(rt) {
        Ok(words) => words,
        Err(fault) => return tell_fault(rt, &fault),
    };
    let Ok(texts) = texts_of(rt.alloc(), &words) else {
        return tell_fault(rt, &UsageFault::NoMemory);
    };
    match parse(rt.alloc(), &texts) {
        Ok(action) => carry_out(rt, &action),
        Err(fault) => tell_fault(rt, &fault),
    }
}

/// The words after the program's name.
fn texts_of(alloc: Global, words: &[String]) -> Result<Vec<&str>, AllocError> {
    words
        .iter()
        .skip(1)
        .map(|word| word.as_str())
        .collect(alloc)
}

fn carry_out<R>(rt: &R, action: &Action<'_>) -> Status
where
    R: Input + Print + Eprint + Files<File = File> + AllocGlobal + Threads + Sync,
{
    match action {
        Action::Format(path, geometry) => format_file(rt, path, *geometry),
        Action::Check(path) => check_file(rt, path),
        Action::List(path) => list_file(rt, path),
        Action::Trim(path) => trim_file(rt, path),
        Action::Apply(Some(path), workers) => apply_file(rt, path, *workers as usize),
        Action::Apply(None, workers) => apply_in_memory(rt, *workers as usize),
    }
}

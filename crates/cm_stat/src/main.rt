//! `cm_stat`: says how much of a cache's file what takes. The file is only read.
#![tactic(auto)]

mod arguments;
mod json;
mod text;

use crate::arguments::{Request, read_words};
use cm_file_disk::{FileDisk, OpenError};
use cm_lines::LineFault;
use cm_maintenance::{Status, tell_fault};
use cm_statistics::{Statistics, statistics};
use cm_verdict::OpenFault;
use std::alloc::{AllocError, Global};
use std::fmt::Display;
use std::fs::{File, Files};
use std::io::{self, Write};
use std::process::ExitCode;
use std::rt::Env;

fn main(rt: HostRuntime) -> ExitCode {
    ExitCode::from(run(&rt).number())
}

/// Does what the command line requests, and returns the status.
fn run(rt: &(impl Env + Print + Eprint + AllocGlobal + Files<File = File>)) -> Status {
    match read_words(rt) {
        Ok(Request::Printed(status)) => status,
        Ok(Request::Report { path, json }) => report(rt, path.as_str(), json),
        Err(fault) => fail(rt, fault),
    }
}

/// Reports on the cache in a file.
fn report(
    rt: &(impl Print + Eprint + AllocGlobal + Files<File = File>),
    path: &str,
    json: bool,
) -> Status {
    let mut disk = match cm_region_file::open_read_only(rt, path) {
        Ok(disk) => disk,
        Err(error) => return say_not_opened(rt, path, error),
    };
    let measured = statistics(rt.alloc(), &mut disk);
    tell_failure(rt, path, &disk);
    match measured {
        Ok(found) => match spell(rt.alloc(), &found, json) {
            Ok(text) => print_all(rt, &text),
            Err(_) => fail(rt, LineFault::NoMemory),
        },
        Err(fault) => say_fault(rt, fault),
    }
}

fn spell(alloc: Global, found: &Statistics, json: bool) -> Result<Vec<u8>, AllocError> {
    if json {
        json::spell(alloc, found)
    } else {
        text::spell(alloc, found)
    }
}

fn print_all(rt: &(impl Print + Eprint), text: &[u8]) -> Status {
    let mut writer = io::writer(rt);
    if writer.write_all(text).is_err() || writer.flush().is_err() {
        return fail(rt, LineFault::Output);
    }
    Status::Done
}

/// Says why a file can't be opened.
fn say_not_opened(
    rt: &(impl Print + Eprint + AllocGlobal),
    path: &str,
    error: OpenError,
) -> Status {
    if let OpenError::NoMemory = error {
        return say_fault(rt, OpenFault::NoMemory);
    }
    let _ = eprintln!(rt; "cm_stat: {path}: {error}");
    say_fault(rt, OpenFault::Device)
}

/// Says why no cache opens from a file, as `cmcache check` does.
fn say_fault(rt: &(impl Print + Eprint + AllocGlobal), fault: OpenFault) -> Status {
    match tell_fault(rt.alloc(), &mut io::writer(rt), fault) {
        Ok(status) => status,
        Err(fault) => fail(rt, fault),
    }
}

/// If a call on the file has failed, says why the first of them did.
fn tell_failure(rt: &impl Eprint, path: &str, disk: &FileDisk) {
    if let Some(cause) = disk.cause() {
        let _ = eprintln!(rt; "cm_stat: {path}: {cause}");
    }
}

/// Writes to standard error what failed, and returns the status.
fn fail(rt: &impl Eprint, why: impl Display + Drop) -> Status {
    let _ = eprintln!(rt; "cm_stat: {why}");
    Status::Failed
}

//! `cm_show`: prints what a cache's file holds of a class. The file is only read.
#![tactic(auto)]

mod arguments;
mod json;
mod shown;
mod text;

use crate::arguments::{Request, Wanted, read_words};
use crate::shown::show;
use cm_file_disk::{FileDisk, OpenError};
use cm_lines::LineFault;
use cm_maintenance::{Status, tell_fault};
use cm_record::{Record, RecordFault};
use cm_record_parts::class_file;
use cm_recover::{StandingFile, read_standing};
use cm_verdict::OpenFault;
use std::alloc::{AllocError, Global};
use std::fmt::Display;
use std::fs::{self, File, Files};
use std::io::{self, Write};
use std::process::ExitCode;
use std::rt::Env;

fn main(rt: HostRuntime) -> ExitCode {
    ExitCode::from(run(&rt).number())
}

/// Does what the command line requests, and returns the status.
fn run(rt: &(impl Env + Print + Eprint + AllocGlobal + Files<File = File>)) -> Status {
    match read_words(rt) {
        Ok(Request::Printed(status)) => status,
        Ok(Request::Show(wanted)) => show_class(rt, &wanted),
        Err(fault) => fail(rt, fault),
    }
}

/// Shows a class of the cache in a file.
fn show_class(
    rt: &(impl Print + Eprint + AllocGlobal + Files<File = File>),
    wanted: &Wanted,
) -> Status {
    let path = wanted.file.as_str();
    let mut disk = match cm_region_file::open_read_only(rt, path) {
        Ok(disk) => disk,
        Err(error) => return say_not_opened(rt, path, error),
    };
    let file = read_standing(rt.alloc(), &mut disk);
    tell_failure(rt, path, &disk);
    match file {
        Ok(file) => show_found(rt, &file, wanted),
        Err(fault) => say_fault(rt, fault),
    }
}

/// Shows a class, if the file has it.
fn show_found(
    rt: &(impl Print + Eprint + AllocGlobal + Files<File = File>),
    file: &StandingFile,
    wanted: &Wanted,
) -> Status {
    let Some(number) = file.rows.loader(wanted.loader.as_bytes()) else {
        return print_all(rt, b"no such loader\n", Status::Refused);
    };
    let Some(class) = file.rows.class(number, &wanted.class) else {
        return print_all(rt, b"no such class\n", Status::Refused);
    };
    match write_class_file(rt, class.record(), wanted) {
        Status::Done => print_class(rt, class.record(), wanted),
        status => status,
    }
}

/// Writes the class file, if that is wanted.
fn write_class_file(
    rt: &(impl Eprint + AllocGlobal + Files<File = File>),
    record: &Record,
    wanted: &Wanted,
) -> Status {
    let Some(out) = &wanted.class_file else {
        return Status::Done;
    };
    let mut bytes = Vec::new(rt.alloc());
    match class_file(record.as_slice(), &mut bytes) {
        Ok(()) => {}
        Err(RecordFault::NoMemory) => return fail(rt, LineFault::NoMemory),
        Err(fault) => return fail(rt, fault),
    }
    match fs::write(rt, out.as_str(), bytes.as_slice()) {
        Ok(()) => Status::Done,
        Err(cause) => {
            let _ = eprintln!(rt; "cm_show: {}: {cause}", out.as_str());
            Status::Failed
        }
    }
}

/// Prints what is shown of a class.
fn print_class(
    rt: &(impl Print + Eprint + AllocGlobal),
    record: &Record,
    wanted: &Wanted,
) -> Status {
    match spell(rt.alloc(), record, wanted) {
        Ok(text) => print_all(rt, &text, Status::Done),
        Err(_) => fail(rt, LineFault::NoMemory),
    }
}

fn spell(alloc: Global, record: &Record, wanted: &Wanted) -> Result<Vec<u8>, AllocError> {
    let class = show(alloc, record)?;
    if wanted.json {
        json::spell(alloc, &class, wanted.constants)
    } else {
        text::spell(alloc, &class, wanted.constants)
    }
}

fn print_all(rt: &(impl Print + Eprint), text: &[u8], status: Status) -> Status {
    let mut writer = io::writer(rt);
    if writer.write_all(text).is_err() || writer.flush().is_err() {
        return fail(rt, LineFault::Output);
    }
    status
}

/// Says why a file can't be opened.
fn say_not_opened(
    rt: &(impl Print + Eprint + AllocGlobal),
    path: &str,
    error: OpenError,
) -> Status {
    if let OpenError::NoMemory = error {
        return say_fault(rt, OpenFault::NoMemory);
    }
    let _ = eprintln!(rt; "cm_show: {path}: {error}");
    say_fault(rt, OpenFault::Device)
}

/// Says why no cache opens from a file, as `cmcache check` does.
fn say_fault(rt: &(impl Print + Eprint + AllocGlobal), fault: OpenFault) -> Status {
    match tell_fault(rt.alloc(), &mut io::writer(rt), fault) {
        Ok(status) => status,
        Err(fault) => fail(rt, fault),
    }
}

/// If a call on the file has failed, says why the first of them did.
fn tell_failure(rt: &impl Eprint, path: &str, disk: &FileDisk) {
    if let Some(cause) = disk.cause() {
        let _ = eprintln!(rt; "cm_show: {path}: {cause}");
    }
}

/// Writes to standard error what failed, and returns the status.
fn fail(rt: &impl Eprint, why: impl Display + Drop) -> Status {
    let _ = eprintln!(rt; "cm_show: {why}");
    Status::Failed
}

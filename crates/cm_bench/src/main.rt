//! `cm_bench`: the cost of the parts of a cache that need no file.
//!
//! `classes` runs the reader, the rules and the records over class files from standard input, each
//! preceded by its length in four bytes. `front` makes calls on accepted caches that it fills
//! itself. Both print only counts, unless times are requested. What runs on files is in
//! `cm_bench_files`.
#![tactic(auto)]

mod classes;
mod command;
mod front;

use crate::command::{Request, read_words};
use anyhow::Result;
use std::process::ExitCode;
use std::rt::{Clock, Env};

/// The input, the output or the clock failed, or an allocation did.
const FAILED: u8 = 3;

fn main(rt: HostRuntime) -> ExitCode {
    ExitCode::from(run(&rt))
}

/// Does what the command line requests, and returns the status.
fn run(rt: &(impl Clock + Env + Input + Print + Eprint + AllocGlobal)) -> u8 {
    match read_words(rt).and_then(|request| carry_out(rt, request)) {
        Ok(status) => status,
        Err(error) => {
            let _ = eprintln!(rt; "cm_bench: {error}");
            FAILED
        }
    }
}

/// Does what is requested, and returns the exit status.
fn carry_out(rt: &(impl Clock + Input + Print + AllocGlobal), request: Request) -> Result<u8> {
    match request {
        Request::Printed(status) => return Ok(status),
        Request::Classes(passes) => classes::bench(rt, passes)?,
        Request::Methods => classes::list_methods(rt)?,
        Request::Front(passes) => front::bench(rt, passes)?,
    }
    Ok(0)
}

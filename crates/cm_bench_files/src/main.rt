//! `cm_bench_files`: what a cache in a file costs, and what threads do in one.
//!
//! `put FILE` makes a file and defines the classes on standard input in it; `read FILE` opens one
//! and looks up each of its classes. `threads FILE` has several threads define them. `soak FILE`
//! has threads change the cache in a file for a while, and `script FILE` has them run a script, and
//! both print the results of their calls. The others print only counts, unless times are requested.
//! What runs in memory is `cm_bench`.
#![tactic(auto)]

mod command;
mod file;
mod threads;

use crate::command::{Request, read_words};
use anyhow::Result;
use std::fs::{File, Files};
use std::process::ExitCode;
use std::rt::{Clock, Env};
use std::sync::Wait;
use std::thread::Threads;

/// The file, the input, the output, the clock or an allocation failed.
const FAILED: u8 = 3;

fn main(rt: HostRuntime) -> ExitCode {
    ExitCode::from(run(&rt))
}

/// Does what the command line requests, and returns the status.
fn run<R>(rt: &R) -> u8
where
    R: Clock + Env + Files<File = File> + Input + Print + Eprint + AllocGlobal,
    R: Threads + Wait + Copy + Send + Sync + 'static,
{
    match read_words(rt).and_then(|request| carry_out(rt, &request)) {
        Ok(status) => status,
        Err(error) => {
            let _ = eprintln!(rt; "cm_bench_files: {error}");
            FAILED
        }
    }
}

/// Does what is requested, and returns the status to end with.
fn carry_out<R>(rt: &R, request: &Request) -> Result<u8>
where
    R: Clock + Files<File = File> + Input + Print + AllocGlobal,
    R: Threads + Wait + Copy + Send + Sync + 'static,
{
    match request {
        Request::Printed(status) => return Ok(*status),
        Request::File(job) => file::bench(rt, job)?,
        Request::Soak(soaking) => threads::soak(rt, soaking)?,
        Request::Script(scripting) => threads::script(rt, scripting)?,
        Request::Threads(threading) => threads::bench(rt, threading)?,
    }
    Ok(0)
}

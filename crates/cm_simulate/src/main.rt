//! `cm_simulate`: a cache in memory that is stopped, damaged by faults and crashed at will.
//!
//! Standard input is a line `geometry TOP ROOTS SLOTS` and then events, one per line; the reply to
//! each of them is one line.
#![tactic(auto)]

mod command;

use crate::command::{Request, read_words};
use cm_arguments::WordsFault;
use cm_disk::SimDisk;
use cm_events::{SimulateFault, SimulationFault, bytes_of, simulate};
use std::fs::{self, File, Files};
use std::io::{self, Read, Write};
use std::process::ExitCode;
use std::rt::Env;
use thiserror::Error;

/// The command line or a line of the input isn't known.
const UNKNOWN: u8 = 2;

/// An allocation, the input or the output failed.
const FAILED: u8 = 3;

/// Why the program doesn't do what is requested.
#[derive(Clone, Copy, Debug, Error)]
enum Fault {
    #[error("{0}")]
    Words(WordsFault),
    #[error("{0}")]
    Simulate(SimulateFault),
    #[error("the input failed: {0}")]
    Input(io::Error),
    #[error("the output failed: {0}")]
    Output(io::Error),
    #[error("the file of the disk: {0}")]
    File(io::Error),
    #[error("out of memory")]
    NoMemory,
}

fn main(rt: HostRuntime) -> ExitCode {
    ExitCode::from(run(&rt))
}

/// Does what the command line requests, and returns the status.
fn run(rt: &(impl Env + Input + Print + Eprint + AllocGlobal + Files<File = File>)) -> u8 {
    let done = match read_words(rt) {
        Ok(Request::Printed(status)) => return status,
        Ok(Request::Run(path)) => simulate_input(rt, path),
        Err(fault) => Err(Fault::Words(fault)),
    };
    match done {
        Ok(()) => 0,
        Err(fault) => {
            let _ = eprintln!(rt; "cm_simulate: {fault}");
            status_of(fault)
        }
    }
}

fn status_of(fault: Fault) -> u8 {
    match fault {
        Fault::Simulate(SimulateFault::Text(SimulationFault::BadLine(_))) => UNKNOWN,
        _ => FAILED,
    }
}

/// Runs the simulation on standard input. The final bytes of its disk are written to the file at
/// this path.
fn simulate_input(
    rt: &(impl Input + Print + AllocGlobal + Files<File = File>),
    path: Option<String>,
) -> Result<(), Fault> {
    let alloc = rt.alloc();
    let mut text = Vec::new(alloc);
    rt.reader()
        .read_to_end(&mut text)
        .map_err(|cause| Fault::Input(cause))?;
    let done = simulate(alloc, &text).map_err(|fault| Fault::Simulate(fault))?;
    print_all(rt, &done.text).map_err(|cause| Fault::Output(cause))?;
    match path {
        Some(path) => write_disk(rt, path.as_str(), done.disk),
        None => Ok(()),
    }
}

fn print_all(rt: &impl Print, text: &[u8]) -> io::Result<()> {
    let mut writer = io::writer(rt);
    writer.write_all(text)?;
    writer.flush()
}

fn write_disk(
    rt: &(impl AllocGlobal + Files<File = File>),
    path: &str,
    disk: SimDisk,
) -> Result<(), Fault> {
    let Ok(bytes) = bytes_of(rt.alloc(), disk) else {
        return Err(Fault::NoMemory);
    };
    fs::write(rt, path, bytes.as_slice()).map_err(|cause| Fault::File(cause))
}

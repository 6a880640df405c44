//! The words of the command line, and the message if they request nothing that can be done.

use crate::status::{fail, status_of_usage};
use cm_arguments::{UsageFault, wrong_words};
use cm_lines::LineFault;
use cm_maintenance::Status;
use std::rt::Env;
use std::{env, io};

/// The words of the command line, the program's name first.
pub fn read_words(rt: &(impl Env + AllocGlobal)) -> Result<Vec<String>, UsageFault> {
    match env::args(rt) {
        Ok(words) => Ok(words.collect(rt.alloc())?),
        Err(error) if error.kind() == io::ErrorKind::OutOfMemory => Err(UsageFault::NoMemory),
        Err(error) if error.kind() == io::ErrorKind::InvalidData => {
            Err(wrong_words(rt.alloc(), "an argument is not UTF-8"))
        }
        Err(_) => Err(wrong_words(rt.alloc(), "cannot read the arguments")),
    }
}

/// Prints the help, or what is wrong with the words, and returns the status. For wrong words the
/// status is the same whether or not this text could be written.
pub fn tell_fault(rt: &(impl Print + Eprint), fault: &UsageFault) -> Status {
    match fault {
        UsageFault::Help(text) => {
            if print!(rt; "{text}").is_err() {
                return fail(rt, LineFault::Output);
            }
        }
        UsageFault::Words(text) => {
            let _ = eprint!(rt; "{text}");
        }
        UsageFault::NoMemory => {
            let _ = eprintln!(rt; "cmcache: {fault}");
        }
    }
    status_of_usage(fault)
}

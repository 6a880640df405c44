//! The words of a program's command line, and what is printed in place of doing what they request.

use clap::error::{Error, ErrorKind};
use std::alloc::AllocError;
use std::rt::Env;
use std::{env, io};
use thiserror::Error as ThisError;

/// Why a command line isn't known, or its help wasn't printed.
#[derive(Clone, Copy, Debug, PartialEq, Eq, ThisError)]
pub enum WordsFault {
    #[error("cannot read the arguments")]
    Words,
    #[error("the output failed")]
    Output,
    #[error("out of memory")]
    NoMemory,
}

impl From<AllocError> for WordsFault {
    fn from(_error: AllocError) -> WordsFault {
        WordsFault::NoMemory
    }
}

/// What was printed in place of doing what words request.
#[derive(Clone, Copy, Debug, PartialEq, Eq)]
pub enum Printed {
    /// The help, which they request.
    Help,
    /// What is wrong with them, or an attempt to write it: the words are wrong in any case.
    Usage,
}

/// The words of the command line, the program's name first; `None` if one of them isn't UTF-8.
pub fn words(rt: &(impl Env + AllocGlobal)) -> Result<Option<Vec<String>>, WordsFault> {
    match env::args(rt) {
        Ok(words) => Ok(Some(words.collect(rt.alloc())?)),
        Err(error) if error.kind() == io::ErrorKind::InvalidData => Ok(None),
        Err(error) if error.kind() == io::ErrorKind::OutOfMemory => Err(WordsFault::NoMemory),
        Err(_) => Err(WordsFault::Words),
    }
}

/// Prints the help to standard output, or what is wrong with the words to standard error.
pub fn print_text(rt: &(impl Print + Eprint), text: &Error) -> Result<Printed, WordsFault> {
    if text.kind() == ErrorKind::OutOfMemory {
        return Err(WordsFault::NoMemory);
    }
    let printed = text.print(rt);
    if text.use_stderr() {
        Ok(Printed::Usage)
    } else if printed.is_ok() {
        Ok(Printed::Help)
    } else {
        Err(WordsFault::Output)
    }
}

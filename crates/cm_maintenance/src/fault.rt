//! Why a report wasn't written to its end.

use cm_lines::LineFault;
use std::fmt::Debug;
use thiserror::Error;

/// A report on a file that wasn't written to its end: why, and the file's disk. `Display` gives the
/// text that the program prints.
#[derive(Debug, Drop, Error)]
#[error("{fault}")]
#[error_bound(D: Debug + Drop)]
pub struct NotReported<D> {
    /// `Output`: a beginning of the lines is written, or all of them. `NoMemory`: nothing is
    /// written. Never `Input`.
    pub fault: LineFault,
    /// With its original contents, except for what a trim or an upgrade has done by then.
    pub disk: D,
}

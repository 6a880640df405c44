//! Files: storing classes in one, opening it, and finding them there.

mod counted;
mod put;
mod read;
mod report;
mod timed;

use crate::command::{Job, Task};
pub use crate::file::counted::{CountedDisk, Counts};
pub use crate::file::put::make_file;
use crate::file::report::{put_classes, read_classes};
use anyhow::Result;
use std::fs::{File, Files};
use std::rt::Clock;

/// Does a task on a file.
pub fn bench(
    rt: &(impl Clock + Files<File = File> + Input + Print + AllocGlobal),
    job: &Job,
) -> Result<()> {
    match job.task {
        Task::Put(putting) => put_classes(rt, &job.path, putting, job.is_timed),
        Task::Read => read_classes(rt, &job.path, job.is_timed),
    }
}

//! What is opened or created, and what isn't.

use cm_disk::Disk;
use cm_file_disk::{CreateError, OpenError};
use std::io::{self, ErrorKind};
use std::os::fd::AsRawFd;
use std::os::unix::fs::symlink;
use std::test::*;
use std::{format, fs};

/// Why a file isn't opened: `None` if it is no regular file, else the kind of the system's error.
fn refuse_open(rt: &HostRuntime, path: &str) -> Result<Option<ErrorKind>, Fail> {
    match cm_file_disk::open(rt, rt.alloc(), path) {
        Ok(_) => Err(Fail::new("it is opened")),
        Err(error) => kind_of_refusal(&error),
    }
}

fn kind_of_refusal(error: &OpenError) -> Result<Option<ErrorKind>, Fail> {
    match error {
        OpenError::NotRegular => Ok(None),
        OpenError::Device(error) => Ok(Some(error.kind())),
        _ => Err(Fail::new("another refusal")),
    }
}

/// What isn't opened, and why not.
const REFUSED: [(&str, Option<ErrorKind>); 5] = [
    (".", None),
    ("/dev/null", None),
    ("no such file", Some(ErrorKind::NotFound)),
    ("no such folder/file", Some(ErrorKind::NotFound)),
    ("/dev/null/file", Some(ErrorKind::NotADirectory)),
];

#[test]
fn only_a_regular_file_is_opened(rt: HostRuntime) -> Result<(), Fail> {
    for (path, kind) in &REFUSED {
        assert_eq!(rt; refuse_open(&rt, path)?, *kind, "at {path}");
    }
    Ok(())
}

#[test]
fn a_pipe_is_not_opened(rt: HostRuntime) -> Result<(), Fail> {
    let (reader, _writer) = io::pipe(&rt)?;
    let pipe = format!(in rt.alloc(); "/proc/self/fd/{}", reader.as_raw_fd())?;
    assert_eq!(rt; refuse_open(&rt, pipe.as_str())?, None);
    Ok(())
}

#[test]
fn a_file_past_the_limit_is_not_read(rt: HostRuntime) -> Result<(), Fail> {
    let path = "cm_file_disk_too_long.tmp";
    fs::File::create(&rt, path)?.set_len((1 << 40) + 1)?;
    let answer = cm_file_disk::open_read_only(&rt, rt.alloc(), path);
    assert!(rt; matches!(answer, Err(OpenError::TooLong)));
    fs::remove_file(&rt, path)?;
    Ok(())
}

/// Whether a file is in use, for whoever writes to it, and for whoever only reads.
fn is_in_use(rt: &HostRuntime, path: &str) -> (bool, bool) {
    let to_write = cm_file_disk::open(rt, rt.alloc(), path);
    let is_refused = matches!(to_write, Err(OpenError::InUse));
    drop(to_write);
    let to_read = cm_file_disk::open_read_only(rt, rt.alloc(), path);
    (is_refused, matches!(to_read, Err(OpenError::InUse)))
}

#[test]
fn one_disk_at_a_time_writes_to_a_file(rt: HostRuntime) -> Result<(), Fail> {
    let path = "cm_file_disk_in_use.tmp";
    let _ = fs::remove_file(&rt, path);
    let made = cm_file_disk::create(&rt, rt.alloc(), path)?;
    assert_eq!(rt; is_in_use(&rt, path), (true, true));
    drop(made);
    let opened = cm_file_disk::open(&rt, rt.alloc(), path)?;
    assert_eq!(rt; is_in_use(&rt, path), (true, true));
    drop(opened);
    let read = cm_file_disk::open_read_only(&rt, rt.alloc(), path)?;
    assert_eq!(rt; is_in_use(&rt, path), (true, false));
    drop(read);
    assert_eq!(rt; is_in_use(&rt, path), (false, false));
    fs::remove_file(&rt, path)?;
    Ok(())
}

/// Whether no file is created there, since something has the name.
fn is_taken(rt: &HostRuntime, path: &str) -> bool {
    matches!(
        cm_file_disk::create(rt, rt.alloc(), path),
        Err(CreateError::Exists)
    )
}

#[test]
fn a_name_that_is_taken_stays(rt: HostRuntime) -> Result<(), Fail> {
    let (path, link) = ("cm_file_disk_taken.tmp", "cm_file_disk_link.tmp");
    fs::write(&rt, path, b"abc".as_slice())?;
    let _ = fs::remove_file(&rt, link);
    symlink(&rt, "no such file", link)?;
    for taken in [path, link, "."] {
        assert!(rt; is_taken(&rt, taken), "at {taken}");
    }
    assert_eq!(rt; fs::read_to_string(&rt, path)?.as_str(), "abc");
    fs::remove_file(&rt, path)?;
    fs::remove_file(&rt, link)?;
    let answer = cm_file_disk::create(&rt, rt.alloc(), "no such folder/file");
    assert!(rt; matches!(answer, Err(CreateError::Device(_))));
    Ok(())
}

/// A disk that may go to another thread.
fn sendable<D: Disk + Send + Drop>(disk: D) -> D {
    disk
}

#[test]
fn a_disk_may_go_to_another_thread(rt: HostRuntime) -> Result<(), Fail> {
    let path = "cm_file_disk_sent.tmp";
    let _ = fs::remove_file(&rt, path);
    let mut disk = sendable(cm_file_disk::create(&rt, rt.alloc(), path)?);
    assert_eq!(rt; disk.len(), Ok(0));
    fs::remove_file(&rt, path)?;
    Ok(())
}

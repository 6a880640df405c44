//! Folders that are searched.

use crate::name::{is_class_name, is_jar_name};
use crate::place::{FindFault, Found, Place};
use std::alloc::AllocError;
use std::fs::{self, Files};
use std::io::{self, ErrorKind};

/// More files and folders than there are: it only shows that a search ends.
const MOST_PATHS: u64 = u64::MAX;

/// Finds the files that hold classes under a path, those of each folder in byte order of their
/// names. They follow those that were found before.
///
/// A file is taken for a class if its name ends in `.class`, and for a jar otherwise. In a folder,
/// and in those in it, the files are taken whose names are those of class files or end in `.jar`. A
/// link to a file is followed, and one in a folder to another folder isn't. Whatever can't be
/// searched is listed with its cause, and the search continues.
///
/// # Errors
/// An allocation failed. What was found before stays.
pub fn find<R: Files + AllocGlobal + Copy>(
    rt: &R,
    path: &str,
    found: &mut Found,
) -> Result<(), AllocError> {
    let path = String::from_str(rt.alloc(), path)?;
    match fs::metadata(rt, path.as_str()) {
        Ok(about) if about.is_file() => found.add_place(place_of_file(path, about.len())),
        Ok(about) if about.is_dir() => search_folder(rt, path, found),
        Ok(_) => found.add_unsearched(path, FindFault::OtherKind),
        Err(cause) => found.add_unsearched(path, FindFault::Device(cause)),
    }
}

/// The place that a file is.
fn place_of_file(path: String, len: u64) -> Place {
    if path.as_str().as_bytes().ends_with(b".class") {
        Place::ClassFile(path, len)
    } else {
        Place::Jar(path, len)
    }
}

/// Searches a folder and those in it.
fn search_folder<R: Files + AllocGlobal + Copy>(
    rt: &R,
    path: String,
    found: &mut Found,
) -> Result<(), AllocError> {
    let mut left = paths_in(rt, path, found)?;
    for _ in 0..MOST_PATHS {
        let Some(path) = left.pop() else {
            return Ok(());
        };
        match fs::symlink_metadata(rt, path.as_str()) {
            Ok(about) if about.is_dir() => left.append(&mut paths_in(rt, path, found)?)?,
            Ok(_) => search_file(rt, path, found)?,
            Err(cause) => found.add_unsearched(path, FindFault::Device(cause))?,
        }
    }
    Ok(())
}

/// Takes a file in a folder, or a link, if it holds classes.
fn search_file(rt: &impl Files, path: String, found: &mut Found) -> Result<(), AllocError> {
    let name = path.as_str().as_bytes();
    if !is_class_name(name) && !is_jar_name(name) {
        return Ok(());
    }
    match fs::metadata(rt, path.as_str()) {
        Ok(about) if about.is_file() => found.add_place(place_of_file(path, about.len())),
        Ok(_) => Ok(()),
        Err(cause) => found.add_unsearched(path, FindFault::Device(cause)),
    }
}

/// The paths of what a folder holds, the last in byte order first. If they can't all be read, the
/// folder is listed as unsearched.
fn paths_in<R: Files + AllocGlobal + Copy>(
    rt: &R,
    folder: String,
    found: &mut Found,
) -> Result<Vec<String>, AllocError> {
    let mut paths = Vec::new(rt.alloc());
    match read_paths(rt, folder.as_str(), &mut paths) {
        Ok(()) => {}
        Err(cause) if cause.kind() == ErrorKind::OutOfMemory => return Err(AllocError),
        Err(cause) => found.add_unsearched(folder, FindFault::Device(cause))?,
    }
    paths.sort_unstable();
    paths.reverse();
    Ok(paths)
}

/// Reads the paths of what a folder holds. At an `Err`, those that could be read are there.
fn read_paths<R: Files + AllocGlobal + Copy>(
    rt: &R,
    folder: &str,
    paths: &mut Vec<String>,
) -> io::Result<()> {
    let mut result = Ok(());
    for entry in fs::read_dir(rt, folder)? {
        match entry {
            Ok(entry) => paths.push(String::from_str(rt.alloc(), entry.path().as_str())?)?,
            Err(cause) => result = Err(cause),
        }
    }
    result
}

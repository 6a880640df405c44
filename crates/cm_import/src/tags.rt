//! Tags of what was found, and loaders that have one in their name.

use crate::arguments::{Import, Others};
use crate::files::find_all;
use crate::messages::{fail, say, warn};
use cm_found_classes::{Found, Place, Unsearched};
use cm_maintenance::Status;
use cm_tag::Tag;
use std::fs::{self, File, Files};
use std::io::{self, ErrorKind};

/// Adds a file that was found.
fn add_place<R>(rt: &R, place: &Place, tag: &mut Tag) -> io::Result<()>
where
    R: Files<File = File> + AllocGlobal,
{
    let bytes = fs::read(rt, place.path())?;
    match place {
        Place::ClassFile(..) => tag.add_class(&bytes),
        Place::Jar(..) => tag.add_jar(rt.alloc(), &bytes)?,
    }
    Ok(())
}

/// The tag of all files that were found. If one can't be read, says so, and gives the status.
fn tag_of<R>(rt: &R, places: &[Place]) -> Result<String, Status>
where
    R: Files<File = File> + Eprint + AllocGlobal,
{
    let mut tag = Tag::new();
    for place in places {
        match add_place(rt, place, &mut tag) {
            Ok(()) => {}
            Err(cause) if cause.kind() == ErrorKind::OutOfMemory => {
                return Err(fail(rt, "out of memory"));
            }
            Err(cause) => {
                let path = place.path();
                warn(rt, format_args!("{path}: {cause}"));
                return Err(Status::Refused);
            }
        }
    }
    match tag.digits(rt.alloc()) {
        Ok(digits) => Ok(digits),
        Err(_) => Err(fail(rt, "out of memory")),
    }
}

/// Prints the tag of what these paths hold, and gives the status.
pub fn print_tag<R>(rt: &R, paths: &[String]) -> Status
where
    R: Print + Eprint + Files<File = File> + AllocGlobal + Copy,
{
    let Ok(Found { places, unsearched }) = find_all(rt, paths) else {
        return fail(rt, "out of memory");
    };
    for Unsearched { path, fault } in &unsearched {
        warn(rt, format_args!("{path}: {fault}"));
    }
    if !unsearched.is_empty() {
        return Status::Refused;
    }
    match tag_of(rt, &places) {
        Ok(tag) => say(rt, tag, Status::Done),
        Err(status) => status,
    }
}

/// The name of the loader that is imported into: with the tag of what was found, if that is asked
/// for. If there is no tag, says so, and gives the status.
pub fn loader_of<R>(rt: &R, request: &Import, found: &Found) -> Result<String, Status>
where
    R: Files<File = File> + Eprint + AllocGlobal,
{
    let base = request.loader.as_str();
    let name = if request.tag.is_none() {
        String::from_str(rt.alloc(), base)
    } else if found.unsearched.is_empty() {
        let tag = tag_of(rt, &found.places)?;
        format!(in rt.alloc(); "{base}@{tag}")
    } else {
        warn(rt, "there is no tag, since not all paths can be searched");
        return Err(Status::Refused);
    };
    match name {
        Ok(name) => Ok(name),
        Err(_) => Err(fail(rt, "out of memory")),
    }
}

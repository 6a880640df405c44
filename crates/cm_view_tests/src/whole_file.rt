//! A file that stands for a cache.

use crate::answers::{ASKED, Said, all_said};
use crate::viewed_file::{open_stored, viewed_file};
use cm_disk::SimDisk;
use cm_samples::disk_of;
use cm_session::Session;
use cm_view::{View, name_of};
use std::alloc::{AllocError, Global};
use std::test::*;

// What a session finds.
fn session_said(alloc: Global, session: &Session<SimDisk>) -> Result<Vec<Said>, AllocError> {
    let mut all = Vec::new(alloc);
    for (loader, class) in &ASKED {
        all.push(match session.find(&[*loader], &[*class]) {
            Some(record) => Said::Words(record.words()),
            None => Said::Nothing,
        })?;
    }
    Ok(all)
}

#[test]
fn a_view_says_what_the_session_says(rt: HostRuntime) -> Result<(), Fail> {
    let alloc = rt.alloc();
    let bytes = viewed_file(alloc)?;
    let view = View::open(alloc, &bytes)?;
    let session = open_stored(alloc, disk_of(alloc, &bytes)?)?;
    let said = session_said(alloc, &session);
    let _disk = session.into_disk();
    assert_eq!(rt;
        all_said(alloc, &view, &bytes)?.as_slice(),
        said?.as_slice()
    );
    Ok(())
}

#[test]
fn a_view_lists_loaders_and_classes(rt: HostRuntime) -> Result<(), Fail> {
    let alloc = rt.alloc();
    let bytes = viewed_file(alloc)?;
    let view = View::open(alloc, &bytes)?;
    assert_eq!(rt; (view.number, view.rows.len()), (5, 3));
    let mut names = Vec::new(alloc);
    for loader in &view.loaders {
        names.extend_from_slice(loader.name.as_bytes())?;
        for row in &view.classes_of(alloc, loader.number)? {
            names.extend_from_slice(name_of(&bytes, row))?;
        }
    }
    names.sort_unstable();
    assert_eq!(rt; names.as_slice(), b"AABab".as_slice());
    Ok(())
}

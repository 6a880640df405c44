//! The loaders of a cache, and their classes.

use cm_front::Front;
use cm_maintenance::list_accepted;
use cm_tag::is_tagged;
use std::alloc::{AllocError, Global};

/// The names of a loader's classes; none if there is no such loader.
pub fn class_names(
    alloc: Global,
    front: &Front,
    loader: &[u8],
) -> Result<Vec<Vec<u8>>, AllocError> {
    let mut names = Vec::new(alloc);
    for listed in &list_accepted(alloc, front)? {
        if listed.name.as_slice() != loader {
            continue;
        }
        for class in &listed.classes {
            names.push(class.class.class_name(alloc)?)?;
        }
    }
    Ok(names)
}

/// The names of the loaders that are this one with a tag, but not the one that is named.
pub fn other_tags(
    alloc: Global,
    front: &Front,
    base: &[u8],
    named: &[u8],
) -> Result<Vec<Vec<u8>>, AllocError> {
    let mut names = Vec::new(alloc);
    for listed in &list_accepted(alloc, front)? {
        let name = listed.name.as_slice();
        if is_tagged(name, base) && name != named {
            names.push(Vec::from_slice(alloc, name)?)?;
        }
    }
    Ok(names)
}

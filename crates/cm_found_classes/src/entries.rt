//! The class files in a jar.

ghost use Rattle.std.specs.Prelude.{◌≡◌, IfOk};
ghost use Rattle.std.specs.List.{filter};
ghost use Rattle.cm_found_classes.specs.Names.{is_class_name};

use crate::name::is_class_name;
use cm_jar::{Entry, Jar};
use std::alloc::{AllocError, Global};

/// The entries of a jar that are class files, in the jar's order.
pub fn class_entries<'a>(alloc: Global, jar: &Jar<'a>) -> Result<Vec<Entry<'a>>, AllocError>
    ensures { IfOk result (λ entries.
        entries.items ≡ filter (λ e. is_class_name e.name.now) jar.now.entries.items) }
{
    let mut entries = Vec::new(alloc);
    for entry in jar.entries() {
        if is_class_name(entry.name()) {
            entries.push(*entry)?;
        }
    }
    Ok(entries)
}

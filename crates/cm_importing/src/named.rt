//! Classes with their names.

ghost use Rattle.std.specs.Prelude.{◌≡◌, IfOk, map};
ghost use Rattle.cm_record.specs.Names.{class_name_in};

use cm_commands::Prepared;
use std::alloc::{AllocError, Global};

/// A class that is ready to be defined, with its name.
#[derive(Drop)]
pub(crate) struct NamedClass {
    pub(crate) class: Prepared,
    pub(crate) name: Vec<u8>,
    ghost named: { name.items ≡ class_name_in class },
}

/// The classes with their names.
pub(crate) fn with_names(
    alloc: Global,
    classes: Vec<Prepared>,
) -> Result<Vec<NamedClass>, AllocError>
    ensures { IfOk result (λ named. map (λ n. n.class) named.items ≡ classes.items) }
{
    let mut named = Vec::with_capacity(alloc, classes.len())?;
    'classes: for class in classes {
        let name = class.class_name(alloc)?;
        named.push_reserved(NamedClass { class, name });
    }
    Ok(named)
}

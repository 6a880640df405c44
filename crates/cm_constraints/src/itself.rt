//! What the rules require of the class itself.
ghost use Rattle.std.specs.Prelude.{◌≡◌};
ghost use Rattle.cm_constraints.specs.Itself.{this_is_no_array, super_is_right};

use crate::flags::{ACC_INTERFACE, has};
use cm_class::Class;
use cm_descriptors::begins_with;

const OBJECT: &[u8] = b"java/lang/Object";

/// Whether the class, by its name, isn't an array (JVMS 4.1).
pub fn this_is_no_array(class: &Class) -> bool
    ensures { result ≡ this_is_no_array class.now }
{
    !begins_with(b'[', class.class_name(class.this_class()))
}

/// Whether an interface's super class is `java/lang/Object`, and any other class except that one
/// has a super class (JVMS 4.1).
pub fn super_is_right(class: &Class) -> bool
    ensures { result ≡ super_is_right class.now }
{
    if has(class.flags(), ACC_INTERFACE) {
        class.class_name(class.super_class()) == OBJECT
    } else {
        class.super_class() != 0 || class.class_name(class.this_class()) == OBJECT
    }
}

//! What the rules require of the attributes of the class itself.
ghost use Rattle.std.specs.Prelude.{◌≡◌, true, None};
ghost use Rattle.cm_duplicates.specs.Duplicates.{first_failing};
ghost use Rattle.cm_rules.specs.Kept.{attribute_keeps};

use crate::contained::{bootstrap_attribute_is_right, class_attribute_is_right};
use crate::laid::LaidClass;
use cm_class::{Attribute, Kind};

#[tactic(auto, unfolding(crate::specs::Kept::attribute_keeps, crate::specs::Kept::attribute_rule))]
fn attribute_keeps(class: &LaidClass, place: usize, attribute: &Attribute) -> bool
    ensures { result ≡ attribute_keeps class.now place attribute.now }
{
    class.names(attribute.name, Kind::Utf8)
        && class_attribute_is_right(class, place, attribute)
        && bootstrap_attribute_is_right(class, place, attribute)
}

/// Whether each attribute of the class keeps all rules.
pub(crate) fn attributes_keep(class: &LaidClass) -> bool
    ensures { result ≡ true
        → first_failing (attribute_keeps class.now) 0 class.now.attributes ≡ None }
{
    let mut rest = class.attributes();
    let mut place = 0;
    while let Some(item) = rest.next() {
        if !attribute_keeps(class, place, &item) {
            return false;
        }
        place += 1;
    }
    true
}

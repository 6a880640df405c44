//! The attributes whose contents are checked, by their names.
ghost use Rattle.std.specs.Prelude.{◌≡◌, position};
ghost use Rattle.cm_attributes.specs.Names.{is_known, count_of, first_place};

use crate::attributes::LaidAttributes;
use crate::laid::LaidClass;
use cm_attributes::Known;
use cm_class::Attribute;

/// Whether an attribute of a class, or of its members, is this one, by its name.
#[tactic(auto, unfolding(cm_attributes::specs::Names::is_known))]
pub(crate) fn is_known(class: &LaidClass, known: Known, attribute: &Attribute) -> bool
    ensures { result ≡ is_known class.now known attribute.now }
{
    class.names_utf8(attribute.name, known.name())
}

/// How many of the attributes are this one.
pub(crate) fn count(class: &LaidClass, known: Known, attributes: LaidAttributes) -> usize
    ensures { result ≡ count_of class.now known attributes.entry }
{
    let most = attributes.len();
    let mut rest = attributes;
    let mut found = 0;
    for _ in 0..most {
        match rest.next() {
            Some(attribute) => {
                if is_known(class, known, &attribute) {
                    found += 1;
                }
            }
            None => return found,
        }
    }
    found
}

fn position_of(class: &LaidClass, known: Known) -> Option<usize>
    ensures { result ≡ position (is_known class.now known) class.now.attributes }
{
    let mut rest = class.attributes();
    let mut place = 0;
    while let Some(attribute) = rest.next() {
        if is_known(class, known, &attribute) {
            return Some(place);
        }
        place += 1;
    }
    None
}

/// The first place at which this attribute is among the attributes of the class itself; if it isn't
/// there, their number.
#[tactic(auto, unfolding(cm_attributes::specs::Names::first_place))]
pub(crate) fn first_place(class: &LaidClass, known: Known) -> usize
    ensures { result ≡ first_place class.now known }
{
    position_of(class, known).unwrap_or(class.attributes().len())
}

//! What the rules require of the attributes of fields, methods and the class.
ghost use Rattle.std.specs.Prelude.{◌≡◌};
ghost use Rattle.std.specs.List.{list_all};
ghost use Rattle.cm_constraints.specs.Attributes.{has_content_of, are_values_of, values_agree};
ghost use Rattle.cm_constraints.specs.Attributes.{field_attributes_are_right};
ghost use Rattle.cm_constraints.specs.Attributes.{method_attributes_are_right, is_first_of};
ghost use Rattle.cm_constraints.specs.Attributes.{class_attribute_is_right};
ghost use Rattle.cm_constraints.specs.Attributes.{bootstrap_attribute_is_right};

use crate::attributes::LaidAttributes;
use crate::contents::{is_content, is_value_of};
use crate::known::{count, first_place, is_known};
use crate::laid::LaidClass;
use crate::members::LaidMember;
use cm_attributes::Known;
use cm_class::Attribute;
use cm_constraints::{ACC_STATIC, has};

const OF_FIELD: [Known; 4] = [
    Known::ConstantValue,
    Known::Signature,
    Known::Synthetic,
    Known::Deprecated,
];

const OF_METHOD: [Known; 4] = [
    Known::Exceptions,
    Known::Signature,
    Known::Synthetic,
    Known::Deprecated,
];

const ONCE_IN_CLASS: [Known; 3] = [
    Known::SourceFile,
    Known::EnclosingMethod,
    Known::InnerClasses,
];

const OF_CLASS: [Known; 6] = [
    Known::SourceFile,
    Known::EnclosingMethod,
    Known::InnerClasses,
    Known::Signature,
    Known::Synthetic,
    Known::Deprecated,
];

/// Whether an attribute that is one of these by its name has that one's content.
fn has_content_of(class: &LaidClass, among: &[Known], attribute: &Attribute) -> bool
    ensures { result ≡ has_content_of class.now among.now attribute.now }
{
    among.iter().all(|known| {
        !is_known(class, *known, attribute) || is_content(class, *known, attribute.content())
    })
}

fn have_content_of(class: &LaidClass, among: &[Known], attributes: LaidAttributes) -> bool
    ensures { result ≡ list_all (has_content_of class.now among.now) attributes.entry }
{
    let mut rest = attributes;
    while let Some(attribute) = rest.next() {
        if !has_content_of(class, among, &attribute) {
            return false;
        }
    }
    true
}

/// Whether each ConstantValue among the attributes is a value of this descriptor's type.
fn are_values_of(class: &LaidClass, descriptor: &[u8], attributes: LaidAttributes) -> bool
    ensures { result ≡ are_values_of class.now descriptor.now attributes.entry }
{
    let mut rest = attributes;
    while let Some(attribute) = rest.next() {
        if is_known(class, Known::ConstantValue, &attribute)
            && !is_value_of(class, descriptor, attribute.content())
        {
            return false;
        }
    }
    true
}

/// Whether the value of a static field is one of its type (JVMS 4.7.2).
fn values_agree(class: &LaidClass, field: &LaidMember) -> bool
    ensures { result ≡ values_agree class.now field.now }
{
    !has(field.flags(), ACC_STATIC)
        || are_values_of(class, class.utf8(field.descriptor()), field.attributes())
}

/// Whether a field's attributes have their contents, with at most one ConstantValue, which is of
/// the field's type if the field is static (JVMS 4.7.2, 4.7.8, 4.7.9, 4.7.15).
pub(crate) fn field_attributes_are_right(class: &LaidClass, field: &LaidMember) -> bool
    ensures { result ≡ field_attributes_are_right class.now field.now }
{
    count(class, Known::ConstantValue, field.attributes()) <= 1
        && have_content_of(class, &OF_FIELD, field.attributes())
        && values_agree(class, field)
}

/// Whether a method's attributes, except its code, have their contents, with at most one Exceptions
/// (JVMS 4.7.5, 4.7.8, 4.7.9, 4.7.15).
pub(crate) fn method_attributes_are_right(class: &LaidClass, method: &LaidMember) -> bool
    ensures { result ≡ method_attributes_are_right class.now method.now }
{
    count(class, Known::Exceptions, method.attributes()) <= 1
        && have_content_of(class, &OF_METHOD, method.attributes())
}

/// Whether an attribute of the class at a place is none of these, or the first of its name. The
/// places are searched only for an attribute with such a name; a second one with the name ends the
/// search.
fn is_first_of(class: &LaidClass, among: &[Known], place: usize, attribute: &Attribute) -> bool
    ensures { result ≡ is_first_of class.now among.now place attribute.now }
{
    among.iter().all(|known| !is_known(class, *known, attribute)
        || place <= first_place(class, *known))
}

/// Whether an attribute of the class at a place has its content, and no attribute of its name
/// before it if a class has at most one (JVMS 4.7.6 to 4.7.10, 4.7.15).
pub(crate) fn class_attribute_is_right(
    class: &LaidClass,
    place: usize,
    attribute: &Attribute,
) -> bool
    ensures { result ≡ class_attribute_is_right class.now place attribute.now }
{
    is_first_of(class, &ONCE_IN_CLASS, place, attribute)
        && has_content_of(class, &OF_CLASS, attribute)
}

/// Whether an attribute of the class at a place isn't BootstrapMethods, or the first one and has
/// the content of one (JVMS 4.7.23).
pub(crate) fn bootstrap_attribute_is_right(
    class: &LaidClass,
    place: usize,
    attribute: &Attribute,
) -> bool
    ensures { result ≡ bootstrap_attribute_is_right class.now place attribute.now }
{
    is_first_of(class, &[Known::BootstrapMethods], place, attribute)
        && has_content_of(class, &[Known::BootstrapMethods], attribute)
}

//! What the rules require of one field.
ghost use Rattle.std.specs.Prelude.{◌≡◌};
ghost use Rattle.std.specs.List.{list_all};
ghost use Rattle.cm_class.specs.declared.kind.Kind.TheVariants as kinds;
ghost use Rattle.cm_class.specs.Names.{names};
ghost use Rattle.cm_constraints.specs.Members.{names_utf8s, field_is_named};

use crate::subject::Subject;
use cm_class::{Attributes, Class, Kind, Member};

fn attributes_name_utf8s(class: &Class, attributes: &Attributes) -> bool
    ensures { result ≡ list_all (λ a. names kinds.Utf8 class.now a.name) attributes.now }
{
    let mut rest = attributes.iter();
    while let Some(attribute) = rest.next() {
        if !class.names(attribute.name, Kind::Utf8) {
            return false;
        }
    }
    true
}

/// Whether the name and the descriptor of a field or method, and the names of its attributes, are
/// Utf8s (JVMS 4.5, 4.6, 4.7).
pub fn names_utf8s(class: &Class, member: &Member) -> bool
    ensures { result ≡ names_utf8s class.now member.now }
{
    class.names(member.name, Kind::Utf8)
        && class.names(member.descriptor, Kind::Utf8)
        && attributes_name_utf8s(class, &member.attributes())
}

/// Whether a field has a field's name and descriptor (JVMS 4.5).
pub fn field_is_named(subject: &Subject, field: &Member) -> bool
    ensures { result ≡ field_is_named subject.now.class.now field.now }
{
    subject.names_unqualified_name(field.name) && subject.names_field_descriptor(field.descriptor)
}

//! What the rules require of the fields of a class, except that no two are the same.
ghost use Rattle.std.specs.Prelude.{◌≡◌, true};
ghost use Rattle.std.specs.List.{list_all};
ghost use Rattle.cm_class.specs.declared.kind.Kind.TheVariants as kinds;
ghost use Rattle.cm_class.specs.Names.{names};
ghost use Rattle.cm_constraints.specs.Members.{names_utf8s, field_is_named};
ghost use Rattle.cm_rules.specs.Kept.{field_keeps};

use crate::attributes::LaidAttributes;
use crate::contained::field_attributes_are_right;
use crate::laid::LaidClass;
use crate::members::LaidMember;
use cm_class::Kind;
use cm_constraints::field_flags_agree;

fn attributes_name_utf8s(class: &LaidClass, attributes: LaidAttributes) -> bool
    ensures { result ≡ list_all (λ a. names kinds.Utf8 class.now a.name) attributes.entry }
{
    let mut rest = attributes;
    while let Some(attribute) = rest.next() {
        if !class.names(attribute.name, Kind::Utf8) {
            return false;
        }
    }
    true
}

/// Whether the name and the descriptor of a field or method, and the names of its attributes, are
/// Utf8s (JVMS 4.5, 4.6, 4.7).
pub(crate) fn names_utf8s(class: &LaidClass, member: &LaidMember) -> bool
    ensures { result ≡ names_utf8s class.now member.now }
{
    class.names(member.name(), Kind::Utf8)
        && class.names(member.descriptor(), Kind::Utf8)
        && attributes_name_utf8s(class, member.attributes())
}

/// Whether a field has a field's name and descriptor (JVMS 4.5).
fn field_is_named(class: &LaidClass, field: &LaidMember) -> bool
    ensures { result ≡ field_is_named class.now field.now }
{
    class.names_unqualified_name(field.name()) && class.names_field_descriptor(field.descriptor())
}

#[tactic(auto, unfolding(cm_rules::specs::Kept::field_keeps))]
fn field_keeps(class: &LaidClass, field: &LaidMember) -> bool
    ensures { result ≡ field_keeps class.now field.now }
{
    names_utf8s(class, field)
        && field_is_named(class, field)
        && field_flags_agree(class.flags(), field.flags())
        && field_attributes_are_right(class, field)
}

/// Whether each field keeps all rules except that no other field is the same.
pub(crate) fn fields_keep(class: &LaidClass) -> bool
    ensures { result ≡ list_all (field_keeps class.now) class.now.fields }
{
    let mut rest = class.fields();
    while let Some(field) = rest.next() {
        if !field_keeps(class, &field) {
            return false;
        }
    }
    true
}

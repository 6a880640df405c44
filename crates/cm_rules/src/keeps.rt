//! Whether a class keeps all rules, found in one pass. Most classes do; for the others the first
//! broken rule is searched for in order.
ghost use Rattle.std.specs.Prelude.{◌≡◌, true, None};
ghost use Rattle.std.specs.List.{list_all};
ghost use Rattle.cm_duplicates.specs.Duplicates.{first_failing};
ghost use Rattle.cm_constraints.specs.Constants.{in_slot};
ghost use Rattle.cm_rules.specs.Fault.{fault};
ghost use Rattle.cm_rules.specs.Kept.{constant_keeps, this_keeps, super_keeps, interface_keeps};
ghost use Rattle.cm_rules.specs.Kept.{field_keeps, method_keeps, attribute_keeps};

use crate::findings::Findings;
use cm_class::{Attribute, Bytes, Class, Constant, Kind, Member, Slot};
use cm_constraints::{
    Subject, bootstrap_attribute_is_right, class_attribute_is_right, class_flags_agree,
    class_has_name, code_count_is_right, code_has_form, dynamic_call_is_bound,
    dynamic_call_is_formed, field_attributes_are_right, field_flags_agree, field_is_named,
    field_reference_is_formed, flags_fit_method, handle_has_kind, handle_has_name,
    method_attributes_are_right, method_is_named, method_reference_is_formed,
    method_type_is_formed, names_kinds, names_utf8s, super_is_right, this_is_no_array, units_fit,
};

/// Whether a constant keeps all rules except that on the form of Utf8s.
#[tactic(auto, unfolding(crate::specs::Kept::constant_keeps, crate::specs::Fault::pool_rule))]
fn constant_keeps(subject: &Subject, constant: &Constant<Bytes>) -> bool
    ensures { result ≡ constant_keeps subject.now.class.now constant.now }
{
    let class = subject.class;
    match constant {
        Constant::Class { .. } => names_kinds(class, constant) && class_has_name(subject, constant),
        Constant::String { .. } | Constant::NameAndType { .. } => names_kinds(class, constant),
        Constant::Fieldref { .. } => {
            names_kinds(class, constant) && field_reference_is_formed(subject, constant)
        }
        Constant::Methodref { .. } | Constant::InterfaceMethodref { .. } => {
            names_kinds(class, constant) && method_reference_is_formed(subject, constant)
        }
        Constant::MethodHandle { .. } => {
            handle_has_kind(class, constant) && handle_has_name(class, constant)
        }
        Constant::MethodType { .. } => {
            names_kinds(class, constant) && method_type_is_formed(subject, constant)
        }
        Constant::InvokeDynamic { .. } => {
            names_kinds(class, constant)
                && dynamic_call_is_formed(subject, constant)
                && dynamic_call_is_bound(subject, constant)
        }
        Constant::Utf8(_)
        | Constant::Integer(_)
        | Constant::Float(_)
        | Constant::Long(_)
        | Constant::Double(_) => true,
    }
}

fn slot_keeps(subject: &Subject, slot: &Slot) -> bool
    ensures { result ≡ in_slot (constant_keeps subject.now.class.now) slot.now }
{
    match slot {
        Slot::Usable(constant) => constant_keeps(subject, constant),
        Slot::Unusable => true,
    }
}

fn slots_keep(subject: &Subject) -> bool
    ensures { result
        ≡ list_all (in_slot (constant_keeps subject.now.class.now)) subject.now.class.now.slots }
{
    subject
        .class
        .slots()
        .iter()
        .all(|slot| slot_keeps(subject, slot))
}

#[tactic(auto, unfolding(crate::specs::Kept::this_keeps, crate::specs::Fault::this_rule))]
fn this_keeps(class: &Class) -> bool
    ensures { result ≡ this_keeps class.now }
{
    class.names(class.this_class(), Kind::Class)
        && class_flags_agree(class.flags())
        && this_is_no_array(class)
}

#[tactic(auto, unfolding(crate::specs::Kept::super_keeps, crate::specs::Fault::super_rule))]
fn super_keeps(class: &Class) -> bool
    ensures { result ≡ super_keeps class.now }
{
    (class.super_class() == 0 || class.names(class.super_class(), Kind::Class))
        && super_is_right(class)
}

#[tactic(auto, unfolding(crate::specs::Kept::interface_keeps, crate::specs::Fault::interface_rule))]
fn interface_keeps(class: &Class, index: u16) -> bool
    ensures { result ≡ interface_keeps class.now index }
{
    class.names(index, Kind::Class)
}

fn interfaces_keep(class: &Class) -> bool
    ensures { result ≡ list_all (interface_keeps class.now) class.now.interfaces }
{
    class
        .interfaces()
        .iter()
        .all(|index| interface_keeps(class, *index))
}

/// Whether a field keeps all rules except that no other field is the same.
#[tactic(auto, unfolding(crate::specs::Kept::field_keeps))]
fn field_keeps(subject: &Subject, field: &Member) -> bool
    ensures { result ≡ field_keeps subject.now.class.now field.now }
{
    let class = subject.class;
    names_utf8s(class, field)
        && field_is_named(subject, field)
        && field_flags_agree(class.flags(), field.flags)
        && field_attributes_are_right(class, field)
}

fn fields_keep(subject: &Subject) -> bool
    ensures { result ≡ list_all (field_keeps subject.now.class.now) subject.now.class.now.fields }
{
    subject
        .class
        .fields()
        .iter()
        .all(|field| field_keeps(subject, field))
}

/// Whether a method keeps all rules except that no other method is the same.
#[tactic(auto, unfolding(crate::specs::Kept::method_keeps))]
fn method_keeps(subject: &Subject, method: &Member) -> bool
    ensures { result ≡ method_keeps subject.now.class.now method.now }
{
    let class = subject.class;
    names_utf8s(class, method)
        && method_is_named(subject, method)
        && units_fit(subject, method)
        && flags_fit_method(class, method)
        && code_count_is_right(class, method)
        && code_has_form(class, method)
        && method_attributes_are_right(class, method)
}

fn methods_keep(subject: &Subject) -> bool
    ensures { result ≡ list_all (method_keeps subject.now.class.now) subject.now.class.now.methods }
{
    subject
        .class
        .methods()
        .iter()
        .all(|method| method_keeps(subject, method))
}

#[tactic(auto, unfolding(crate::specs::Kept::attribute_keeps, crate::specs::Fault::attribute_rule))]
fn attribute_keeps(class: &Class, place: usize, attribute: &Attribute) -> bool
    ensures { result ≡ attribute_keeps class.now place attribute.now }
{
    class.names(attribute.name, Kind::Utf8)
        && class_attribute_is_right(class, place, attribute)
        && bootstrap_attribute_is_right(class, place, attribute)
}

fn attributes_keep(class: &Class) -> bool
    ensures { result ≡ true
        → first_failing (attribute_keeps class.now) 0 class.now.attributes ≡ None }
{
    let mut rest = class.attributes();
    let mut place = 0;
    while let Some(item) = rest.next() {
        if !attribute_keeps(class, place, &item) {
            return false;
        }
        place += 1;
    }
    true
}

/// Whether the class is found to keep all rules.
#[tactic(auto, using(crate::proofs::KeptRules::no_fault))]
pub(crate) fn keeps_rules(findings: &Findings) -> bool
    ensures { result ≡ true → fault findings.now.class.now ≡ None }
{
    let subject = &findings.subject;
    subject.utf8s_have_form()
        && slots_keep(subject)
        && this_keeps(subject.class)
        && super_keeps(subject.class)
        && interfaces_keep(subject.class)
        && fields_keep(subject)
        && methods_keep(subject)
        && attributes_keep(subject.class)
        && findings.duplicate_field.is_none()
        && findings.duplicate_method.is_none()
}

//! Each rule by the sort of spot that it concerns.
ghost use Rattle.std.specs.Prelude.{◌≡◌};
ghost use Rattle.cm_constraints.specs.Constants.{in_slot};
ghost use Rattle.cm_rules.specs.Fault.{pool_rule, this_rule, super_rule, interface_rule};
ghost use Rattle.cm_rules.specs.Fault.{field_constraint, method_constraint, attribute_rule};

use crate::findings::Findings;
use crate::rule::Rule;
use cm_class::{Attribute, Bytes, Constant, Kind, Member, Slot};
use cm_constraints::{
    bootstrap_attribute_is_right, class_attribute_is_right, class_flags_agree, class_has_name,
    code_count_is_right, code_has_form, dynamic_call_is_bound, dynamic_call_is_formed,
    field_attributes_are_right, field_flags_agree, field_is_named, field_reference_is_formed,
    flags_fit_method, handle_has_kind, handle_has_name, method_attributes_are_right,
    method_is_named, method_reference_is_formed, method_type_is_formed, names_kinds, names_utf8s,
    super_is_right, this_is_no_array, units_fit, utf8_has_form,
};

#[tactic(auto, unfolding(crate::specs::Fault::pool_rule))]
pub(crate) fn pool_rule(findings: &Findings, rule: Rule, constant: &Constant<Bytes>) -> bool
    ensures { result ≡ pool_rule rule findings.now.class.now constant.now }
{
    let class = findings.class;
    match rule {
        Rule::Utf8Form => utf8_has_form(constant),
        Rule::EntryKinds => names_kinds(class, constant),
        Rule::HandleKind => handle_has_kind(class, constant),
        Rule::ClassName => class_has_name(&findings.subject, constant),
        Rule::FieldReference => field_reference_is_formed(&findings.subject, constant),
        Rule::MethodReference => method_reference_is_formed(&findings.subject, constant),
        Rule::DynamicCall => dynamic_call_is_formed(&findings.subject, constant),
        Rule::MethodType => method_type_is_formed(&findings.subject, constant),
        Rule::HandleName => handle_has_name(class, constant),
        Rule::BootstrapMethods => dynamic_call_is_bound(&findings.subject, constant),
        _ => true,
    }
}

pub(crate) fn slot_rule(findings: &Findings, rule: Rule, slot: &Slot) -> bool
    ensures { result ≡ in_slot (pool_rule rule findings.now.class.now) slot.now }
{
    match slot {
        Slot::Usable(constant) => pool_rule(findings, rule, constant),
        Slot::Unusable => true,
    }
}

#[tactic(auto, unfolding(crate::specs::Fault::this_rule))]
pub(crate) fn this_rule(findings: &Findings, rule: Rule) -> bool
    ensures { result ≡ this_rule rule findings.now.class.now }
{
    let class = findings.class;
    match rule {
        Rule::EntryKinds => class.names(class.this_class(), Kind::Class),
        Rule::ClassFlags => class_flags_agree(class.flags()),
        Rule::ThisClass => this_is_no_array(class),
        _ => true,
    }
}

#[tactic(auto, unfolding(crate::specs::Fault::super_rule))]
pub(crate) fn super_rule(findings: &Findings, rule: Rule) -> bool
    ensures { result ≡ super_rule rule findings.now.class.now }
{
    let class = findings.class;
    match rule {
        Rule::EntryKinds => {
            class.super_class() == 0 || class.names(class.super_class(), Kind::Class)
        }
        Rule::SuperClass => super_is_right(class),
        _ => true,
    }
}

#[tactic(auto, unfolding(crate::specs::Fault::interface_rule))]
pub(crate) fn interface_rule(findings: &Findings, rule: Rule, index: u16) -> bool
    ensures { result ≡ interface_rule rule findings.now.class.now index }
{
    match rule {
        Rule::EntryKinds => findings.class.names(index, Kind::Class),
        _ => true,
    }
}

/// What a rule says about a field, independently of the fields before it.
#[tactic(auto, unfolding(crate::specs::Fault::field_constraint))]
pub(crate) fn field_constraint(findings: &Findings, rule: Rule, field: &Member) -> bool
    ensures { result ≡ field_constraint rule findings.now.class.now field.now }
{
    let class = findings.class;
    match rule {
        Rule::EntryKinds => names_utf8s(class, field),
        Rule::FieldName => field_is_named(&findings.subject, field),
        Rule::FieldFlags => field_flags_agree(class.flags(), field.flags),
        Rule::MemberAttributes => field_attributes_are_right(class, field),
        _ => true,
    }
}

/// What a rule says about a method, independently of the methods before it.
#[tactic(auto, unfolding(crate::specs::Fault::method_constraint))]
pub(crate) fn method_constraint(findings: &Findings, rule: Rule, method: &Member) -> bool
    ensures { result ≡ method_constraint rule findings.now.class.now method.now }
{
    let class = findings.class;
    match rule {
        Rule::EntryKinds => names_utf8s(class, method),
        Rule::MethodName => method_is_named(&findings.subject, method),
        Rule::MethodUnits => units_fit(&findings.subject, method),
        Rule::MethodFlags => flags_fit_method(class, method),
        Rule::CodeCount => code_count_is_right(class, method),
        Rule::CodeForm => code_has_form(class, method),
        Rule::MemberAttributes => method_attributes_are_right(class, method),
        _ => true,
    }
}

#[tactic(auto, unfolding(crate::specs::Fault::attribute_rule))]
pub(crate) fn attribute_rule(
    findings: &Findings,
    rule: Rule,
    place: usize,
    attribute: &Attribute,
) -> bool
    ensures { result ≡ attribute_rule rule findings.now.class.now place attribute.now }
{
    match rule {
        Rule::EntryKinds => findings.class.names(attribute.name, Kind::Utf8),
        Rule::ClassAttributes => class_attribute_is_right(findings.class, place, attribute),
        Rule::BootstrapMethods => bootstrap_attribute_is_right(findings.class, place, attribute),
        _ => true,
    }
}

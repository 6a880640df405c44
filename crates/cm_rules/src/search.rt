//! The first spot at which a class breaks a rule.
ghost use Rattle.std.specs.Prelude.{◌≡◌, ◌≤◌, ◌<◌, ◌+◌, ◌^◌, Bool, false, true, length, IfSome};
ghost use Rattle.std.specs.Fn.{FnReturnsAt};
ghost use Rattle.cm_class.specs.declared.class_file.ClassFile.{ClassFile};
ghost use Rattle.cm_class.specs.Spelling.{ClassConstant};
ghost use Rattle.cm_duplicates.specs.Duplicates.{first_failing};
ghost use Rattle.cm_rules.specs.Fault.{field_constraint, method_constraint, slot_failing};
ghost use Rattle.cm_rules.specs.Fault.{interface_failing, field_failing, method_failing};
ghost use Rattle.cm_rules.specs.Fault.{attribute_failing, item_spot, own_spot, found_spot};
ghost use Rattle.cm_rules.specs.Fault.{broken_spot, fault, pool_rule};

use crate::findings::Findings;
use crate::rule::{Rule, Spot};
use crate::rules::{
    attribute_rule, field_constraint, interface_rule, method_constraint, slot_rule, super_rule,
    this_rule,
};

/// The place of the first item that fails a test.
fn first_failing<T, F: Fn(&T) -> bool>(items: &[T], passes: F) -> Option<u16>
    requires callable { F.IsAlwaysCallable passes }
    requires short { length items.now ≤ 2 ^ 16 }
    ensures place { (test : T → Bool)
        → ((item : T) (r : Bool) → FnReturnsAt F.Fn passes item r → r ≡ test item)
        → result ≡ first_failing (λ _ item. test item) 0 items.now }
    ensures within { IfSome result (λ place. place < length items.now) }
{
    for (place, item) in items.iter().enumerate() {
        if !passes(item) {
            return Some(place as u16);
        }
    }
    None
}

fn first_slot(findings: &Findings, rule: Rule) -> Option<u16>
    ensures place { result ≡ slot_failing findings.now.class.now rule }
    ensures within { IfSome result (λ place. place + 1 < 2 ^ 16) }
{
    first_failing(
        findings.class.slots(),
        |slot| slot_rule(findings, rule, slot),
    )
}

fn first_interface(findings: &Findings, rule: Rule) -> Option<u16>
    ensures { result ≡ interface_failing findings.now.class.now rule }
{
    first_failing(
        findings.class.interfaces(),
        |index| interface_rule(findings, rule, *index),
    )
}

fn first_field(findings: &Findings, rule: Rule) -> Option<u16>
    ensures { result ≡ field_failing findings.now.class.now rule }
{
    match rule {
        Rule::FieldTwice => findings.duplicate_field,
        _ => first_failing(findings.class.fields(), |field| {
            field_constraint(findings, rule, field)
        }),
    }
}

fn first_method(findings: &Findings, rule: Rule) -> Option<u16>
    ensures { result ≡ method_failing findings.now.class.now rule }
{
    match rule {
        Rule::MethodTwice => findings.duplicate_method,
        _ => first_failing(findings.class.methods(), |method| {
            method_constraint(findings, rule, method)
        }),
    }
}

fn first_attribute(findings: &Findings, rule: Rule) -> Option<u16>
    ensures { result ≡ attribute_failing findings.now.class.now rule }
{
    let mut rest = findings.class.attributes();
    let mut place = 0;
    while let Some(item) = rest.next() {
        if !attribute_rule(findings, rule, place, &item) {
            return Some(place as u16);
        }
        place += 1;
    }
    None
}

/// The first interface, field, method or attribute at which the class breaks the rule.
#[tactic(auto, unfolding(crate::specs::Fault::item_spot))]
fn item_spot(findings: &Findings, rule: Rule) -> Option<Spot>
    ensures { result ≡ item_spot findings.now.class.now rule }
{
    if let Some(place) = first_interface(findings, rule) {
        return Some(Spot::Interface(place));
    }
    if let Some(place) = first_field(findings, rule) {
        return Some(Spot::Field(place));
    }
    if let Some(place) = first_method(findings, rule) {
        return Some(Spot::Method(place));
    }
    let place = first_attribute(findings, rule)?;
    Some(Spot::Attribute(place))
}

#[tactic(auto, unfolding(crate::specs::Fault::own_spot))]
fn own_spot(findings: &Findings, rule: Rule) -> Option<Spot>
    ensures { result ≡ own_spot findings.now.class.now rule }
{
    if !this_rule(findings, rule) {
        return Some(Spot::This);
    }
    if !super_rule(findings, rule) {
        return Some(Spot::Super);
    }
    None
}

/// Whether a rule concerns constants of the pool.
#[tactic(auto, unfolding(crate::specs::Fault::pool_rule))]
fn speaks_of_pool(rule: Rule) -> bool
    ensures { result ≡ false → (c : ClassFile) (k : ClassConstant) → pool_rule rule c k ≡ true }
{
    match rule {
        Rule::Utf8Form
        | Rule::EntryKinds
        | Rule::HandleKind
        | Rule::ClassName
        | Rule::FieldReference
        | Rule::MethodReference
        | Rule::DynamicCall
        | Rule::MethodType
        | Rule::HandleName
        | Rule::BootstrapMethods => true,
        _ => false,
    }
}

/// The place of the first constant that breaks the rule. Pools are long, so a rule that concerns no
/// constants checks none.
fn pool_place(findings: &Findings, rule: Rule) -> Option<u16>
    ensures place { result ≡ slot_failing findings.now.class.now rule }
    ensures within { IfSome result (λ place. place + 1 < 2 ^ 16) }
{
    if speaks_of_pool(rule) {
        first_slot(findings, rule)
    } else {
        None
    }
}

fn found_spot(findings: &Findings, rule: Rule) -> Option<Spot>
    ensures { result ≡ found_spot findings.now.class.now rule }
{
    if let Some(place) = pool_place(findings, rule) {
        return Some(Spot::Pool(place + 1));
    }
    if let Some(spot) = own_spot(findings, rule) {
        return Some(spot);
    }
    item_spot(findings, rule)
}

/// The first spot at which the class breaks the rule.
pub(crate) fn broken_spot(findings: &Findings, rule: Rule) -> Option<Spot>
    ensures { result ≡ broken_spot findings.now.class.now rule }
{
    found_spot(findings, rule)
}

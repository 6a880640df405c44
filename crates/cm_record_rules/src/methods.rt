//! What the rules require of the methods of a class, except that no two are the same.
ghost use Rattle.std.specs.Prelude.{◌≡◌};
ghost use Rattle.cm_constraints.specs.Members.{method_is_named, is_clinit, is_init, units_fit};
ghost use Rattle.cm_constraints.specs.Members.{flags_fit_method, code_count_is_right};
ghost use Rattle.cm_constraints.specs.Members.{code_has_form};
ghost use Rattle.std.specs.List.{list_all};
ghost use Rattle.cm_rules.specs.Kept.{method_keeps};

use crate::contained::method_attributes_are_right;
use crate::contents::is_content;
use crate::fields::names_utf8s;
use crate::known::{count, is_known};
use crate::laid::LaidClass;
use crate::members::LaidMember;
use cm_attributes::Known;
use cm_constraints::{
    ACC_ABSTRACT, ACC_NATIVE, ACC_STATIC, constructor_flags_agree, has, method_flags_agree,
};

/// Whether a method has a method's name and descriptor (JVMS 4.6).
fn method_is_named(class: &LaidClass, method: &LaidMember) -> bool
    ensures { result ≡ method_is_named class.now method.now }
{
    class.names_method_name(method.name()) && class.names_method_descriptor(method.descriptor())
}

fn is_clinit(class: &LaidClass, method: &LaidMember) -> bool
    ensures { result ≡ is_clinit class.now method.now }
{
    class.utf8(method.name()) == b"<clinit>".as_slice()
}

fn is_init(class: &LaidClass, method: &LaidMember) -> bool
    ensures { result ≡ is_init class.now method.now }
{
    class.utf8(method.name()) == b"<init>".as_slice()
}

/// Whether a method's parameters, with its receiver, have at most 255 units (JVMS 4.3.3).
fn units_fit(class: &LaidClass, method: &LaidMember) -> bool
    ensures { result ≡ units_fit class.now method.now }
{
    if has(method.flags(), ACC_STATIC) || is_clinit(class, method) {
        return true;
    }
    match class.method_units(method.descriptor()) {
        Some(units) => units <= 254,
        None => false,
    }
}

/// Whether a method's flags agree; those of `<clinit>` always do (JVMS 4.6).
fn flags_fit_method(class: &LaidClass, method: &LaidMember) -> bool
    ensures { result ≡ flags_fit_method class.now method.now }
{
    is_clinit(class, method)
        || (method_flags_agree(class.flags(), method.flags())
            && (!is_init(class, method) || constructor_flags_agree(method.flags())))
}

/// Whether a native or abstract method has no code, any other has exactly one, and `<clinit>` at
/// most one (JVMS 4.7.3).
fn code_count_is_right(class: &LaidClass, method: &LaidMember) -> bool
    ensures { result ≡ code_count_is_right class.now method.now }
{
    let codes = count(class, Known::Code, method.attributes());
    if is_clinit(class, method) {
        codes <= 1
    } else if has(method.flags(), ACC_NATIVE | ACC_ABSTRACT) {
        codes == 0
    } else {
        codes == 1
    }
}

/// Whether each code of a method has the content of one (JVMS 4.7.3).
fn code_has_form(class: &LaidClass, method: &LaidMember) -> bool
    ensures { result ≡ code_has_form class.now method.now }
{
    let mut rest = method.attributes();
    while let Some(attribute) = rest.next() {
        if is_known(class, Known::Code, &attribute)
            && !is_content(class, Known::Code, attribute.content())
        {
            return false;
        }
    }
    true
}

#[tactic(auto, unfolding(cm_rules::specs::Kept::method_keeps))]
fn method_keeps(class: &LaidClass, method: &LaidMember) -> bool
    ensures { result ≡ method_keeps class.now method.now }
{
    names_utf8s(class, method)
        && method_is_named(class, method)
        && units_fit(class, method)
        && flags_fit_method(class, method)
        && code_count_is_right(class, method)
        && code_has_form(class, method)
        && method_attributes_are_right(class, method)
}

/// Whether each method keeps all rules except that no other method is the same.
pub(crate) fn methods_keep(class: &LaidClass) -> bool
    ensures { result ≡ list_all (method_keeps class.now) class.now.methods }
{
    let mut rest = class.methods();
    while let Some(method) = rest.next() {
        if !method_keeps(class, &method) {
            return false;
        }
    }
    true
}

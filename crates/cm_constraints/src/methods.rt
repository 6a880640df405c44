//! What the rules require of one method.
ghost use Rattle.std.specs.Prelude.{◌≡◌};
ghost use Rattle.cm_constraints.specs.Members.{method_is_named, is_clinit, is_init, units_fit};
ghost use Rattle.cm_constraints.specs.Members.{flags_fit_method, code_count_is_right};
ghost use Rattle.cm_constraints.specs.Members.{code_has_form};

use crate::flags::{
    ACC_ABSTRACT, ACC_NATIVE, ACC_STATIC, constructor_flags_agree, has, method_flags_agree,
};
use crate::subject::Subject;
use cm_attributes::{Known, count, is_content, is_known};
use cm_class::{Class, Member};

/// Whether a method has a method's name and descriptor (JVMS 4.6).
pub fn method_is_named(subject: &Subject, method: &Member) -> bool
    ensures { result ≡ method_is_named subject.now.class.now method.now }
{
    subject.names_method_name(method.name) && subject.names_method_descriptor(method.descriptor)
}

fn is_clinit(class: &Class, method: &Member) -> bool
    ensures { result ≡ is_clinit class.now method.now }
{
    class.utf8(method.name) == b"<clinit>".as_slice()
}

fn is_init(class: &Class, method: &Member) -> bool
    ensures { result ≡ is_init class.now method.now }
{
    class.utf8(method.name) == b"<init>".as_slice()
}

/// Whether a method's parameters, with its receiver, have at most 255 units (JVMS 4.3.3).
pub fn units_fit(subject: &Subject, method: &Member) -> bool
    ensures { result ≡ units_fit subject.now.class.now method.now }
{
    if has(method.flags, ACC_STATIC) || is_clinit(subject.class, method) {
        return true;
    }
    match subject.method_units(method.descriptor) {
        Some(units) => units <= 254,
        None => false,
    }
}

/// Whether a method's flags agree; those of `<clinit>` always do (JVMS 4.6).
pub fn flags_fit_method(class: &Class, method: &Member) -> bool
    ensures { result ≡ flags_fit_method class.now method.now }
{
    is_clinit(class, method)
        || (method_flags_agree(class.flags(), method.flags)
            && (!is_init(class, method) || constructor_flags_agree(method.flags)))
}

/// Whether a native or abstract method has no code, any other has exactly one, and `<clinit>` at
/// most one (JVMS 4.7.3).
pub fn code_count_is_right(class: &Class, method: &Member) -> bool
    ensures { result ≡ code_count_is_right class.now method.now }
{
    let codes = count(class, Known::Code, &method.attributes());
    if is_clinit(class, method) {
        codes <= 1
    } else if has(method.flags, ACC_NATIVE | ACC_ABSTRACT) {
        codes == 0
    } else {
        codes == 1
    }
}

/// Whether each code of a method has the content of one (JVMS 4.7.3).
pub fn code_has_form(class: &Class, method: &Member) -> bool
    ensures { result ≡ code_has_form class.now method.now }
{
    let mut rest = method.attributes();
    while let Some(attribute) = rest.next() {
        if is_known(class, Known::Code, &attribute)
            && !is_content(class, Known::Code, attribute.content())
        {
            return false;
        }
    }
    true
}

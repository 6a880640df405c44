//! What each static constraint requires of one part of a class (JVMS SE 8, chapter 4).
#![tactic(auto)]

mod attributes;
mod constants;
mod fields;
mod flags;
mod itself;
mod methods;
mod reference_kind;
mod subject;
mod utf8s;

pub use attributes::{
    bootstrap_attribute_is_right, class_attribute_is_right, field_attributes_are_right,
    method_attributes_are_right,
};
pub use constants::{
    class_has_name, dynamic_call_is_bound, dynamic_call_is_formed, field_reference_is_formed,
    handle_has_kind, handle_has_name, method_reference_is_formed, method_type_is_formed,
    names_kinds, utf8_has_form,
};
pub use fields::{field_is_named, names_utf8s};
pub use flags::{
    ACC_ABSTRACT, ACC_INTERFACE, ACC_NATIVE, ACC_STATIC, class_flags_agree,
    constructor_flags_agree, field_flags_agree, has, method_flags_agree,
};
pub use itself::{super_is_right, this_is_no_array};
pub use methods::{
    code_count_is_right, code_has_form, flags_fit_method, method_is_named, units_fit,
};
pub use subject::Subject;

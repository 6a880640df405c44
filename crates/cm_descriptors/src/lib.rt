//! Utf8s of class files: their form (JVMS SE 8, 4.4.7), names (4.2) and descriptors (4.3).
#![tactic(auto)]

mod descriptors;
mod joined;
mod judgement;
mod laws;
mod marks;
mod names;
mod stops;
mod utf8;

pub use descriptors::{begins_with, ends_in_void, first, is_field_descriptor, method_units};
pub use judgement::{Judgement, judge};
pub use laws::{
    class_name_is_joined_names, field_descriptor_spells_a_type, method_descriptor_spells_types,
    utf8_is_characters,
};
pub use names::{is_class_name, is_method_name, is_unqualified_name};
pub use utf8::has_utf8_form;

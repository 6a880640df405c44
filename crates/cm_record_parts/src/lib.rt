//! All parts of a class, read from the words of its record. Any words may be passed.
#![tactic(auto)]

mod attributes;
mod class_files;
mod class_parts;
mod constants;
mod members;
mod nested;
mod places;
mod texts;
mod words;

pub use attributes::{Attribute, Owner, attribute_at, attribute_count, attribute_named};
pub use class_files::class_file;
pub use class_parts::{
    class_name, field_count, flags, interface, interface_count, method_count, pool_count,
    super_name,
};
pub use constants::{PoolConstant, constant, next_constant};
pub use members::{Member, field, method};
pub use nested::{NestedAttributes, nested_attribute, nested_attributes};
pub use places::Place;

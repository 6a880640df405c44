//! Class files of version 52.0 as values, and the reader of their bytes (JVMS SE 8, chapter 4).
#![tactic(auto)]

mod attributes;
mod bytes;
mod class;
mod class_file;
mod constant;
mod fault;
mod items;
mod kind;
mod laws;
mod members;
mod names;
mod numbers;
mod pool;
mod shape;
mod sink;
mod stop;

pub use attributes::Attributes;
pub use bytes::Bytes;
pub use class::Class;
pub use class_file::{Attribute, ClassFile, Member};
pub use constant::{Constant, Slot};
pub use fault::ShapeFault;
pub use items::Items;
pub use kind::Kind;
pub use laws::{each_input_has_one_answer, no_spelling_begins_another, one_class_for_one_spelling};
pub use numbers::HEADING;
pub use shape::{class_of_spelling, read_shape};

//! A tag of class files and jars, which is another one if one of them changed, and names of loaders
//! that end in one.
#![tactic(auto)]

mod jar_text;
mod name;
mod tag;

pub use name::is_tagged;
pub use tag::Tag;

//! What paths hold: class files, folders of them, and jars.
#![tactic(auto)]

mod entries;
mod name;
mod place;
mod search;

pub use entries::class_entries;
pub use name::{is_class_name, is_jar_name};
pub use place::{FindFault, Found, Place, Unsearched};
pub use search::find;

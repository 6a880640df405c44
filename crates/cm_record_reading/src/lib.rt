//! Which words are the record of a class, and of which: spelled into a buffer, and checked without
//! allocating.
#![tactic(auto)]

mod checking;
mod entry;
mod fault;
mod laws;
mod spelling;
mod whole;

pub use checking::is_record;
pub use fault::RecordFault;
pub use laws::layout_determines_class;
pub use spelling::read_run;
pub use whole::spell_class;

//! Classes as records: words that can be stored anywhere, as all places count from the first word.
#![tactic(auto)]

mod code;
mod constant;
mod fingerprints;
mod laws;
mod marks;
mod member;
mod names;
mod order;
mod record;
mod run;
mod utf8;

pub use cm_record_reading::{RecordFault, layout_determines_class};
pub use cm_record_writing::RecordRefusal;
pub use code::Code;
pub use constant::Utf8Place;
pub use fingerprints::fingerprint;
pub use laws::words_tell_name;
pub use member::Member;
pub use record::{Record, build};

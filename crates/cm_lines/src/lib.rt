//! The text of scripts: lines and their requests, names' spelling, reading and writing.
#![tactic(auto)]

mod bound;
mod cutting;
mod escape;
mod fault;
mod input;
mod laws;
mod line;
mod line_buffer;
mod number;
mod output;

pub use bound::MOST_STEPS;
pub use cutting::cut;
pub use escape::{NameFault, escape_into, unescape};
pub use fault::LineFault;
pub use input::read_line;
pub use laws::{
    lines_make_the_script, names_have_one_spelling, requests_have_one_spelling,
    unescaping_undoes_escaping,
};
pub use line::{Line, are_words, parse};
pub use line_buffer::{LINE_LIMIT, LineBuffer};
pub use number::push_number;
pub use output::write_line;

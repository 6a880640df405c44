//! The runs of a Utf8 and of a class's name, found in the words of a record.
ghost use Rattle.std.specs.Prelude.{◌≡◌, ◌≤◌, ◌+◌, length, get_or};
ghost use Rattle.cm_record_layout.specs.Packing.{first_of};
ghost use Rattle.cm_record.specs.Runs.{run_of_utf8, utf8_run as utf8_run_of};
ghost use Rattle.cm_record.specs.Runs.{name_run as name_run_of};

use crate::constant::{Utf8Place, constant_at_index};
use crate::run::Run;
use cm_class::Constant;

/// The run of a Utf8; `None` for anything else.
pub(crate) fn run_of_utf8(constant: Option<Constant<Utf8Place>>) -> Option<Run>
    ensures { result ≡ run_of_utf8 constant }
{
    match constant {
        Some(Constant::Utf8(place)) => Some(Run {
            at: place.at as usize / 8,
            len: place.len as usize,
        }),
        _ => None,
    }
}

/// The run of the Utf8 at an index; the run of no bytes if there is no Utf8.
pub(crate) fn utf8_run(words: &[u64], index: u16) -> Run
    requires { 8 + first_of (get_or words.now 2 0) ≤ length words.now }
    ensures { result ≡ utf8_run_of words.now index }
{
    run_of_utf8(constant_at_index(words, index)).unwrap_or(Run { at: 0, len: 0 })
}

/// The run of the name that the Class at an index leads to.
pub(crate) fn name_run(words: &[u64], index: u16) -> Run
    requires { 8 + first_of (get_or words.now 2 0) ≤ length words.now }
    ensures { result ≡ name_run_of words.now index }
{
    let name = match constant_at_index(words, index) {
        Some(Constant::Class { name }) => name,
        _ => 0,
    };
    utf8_run(words, name)
}

//! Facts about the definitions themselves. Each law is the contract of a function with an empty
//! body.

ghost use Rattle.cm_lines.specs.Laws.{LinesMakeScript, OneSpelling};
ghost use Rattle.cm_lines.specs.Laws.{UnescapingUndoes, SpellingIsOne};

/// The lines of a script have no newlines, and joined with newlines they are the script.
pub fn lines_make_the_script()
    ensures { LinesMakeScript }
{}

/// A line's request has one spelling.
pub fn requests_have_one_spelling()
    ensures { OneSpelling }
{}

/// A class name's spelling in a script is read as that name.
pub fn unescaping_undoes_escaping()
    ensures { UnescapingUndoes }
{}

/// Only a name's own spelling is read as that name, except that each digit after a `%` may have
/// either case.
pub fn names_have_one_spelling()
    ensures { SpellingIsOne }
{}

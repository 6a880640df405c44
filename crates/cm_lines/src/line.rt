//! The lines of a script.

ghost use Rattle.std.specs.Prelude.{◌≡◌, [], ◌∷◌};
ghost use Rattle.std.specs.Option.{option_map};
ghost use Rattle.cm_lines.specs.Lines.{pieces, are_words, request_in, request_of_few, seen};

use crate::cutting::cut;

/// A line's request.
#[derive(Clone, Copy, Debug, PartialEq, Eq)]
pub enum Line<'a> {
    /// `loader NAME`
    Loader(&'a [u8]),
    /// `unload NAME`
    Unload(&'a [u8]),
    /// `tighten NAME`
    Tighten(&'a [u8]),
    /// `define NAME HEX`
    Define(&'a [u8], &'a [u8]),
    /// `find NAME CLASS`
    Find(&'a [u8], &'a [u8]),
    /// `unloadall NAME NAME ..`: the names as they are in the line, with one space between.
    UnloadAll(&'a [u8]),
}

/// A line's request, if it has one of the known forms: words with one space between, none empty.
pub fn parse(line: &[u8]) -> Option<Line<'_>>
    ensures { option_map seen result ≡ request_in line.now }
{
    let (verb, words) = cut(line, b' ')?;
    if verb == b"unloadall".as_slice() && are_words(words) {
        Some(Line::UnloadAll(words))
    } else {
        of_few_words(verb, words)
    }
}

/// Whether a text is words with one space between, none empty.
pub fn are_words(text: &[u8]) -> bool
    ensures { result ≡ are_words (pieces 32 text.now) }
{
    text.split(|byte| *byte == b' ')
        .all(|word| !word.is_empty())
}

fn of_few_words<'a>(verb: &[u8], words: &'a [u8]) -> Option<Line<'a>>
    ensures { option_map seen result ≡ request_of_few verb.now (pieces 32 words.now) }
{
    match cut(words, b' ') {
        None => of_one_name(verb, words),
        Some((name, last)) => match cut(last, b' ') {
            None => of_two_names(verb, name, last),
            Some(_) => None,
        },
    }
}

fn of_one_name<'a>(verb: &[u8], name: &'a [u8]) -> Option<Line<'a>>
    ensures { option_map seen result ≡ request_of_few verb.now (name.now ∷ []) }
{
    if name.is_empty() {
        None
    } else if verb == b"loader".as_slice() {
        Some(Line::Loader(name))
    } else if verb == b"unload".as_slice() {
        Some(Line::Unload(name))
    } else if verb == b"tighten".as_slice() {
        Some(Line::Tighten(name))
    } else {
        None
    }
}

fn of_two_names<'a>(verb: &[u8], name: &'a [u8], last: &'a [u8]) -> Option<Line<'a>>
    ensures { option_map seen result ≡ request_of_few verb.now (name.now ∷ last.now ∷ []) }
{
    if name.is_empty() || last.is_empty() {
        None
    } else if verb == b"define".as_slice() {
        Some(Line::Define(name, last))
    } else if verb == b"find".as_slice() {
        Some(Line::Find(name, last))
    } else {
        None
    }
}

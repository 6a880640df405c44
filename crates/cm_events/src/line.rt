//! A line's request.

ghost use Rattle.std.specs.Prelude.{◌≡◌, ◌∷◌, nat_lt, length};
ghost use Rattle.std.specs.Option.{option_map, option_and_then};
ghost use Rattle.cm_lines.specs.Lines.{pieces, line_limit};
ghost use Rattle.cm_events.specs.Numbers.{number_in};
ghost use Rattle.cm_events.specs.Asked.{asked_by_event, asked_alone, asked_of_one, asked_of_two};
ghost use Rattle.cm_events.specs.Asked.{asked_of_few, asked_of_words, event_of_line, AsksFault};
ghost use Rattle.cm_events.specs.Asked.{crash_of};

use crate::number::number_in;
use cm_lines::{LINE_LIMIT, are_words, cut};

/// A line's request. Hexadecimal digits aren't decoded yet.
#[derive(Clone, Copy, Debug, PartialEq, Eq)]
pub(crate) enum EventLine<'a> {
    /// `loader NAME`
    Loader(&'a [u8]),
    /// `define NAME HEX`
    Define(&'a [u8], &'a [u8]),
    /// `unload NAME`
    Unload(&'a [u8]),
    /// `tighten NAME`
    Tighten(&'a [u8]),
    /// `unloadall NAME NAME ..`: the names as they are in the line, with one space between.
    UnloadAll(&'a [u8]),
    /// `seal`
    Seal,
    /// `advance`
    Advance,
    /// `trim`
    Trim,
    /// `learn`
    Learn,
    /// `look NAME CLASS`
    Look(&'a [u8], &'a [u8]),
    /// `fault N`
    Fault(u64),
    /// `reopen`
    Reopen,
    /// `crash LENGTH HEX`
    Crash(u64, &'a [u8]),
}

/// Whether a line is longer than the limit.
pub(crate) fn is_long(line: &[u8]) -> bool
    ensures { result ≡ nat_lt line_limit (length line.now) }
{
    line.len() > LINE_LIMIT
}

/// A line's request, if it has one of the known forms: words with one space between, none empty.
pub(crate) fn parse(line: &[u8]) -> Option<EventLine<'_>>
    ensures { option_and_then asked_by_event result ≡ event_of_line line.now }
{
    if is_long(line) {
        return None;
    }
    parse_words(line)
}

fn parse_words(line: &[u8]) -> Option<EventLine<'_>>
    ensures { option_and_then asked_by_event result ≡ asked_of_words (pieces 32 line.now) }
{
    match cut(line, b' ') {
        None => parse_lone_verb(line),
        Some((verb, rest)) => with_words(verb, rest),
    }
}

/// The request of a verb and the words after it.
fn with_words<'a>(verb: &[u8], rest: &'a [u8]) -> Option<EventLine<'a>>
    ensures { option_and_then asked_by_event result
        ≡ asked_of_words (verb.now ∷ pieces 32 rest.now) }
{
    if verb == b"unloadall".as_slice() && are_words(rest) {
        Some(EventLine::UnloadAll(rest))
    } else {
        with_few(verb, rest)
    }
}

fn with_few<'a>(verb: &[u8], rest: &'a [u8]) -> Option<EventLine<'a>>
    ensures { option_and_then asked_by_event result ≡ asked_of_few verb.now (pieces 32 rest.now) }
{
    match cut(rest, b' ') {
        None => with_one(verb, rest),
        Some((word, last)) => match cut(last, b' ') {
            None => with_two(verb, word, last),
            Some(_) => None,
        },
    }
}

fn parse_lone_verb<'a>(verb: &[u8]) -> Option<EventLine<'a>>
    ensures { option_and_then asked_by_event result ≡ asked_alone verb.now }
{
    if verb == b"seal".as_slice() {
        Some(EventLine::Seal)
    } else if verb == b"advance".as_slice() {
        Some(EventLine::Advance)
    } else if verb == b"trim".as_slice() {
        Some(EventLine::Trim)
    } else if verb == b"learn".as_slice() {
        Some(EventLine::Learn)
    } else if verb == b"reopen".as_slice() {
        Some(EventLine::Reopen)
    } else {
        None
    }
}

fn with_one<'a>(verb: &[u8], word: &'a [u8]) -> Option<EventLine<'a>>
    ensures { option_and_then asked_by_event result ≡ asked_of_one verb.now word.now }
{
    if verb == b"loader".as_slice() && !word.is_empty() {
        Some(EventLine::Loader(word))
    } else if verb == b"unload".as_slice() && !word.is_empty() {
        Some(EventLine::Unload(word))
    } else if verb == b"tighten".as_slice() && !word.is_empty() {
        Some(EventLine::Tighten(word))
    } else if verb == b"fault".as_slice() {
        fault(word)
    } else {
        None
    }
}

/// `fault N`
fn fault<'a>(word: &[u8]) -> Option<EventLine<'a>>
    ensures { option_and_then asked_by_event result ≡ option_map AsksFault (number_in word.now) }
{
    match number_in(word) {
        Some(stores) => Some(EventLine::Fault(stores)),
        None => None,
    }
}

fn with_two<'a>(verb: &[u8], word: &'a [u8], last: &'a [u8]) -> Option<EventLine<'a>>
    ensures { option_and_then asked_by_event result ≡ asked_of_two verb.now word.now last.now }
{
    if verb == b"define".as_slice() && !word.is_empty() && !last.is_empty() {
        Some(EventLine::Define(word, last))
    } else if verb == b"look".as_slice() && !word.is_empty() && !last.is_empty() {
        Some(EventLine::Look(word, last))
    } else if verb == b"crash".as_slice() && !last.is_empty() {
        crash(word, last)
    } else {
        None
    }
}

/// `crash LENGTH HEX`
fn crash<'a>(word: &[u8], digits: &'a [u8]) -> Option<EventLine<'a>>
    ensures { option_and_then asked_by_event result
        ≡ option_and_then (λ len. crash_of len digits.now) (number_in word.now) }
{
    match number_in(word) {
        Some(len) => Some(EventLine::Crash(len, digits)),
        None => None,
    }
}

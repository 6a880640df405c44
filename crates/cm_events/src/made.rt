//! Lines that become events.

ghost use Rattle.std.specs.Prelude.{◌≡◌, Some, None, IfOk, IsErrOf};
ghost use Rattle.cm_lines.specs.Lines.{pieces};
ghost use Rattle.cm_events.specs.Asked.{asked_by_event, event_of_line, define_of, crash_of};
ghost use Rattle.cm_events.specs.Asked.{bytes_in};
ghost use Rattle.cm_events.specs.Asked.{AsksDefine, AsksUnloadAll};
ghost use Rattle.cm_events.specs.Made.{Comes};

use crate::line::{EventLine, parse};
use cm_commands::{Command, Names, Refusal, prepare};
use cm_disk::Choice;
use cm_world::Event;
use hex::FromHexError;
use std::alloc::Global;

/// The result of a line.
#[derive(Drop)]
pub(crate) enum Made<'a> {
    /// It is an event.
    Runs(Event<'a>),
    /// It is none: the bytes of its class can't be prepared.
    Refused(Refusal),
}

/// Why a line has no result.
#[derive(Clone, Copy, Debug, PartialEq, Eq)]
pub(crate) enum EventFault {
    /// It has none of the known forms.
    BadForm,
    /// An allocation failed.
    NoMemory,
}

/// The event that a line requests.
pub(crate) fn make<'a>(alloc: Global, line: &'a [u8]) -> Result<Made<'a>, EventFault>
    ensures made { IfOk result (Comes (event_of_line line.now)) }
    ensures bad { IsErrOf result EventFault.BadForm → event_of_line line.now ≡ None }
{
    match parse(line) {
        Some(line) => make_of(alloc, line),
        None => Err(EventFault::BadForm),
    }
}

fn make_of<'a>(alloc: Global, line: EventLine<'a>) -> Result<Made<'a>, EventFault>
    ensures made { IfOk result (Comes (asked_by_event line.entry)) }
    ensures bad { IsErrOf result EventFault.BadForm → asked_by_event line.entry ≡ None }
{
    match line {
        EventLine::Loader(name) => Ok(Made::Runs(Event::Accept(Command::AddLoader(name)))),
        EventLine::Define(loader, digits) => define(alloc, loader, digits),
        EventLine::Unload(name) => Ok(Made::Runs(Event::Accept(Command::Unload(name)))),
        EventLine::Tighten(name) => Ok(Made::Runs(Event::Accept(Command::Tighten(name)))),
        EventLine::UnloadAll(words) => Ok(unload_all(words)),
        EventLine::Seal => Ok(Made::Runs(Event::Seal)),
        EventLine::Advance => Ok(Made::Runs(Event::Advance)),
        EventLine::Trim => Ok(Made::Runs(Event::Trim)),
        EventLine::Learn => Ok(Made::Runs(Event::Learn)),
        EventLine::Look(loader, class) => Ok(Made::Runs(Event::Look(loader, class))),
        EventLine::Fault(stores) => Ok(Made::Runs(Event::Fault(stores as usize))),
        EventLine::Reopen => Ok(Made::Runs(Event::Reopen)),
        EventLine::Crash(len, digits) => crash(alloc, len, digits),
    }
}

/// `unloadall NAME NAME ..`
fn unload_all<'a>(words: &'a [u8]) -> Made<'a>
    ensures { Comes (Some (AsksUnloadAll (pieces 32 words.now))) result }
{
    let names = Names::from_words(words);
    Made::Runs(Event::Accept(Command::UnloadAll(names)))
}

/// The bytes that hexadecimal digits spell.
fn bytes_of(alloc: Global, digits: &[u8]) -> Result<Vec<u8>, EventFault>
    ensures ok { IfOk result (λ bytes. bytes_in digits.now ≡ Some bytes.items) }
    ensures bad { IsErrOf result EventFault.BadForm → bytes_in digits.now ≡ None }
{
    match hex::decode(alloc, digits) {
        Ok(bytes) => Ok(bytes),
        Err(FromHexError::OutOfMemory) => Err(EventFault::NoMemory),
        Err(_) => Err(EventFault::BadForm),
    }
}

/// `define NAME HEX`
fn define<'a>(alloc: Global, loader: &'a [u8], digits: &[u8]) -> Result<Made<'a>, EventFault>
    ensures made { IfOk result (Comes (define_of loader.now digits.now)) }
    ensures bad { IsErrOf result EventFault.BadForm → define_of loader.now digits.now ≡ None }
{
    match bytes_of(alloc, digits) {
        Ok(bytes) => Ok(define_bytes(alloc, loader, &bytes)),
        Err(fault) => Err(fault),
    }
}

/// A class of these bytes in a loader.
fn define_bytes<'a>(alloc: Global, loader: &'a [u8], bytes: &[u8]) -> Made<'a>
    ensures { Comes (Some (AsksDefine loader.now bytes.now)) result }
{
    match prepare(alloc, bytes) {
        Ok(class) => Made::Runs(Event::Accept(Command::Define(loader, class))),
        Err(fault) => Made::Refused(Refusal::from(fault)),
    }
}

/// `crash LENGTH HEX`
fn crash<'a>(alloc: Global, len: u64, digits: &[u8]) -> Result<Made<'a>, EventFault>
    ensures made { IfOk result (Comes (crash_of len digits.now)) }
    ensures bad { IsErrOf result EventFault.BadForm → crash_of len digits.now ≡ None }
{
    if digits == b"-".as_slice() {
        let fill = Vec::new(alloc);
        return Ok(Made::Runs(Event::Crash(Choice { len, fill })));
    }
    match bytes_of(alloc, digits) {
        Ok(fill) => Ok(Made::Runs(Event::Crash(Choice { len, fill }))),
        Err(fault) => Err(fault),
    }
}
